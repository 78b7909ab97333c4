// Generations against the current one and the largest requested: those of the lanes' current queues, that
// of the global one, and the largest itself.
ghost use Rattle.std.specs.Prelude.{◌≡◌, ◌<◌, length};
ghost use Rattle.model.specs.Layout.{yard_mask_at};
ghost use Rattle.model.specs.Legal.{largest_fits};
ghost use Rattle.engine_legality.specs.LaneSentences.{generations_in, generation_fits, global_fits};

// The current generation, the largest requested, and whether a period runs.
#[derive(Clone, Copy)]
pub struct Generations {
    current: u32,
    largest: u32,
    runs: bool,
}

impl Generations {
    // Those that a memory's global words name.
    pub fn read(m: &[u32]) -> Generations
        requires { yard_mask_at < length m.now }
        ensures { result ≡ generations_in m.now }
    {
        Generations {
            current: m[words::CURRENT_GENERATION_AT],
            largest: m[words::LARGEST_GENERATION_AT],
            runs: m[words::YARD_MASK_AT] != 0,
        }
    }

    // A lane's generation: "0 while its current line is empty", else the current one or one next to it, not
    // after the largest, and while a period runs the one before only with the lane's bit set.
    pub fn lane_fits(self, g: u32, empty: bool, pending: bool) -> bool
        ensures { result ≡ generation_fits self g empty pending }
    {
        let before = g == masks::down(self.current);
        let after = g == masks::up(self.current);
        let late = masks::later(g, self.largest);
        (!empty | (g == 0))
            & (empty
                | ((before | (g == self.current) | after)
                    & !late
                    & (!(before & self.runs) | pending)))
    }

    // The global generation: 0 while its current queue is empty, else the current one or the next, and not
    // after the largest.
    pub fn global_fits(self, g: u32, empty: bool) -> bool
        ensures { result ≡ global_fits self g empty }
    {
        let after = g == masks::up(self.current);
        let late = masks::later(g, self.largest);
        (!empty | (g == 0)) & (empty | (((g == self.current) | after) & !late))
    }

    // The largest generation requested, against the current one.
    pub fn largest_fits(self) -> bool
        ensures { result ≡ largest_fits self.current self.largest self.runs }
    {
        if self.runs {
            (self.largest == self.current) | (self.largest == masks::up(self.current))
        } else {
            self.largest == masks::down(self.current)
        }
    }
}
