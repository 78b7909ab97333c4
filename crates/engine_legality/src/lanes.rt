// The lanes, one at a time: a lane's part of document 01's sentences.
ghost use Rattle.std.specs.Prelude.{◌≡◌, ◌+◌, ◌*◌, ◌≤◌, length};
ghost use Rattle.model.specs.Layout.{max_places, lane_length, queue_width, queues_at, lanes_body};
ghost use Rattle.model.specs.Memory.{at as word_at, flag as flag_of};
ghost use Rattle.model.specs.State.{cabinet_count};
ghost use Rattle.words.specs.Flags.{bit_of};
ghost use Rattle.words.specs.Lent.{sizes_of, Lent};
ghost use Rattle.engine_legality.specs.LaneSentences.{ends_fit, queues_fit, lane_in_range, lookup_in_range, snapshot_blank, lookup_blank, lane_at_rest, empty_first, none_queued_at, lane_agrees, lane_fits};
ghost use Rattle.engine_legality.specs.LaneSentences.{generations_in, cabinet_lanes, all_lanes};

use crate::generations::Generations;
use words::flags::Flag;

// where a lane's queues stand
const NEXT: usize = words::QUEUES_AT;

const CURRENT: usize = NEXT + words::CURRENT_OFFSET;

const DONE: usize = NEXT + words::DONE_OFFSET;

const SNAPSHOT_END: usize = words::SNAPSHOT_AT + words::COUNTS_WIDTH;

// A lane as the check reads it: the words from its record on, how many slots the table has, and whether
// the lane's bit of the mask is set.
#[derive(Clone, Copy)]
struct Lane<'a> {
    words: &'a [u32],
    slots: u32,
    pending: bool,
    ghost long: { lane_length ≤ length words.now },
}

impl<'a> Lane<'a> {
    // Whether the lane has this flag.
    fn has(&self, flag: Flag) -> bool
        ensures { result ≡ flag_of (bit_of flag) (word_at self.now.words.now 0) }
    {
        flag.is_set(self.words[words::FLAGS_AT])
    }

    // The queue that stands there is empty.
    fn is_empty(&self, queue: usize) -> bool
        requires { queue + queue_width ≤ lane_length }
        ensures { result ≡ empty_first self.now.slots (word_at self.now.words.now queue) }
    {
        self.slots <= self.words[queue]
    }

    // First and last of the queue that stands there are in range.
    fn ends_fit(&self, queue: usize) -> bool
        requires { queue + queue_width ≤ lane_length }
        ensures { result ≡ ends_fit (word_at self.now.words.now) self.now.slots queue }
    {
        words::links::link_fits(self.words[queue], self.slots)
            & words::links::link_fits(self.words[queue + words::LAST_OFFSET], self.slots)
    }

    // The ends of its queues are in range.
    // Stays: a call for each of three queues; a loop over their places is no shorter, and branches at each.
    fn queues_fit(&self) -> bool
        ensures { result ≡ queues_fit (word_at self.now.words.now) self.now.slots queues_at }
    {
        self.ends_fit(NEXT) & self.ends_fit(CURRENT) & self.ends_fit(DONE)
    }

    // Its part of "flags, masks, links and fields are in range", masks and the lookup code apart.
    fn is_in_range(&self) -> bool
        ensures { result ≡ lane_in_range (word_at self.now.words.now) self.now.slots }
    {
        crate::globals::fits_in(self.words[words::FLAGS_AT], Flag::COUNT)
            & self.queues_fit()
            & words::links::link_fits(self.words[words::POSITION_AT], self.slots)
    }

    // The lookup code is in range.
    fn is_lookup_in_range(&self) -> bool
        ensures { result ≡ lookup_in_range (word_at self.now.words.now) }
    {
        words::code_at(self.words, words::LOOKUP_AT) <= words::MAX_CODE
    }

    // The words of the snapshot's counts hold their rest value.
    fn is_snapshot_blank(&self) -> bool
        ensures { result ≡ snapshot_blank (word_at self.now.words.now) }
    {
        let counts = &self.words[words::SNAPSHOT_AT..SNAPSHOT_END];
        counts.iter().fold(true, |blank, word| blank & (*word == 0))
    }

    // The words of the lookup hold their rest value.
    fn is_lookup_blank(&self) -> bool
        ensures { result ≡ lookup_blank (word_at self.now.words.now) }
    {
        (self.words[words::LOOKUP_AT] == 0)
            & (self.words[words::LOOKUP_AT + 1] == 0)
            & (self.words[words::POSITION_AT] == words::NONE)
    }

    // Its part of "unused words hold their rest value", its generation apart.
    fn is_at_rest(&self) -> bool
        ensures { result ≡ lane_at_rest (word_at self.now.words.now) }
    {
        (self.has(Flag::Snapshot) | self.is_snapshot_blank())
            & (self.has(Flag::Lookup) | self.is_lookup_blank())
    }

    // Its queues are empty.
    fn has_no_queue(&self) -> bool
        ensures { result ≡ none_queued_at (word_at self.now.words.now) self.now.slots }
    {
        self.is_empty(NEXT) & self.is_empty(CURRENT) & self.is_empty(DONE)
    }

    // Its part of "an off lane has no section, no lines and no mask bit", "a lookup runs only in an
    // open section" and "a snapshot is held only with the mask bit set".
    fn agrees(&self) -> bool
        ensures { result ≡ lane_agrees (word_at self.now.words.now) self.now.slots self.now.pending }
    {
        let reading = self.has(Flag::Reading);
        let off = !reading & self.has_no_queue() & !self.pending;
        (self.has(Flag::Online) | off)
            & (!self.has(Flag::Lookup) | reading)
            & (!self.has(Flag::Snapshot) | self.pending)
    }

    // Its part of all sentences.
    #[tactic(auto, unfolding(crate::specs::LaneSentences::lane_fits))]
    fn fits(&self, generations: Generations) -> bool
        ensures { result ≡ lane_fits generations (word_at self.now.words.now) self.now.slots self.now.pending }
    {
        let generation = self.words[words::GENERATION_AT];
        self.is_in_range()
            && self.is_lookup_in_range()
            && self.is_at_rest()
            && self.agrees()
            && generations.lane_fits(generation, self.is_empty(CURRENT), self.pending)
    }
}

// The lane whose record begins at `first` passes its part of all sentences.
fn lane_fits(m: &[u32], first: usize, slots: u32, pending: bool, generations: Generations) -> bool
    requires { first + lane_length ≤ length m.now }
    ensures { result ≡ lane_fits generations (λ k. word_at m.now (first + k)) slots pending }
{
    let lane = Lane {
        words: &m[first..],
        slots,
        pending,
    };
    lane.fits(generations)
}

// The lanes of a cabinet, the first one's words at `first`, with the cabinet's lane mask.
fn cabinet_lanes(
    m: &[u32],
    z: words::Sizes,
    first: usize,
    mask: u32,
    generations: Generations,
) -> bool
    requires { (first + lane_length * z.places ≤ length m.now) × (z.places ≤ max_places) }
    ensures { result ≡ cabinet_lanes generations m.now z.slots z.places first mask }
{
    (0..z.places).all(|p| {
        let at = first + words::LANE_LENGTH * p as usize;
        lane_fits(m, at, z.slots, masks::test(mask, p), generations)
    })
}

// The lanes of all cabinets of all yards.
pub fn lanes_fit(m: &[u32], z: words::Sizes) -> bool
    requires { Lent m.now (sizes_of z) }
    ensures { result ≡ all_lanes (generations_in m.now) m.now z.slots (cabinet_count (sizes_of z)) z.places (lanes_body (sizes_of z)) }
{
    let generations = Generations::read(m);
    let cabinets = z.cabinet_count();
    let first = words::MASKS_AT + cabinets as usize;
    let stride = words::LANE_LENGTH * z.places as usize;
    (0..cabinets).all(|c| {
        let c = c as usize;
        cabinet_lanes(
            m,
            z,
            first + stride * c,
            m[words::MASKS_AT + c],
            generations,
        )
    })
}
