// A tree of masks in lent words: a bit cleared, and a level's masks set by those of the level below. A caller names the levels
// and climbs them.
#![tactic(auto)]

ghost use Rattle.std.specs.Prelude.{◌≡◌, ◌+◌, ◌*◌, ◌<◌, ◌≤◌, length};
ghost use Rattle.masks.specs.Bits.{width};
ghost use Rattle.mask_tree.specs.Tree.{level_of, Cleared, mask_of, raised_to};

// Clears a bit of the mask at `at`. Answers whether the mask is 0 then.
pub fn clear(m: &mut [u32], at: usize, place: u32) -> bool
    requires { (at < length m.old) × (place < width) }
    ensures { Cleared m.old at place result m.new }
{
    let mask = m[at];
    let rest = masks::clear_bit(mask, place);
    m[at] = rest;
    rest == 0
}

// The mask of these words: bit p stands while the p-th of them is not 0.
#[tactic(auto, unfolding(model::specs::Lists::mask, model::specs::Lists::from))]
fn mask_of(words: &[u32]) -> u32
    requires { length words.now ≤ width }
    ensures { result ≡ mask_of words.now (length words.now) }
{
    let mut mask = 0;
    for (p, word) in words.iter().enumerate() {
        if *word != 0 {
            mask = masks::set_bit(mask, p as u32);
        }
    }
    mask
}

// A level: where its masks stand, the flags of a mask, and how many masks.
#[derive(Clone, Copy)]
pub struct Level {
    pub first: usize,
    pub wide: u32,
    pub count: u32,
}

impl Level {
    // Sets the masks of the level by those of the level below, which stand from `below` on.
    #[tactic(auto, unfolding(crate::specs::Tree::raised_to))]
    pub fn raise(self, m: &mut [u32], below: usize)
        requires { (below + self.count * self.wide ≤ length m.old) × ((self.first + self.count ≤ length m.old) × (self.wide ≤ width)) }
        ensures { m.new ≡ raised_to m.old below (level_of self) self.count }
    {
        let wide = self.wide as usize;
        for g in 0..self.count as usize {
            let at = below + g * wide;
            m[self.first + g] = mask_of(&m[at..at + wide]);
        }
    }
}
