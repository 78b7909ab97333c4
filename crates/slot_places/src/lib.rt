// One walk along the links: each slot is met where it stands, on its chain or in its queue, tested, marked
// and, on a chain, entered by its code. A slot that is met twice is refused, so that every walk ends.
#![tactic(auto)]

pub mod chain;
pub mod queue;
pub mod slots;

// the mark of a slot that was met
// Stays: a mark is a byte, 0 or this, as the laws of walks count it; a `bool` is a byte too.
const MET: u8 = 1;
