// The chains: a chained slot's link is tested before it is followed, and the last link is none.
ghost use Rattle.std.specs.Prelude.{◌+◌, ◌<◌, ◌≤◌, length};
ghost use Rattle.model.specs.Layout.{chain_count, heads_at, masks_at};
ghost use Rattle.slot_places.specs.WalkSteps.{several};
ghost use Rattle.slot_places.specs.Walks.{chain_of, Counted, Ready, Enters};

use distinct_codes::cells::Codes;
use distinct_codes::slots::Slots;

// Chain k, where left slots are unmarked: how many are left then.
// Stays: marks and left are two values: the marks are lent, and what is left is answered by value, of which `?` takes the new one.
fn walk_chain<const CELLS: usize, const SLOTS: usize>(
    slots: Slots,
    k: usize,
    left: u32,
    marks: &mut [u8],
    codes: &mut Codes<CELLS, SLOTS>,
) -> Option<u32>
    requires { Counted slots marks.old left × Ready slots CELLS codes.old.cells codes.old.aside.items left × (slots.count ≤ SLOTS)
        × (k < chain_count) × (heads_at + k < length slots.memory.now) }
    ensures { Enters slots.entry CELLS (chain_of slots.entry k) marks.old codes.old.cells codes.old.aside.items result
        marks.new codes.new.cells codes.new.aside.items }
{
    let chain = k as u64;
    let mut cur = slots.memory[words::HEADS_AT + k];
    let mut rest = left;
    while cur < slots.count {
        let c = cur as usize;
        if marks[c] != 0 {
            return None;
        }
        if !crate::slots::chained_fits(slots, c, chain) {
            return None;
        }
        if !codes.meet(slots, c) {
            return None;
        }
        marks[c] = crate::MET;
        rest = rest - 1;
        cur = slots.word(c, words::CHAIN_LINK_AT);
    }
    if cur != words::NONE {
        return None;
    }
    Some(rest)
}

// The chains, one after the other: how many slots are left unmarked.
pub fn chains<const CELLS: usize, const SLOTS: usize>(
    slots: Slots,
    marks: &mut [u8],
    codes: &mut Codes<CELLS, SLOTS>,
) -> Option<u32>
    requires { Counted slots marks.old slots.count × Ready slots CELLS codes.old.cells codes.old.aside.items slots.count
        × (slots.count ≤ SLOTS) × (masks_at ≤ length slots.memory.now) }
    ensures { Enters slots.entry CELLS (several (chain_of slots.entry) 1 0 chain_count) marks.old codes.old.cells
        codes.old.aside.items result marks.new codes.new.cells codes.new.aside.items }
{
    let mut left = slots.count;
    for k in 0..words::CHAIN_COUNT {
        left = walk_chain(slots, k, left, marks, codes)?;
    }
    Some(left)
}
