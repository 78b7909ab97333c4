// The first step: a cell for each code, which holds the first slot met whose code spreads there. Two
// slots with one code share a cell, and a cell has one holder: a code that is not the holder's is put
// aside, and codes stand twice among all slots met exactly where they do among those.
ghost use Rattle.std.specs.Prelude.{◌≡◌, ◌<◌, ◌≤◌, [], length, replicate};
ghost use Rattle.model.specs.Layout.{max_slots};
ghost use Rattle.distinct_codes.specs.Cells.{many_cells, CellCount, Begins};
ghost use Rattle.distinct_codes.specs.Met.{Room, Meets};

use crate::slots::Slots;
use arrayvec::ArrayVec;

// cells of a table of few slots, and of one of more: powers of two, so that no code is divided
pub const FEW: u64 = 64;

pub const MANY: u64 = 4096;

pub const FEW_CELLS: usize = FEW as usize;

pub const MANY_CELLS: usize = MANY as usize;

// the spreading function: factors of a code's words, and what is dropped of the sum
const LOW_FACTOR: u64 = 1306944375;

const HIGH_FACTOR: u64 = 1969992241;

const DROPPED: u64 = 1048576;

// The cell of a code.
fn spread<const CELLS: usize>(code: u64) -> usize
    requires { CellCount CELLS }
    ensures { Begins CELLS code result }
{
    let h = (code % words::WORD_LIMIT * LOW_FACTOR + code / words::WORD_LIMIT * HIGH_FACTOR)
        / DROPPED;
    (h % CELLS as u64) as usize
}

// Stays: a cell holds 0 or a slot's number and one more, since an Option of it takes twice the room in an array of 4,096.
// What the slots met so far leave: the cells, and the slots put aside.
#[derive(Drop)]
pub struct Codes<const CELLS: usize, const SLOTS: usize> {
    pub cells: [u16; CELLS],
    pub aside: ArrayVec<u16, SLOTS>,
}

impl<const CELLS: usize, const SLOTS: usize> Codes<CELLS, SLOTS> {
    // No slot was met.
    pub fn new() -> Self
        requires { (CELLS ≤ many_cells) × (SLOTS ≤ max_slots) }
        ensures cells { result.cells ≡ replicate CELLS 0 }
        ensures aside { result.aside.items ≡ [] }
    {
        Codes {
            cells: [0u16; CELLS],
            aside: ArrayVec::new(),
        }
    }

    // Slot i holds its cell, or is put aside; false where its code is its cell's holder's.
    pub fn meet(&mut self, slots: Slots, i: usize) -> bool
        requires { (i < slots.count) × (i < max_slots) × (length self.old.aside.items < SLOTS) × Room slots CELLS self.old.cells self.old.aside.items }
        ensures { Meets slots.entry CELLS i self.old.cells self.old.aside.items result self.new.cells self.new.aside.items }
    {
        let code = slots.code(i);
        let p = spread::<CELLS>(code);
        let v = self.cells[p] as usize;
        if v == 0 {
            self.cells[p] = (i + 1) as u16;
            return true;
        }
        if slots.code(v - 1) == code {
            return false;
        }
        self.aside.push(i as u16);
        true
    }
}
