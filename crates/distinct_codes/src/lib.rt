// No code twice among slots, in two steps: cells that hold the first slot of each, and for the slots put
// aside there a tree of the codes' digits, so that each code is met in a few cells however many slots
// there are and whatever their codes (document 01, "The memory": "no code twice").
#![tactic(auto)]

pub mod cells;
pub mod slots;

ghost use Rattle.std.specs.Prelude.{◌≡◌, ℕ, ◌+◌, ◌*◌, ◌<◌, ◌≤◌, map, length, get_or};
ghost use Rattle.model.specs.Lists.{distinct};
ghost use Rattle.model.specs.Layout.{max_slots};
ghost use Rattle.distinct_codes.specs.Cells.{many_cells, CellCount};
ghost use Rattle.distinct_codes.specs.Met.{code_of, Listed};
ghost use Rattle.distinct_codes.specs.Tree.{branches, Rooted, Shape, Entered, Empty};

use slots::Slots;

// the base of the digits, and the cells of a number's own
const BRANCHES: usize = 16;

// the cells of a tree of few codes, and of one of as many as there are slots
const TREE_OF_FEW: usize = cells::FEW_CELLS + BRANCHES * cells::FEW_CELLS;

const TREE_OF_MANY: usize = cells::MANY_CELLS + BRANCHES * (words::MAX_SLOTS as usize);

// The cell in which a code begins: codes of one chain are equal but for what the number of chains divides.
fn root<const CELLS: usize>(code: u64) -> usize
    requires { CellCount CELLS }
    ensures { Rooted CELLS code result }
{
    let cells = CELLS as u64;
    ((code % cells + code / words::CHAIN_COUNT as u64 % cells) % cells) as usize
}

// Number i is entered by its code, that of the slot aside[i]; false where one entered before has that
// code.
// Stays: the tree's nodes are indices in an array of fixed size, since nothing may be allocated.
// Stays: how many cells there may be (`CellCount`) is a premise, since a const parameter carries no fact.
fn enter<const CELLS: usize>(slots: Slots, aside: &[u16], i: usize, cells: &mut [u16]) -> bool
    requires { Listed slots aside.now × (i < length aside.now) × CellCount CELLS
        × (CELLS + branches * i < length cells.old) × Shape CELLS i cells.old }
    ensures { Entered CELLS (λ (t : ℕ). code_of slots.entry (get_or aside.now t 0)) i cells.old result cells.new }
{
    let code = slots.code(aside[i] as usize);
    let mut digits = code / CELLS as u64;
    let mut p = root::<CELLS>(code);
    let mut v = cells[p] as usize;
    while v > 0 {
        let s = v - 1;
        if slots.code(aside[s] as usize) == code {
            return false;
        }
        p = CELLS + BRANCHES * s + (digits % BRANCHES as u64) as usize;
        digits = digits / BRANCHES as u64;
        v = cells[p] as usize;
    }
    cells[p] = (i + 1) as u16;
    true
}

// The numbers of aside, one after the other, into cells that are lent empty.
fn enter_all<const CELLS: usize>(slots: Slots, aside: &[u16], cells: &mut [u16]) -> bool
    requires { Listed slots aside.now × CellCount CELLS × (CELLS + branches * length aside.now ≤ length cells.old)
        × Empty cells.old }
    ensures { result ≡ distinct (map (code_of slots.entry) aside.now) }
{
    for i in 0..aside.len() {
        if !enter::<CELLS>(slots, aside, i, cells) {
            return false;
        }
    }
    true
}

// The same in a tree of so many cells.
fn apart_in<const CELLS: usize, const TREE: usize>(slots: Slots, aside: &[u16]) -> bool
    requires { Listed slots aside.now × CellCount CELLS × (CELLS + branches * length aside.now ≤ TREE)
        × (TREE ≤ many_cells + branches * max_slots) }
    ensures { result ≡ distinct (map (code_of slots.entry) aside.now) }
{
    let mut cells = [0u16; TREE];
    enter_all::<CELLS>(slots, aside, &mut cells)
}

// No code stands twice among the slots of aside.
pub fn apart(slots: Slots, aside: &[u16]) -> bool
    requires { Listed slots aside.now }
    ensures { result ≡ distinct (map (code_of slots.entry) aside.now) }
{
    if aside.len() < 2 {
        return true;
    }
    if aside.len() <= cells::FEW_CELLS {
        return apart_in::<{ cells::FEW_CELLS }, TREE_OF_FEW>(slots, aside);
    }
    apart_in::<{ cells::MANY_CELLS }, TREE_OF_MANY>(slots, aside)
}
