// The sizes of a table, handed on by value.
// Stays: memory and sizes, `m` and `z`, are two parameters all over the library: a struct that held the memory by `&mut` would owe
// two clauses more in each contract, that it keeps the reference and that the sizes stay.
ghost use Rattle.words.specs.Few.{Few};

// The sizes that somebody names: any four numbers.
#[derive(Clone, Copy)]
pub struct NamedSizes {
    pub yards: u32,
    pub cabinets: u32,
    pub places: u32,
    pub slots: u32,
}

// The sizes of a table: none is above the largest.
// Stays: four fields again, since the one within the other would be reached through it at each use.
#[derive(Clone, Copy)]
pub struct Sizes {
    pub yards: u32,
    pub cabinets: u32,
    pub places: u32,
    pub slots: u32,
    ghost few: { Few (record { yards = yards; cabinets = cabinets; places = places; slots = slots }) },
}

// Sizes that were named are out of range.
#[derive(Clone, Copy, Debug, PartialEq, Eq)]
pub struct SizesOutOfRange;
