// The lent words as the code meets them: where each word stands (the numbers of the model's Layout), and
// 64-bit numbers in two words. Each number of the layout stands here alone: the other crates cite these
// constants, or make theirs of them.
#![tactic(auto)]

pub mod contents;
pub mod flags;
pub mod links;
pub mod product;
pub mod sizes;

ghost use Rattle.std.specs.Prelude.{◌≡◌, ◌+◌, ◌<◌, ◌≤◌, length};
ghost use Rattle.model.specs.State.{cabinet_count, lane_count};
ghost use Rattle.model.specs.Layout.{contents_length, lane_address, slots_body, slot_address, yards_body};
ghost use Rattle.model.specs.Legal.{sizes_fit};
ghost use Rattle.model.specs.Memory.{wide, whole_of, low as low_word, high as high_word};
ghost use Rattle.words.specs.Lent.{sizes_of, named, sizes_in, Few};
ghost use Rattle.words.specs.Sizing.{Sized};

pub use sizes::{NamedSizes, Sizes, SizesOutOfRange};

// one more than the largest word
pub const WORD_LIMIT: u64 = 4294967296;

// no slot, no lane
pub const NONE: u32 = 4294967295;

// ---- ranges
pub const MAX_YARDS: u32 = 8;

// of a yard
pub const MAX_CABINETS: u32 = 8;

// of a cabinet
pub const MAX_PLACES: u32 = 8;

pub const MAX_SLOTS: u32 = 1024;

pub const MAX_CODE: u64 = 99999999999999;

pub const MAX_DEPOSIT: u32 = 100000;

pub const MAX_MATERIAL: u32 = 7;

pub const KINDS: usize = 4;

// the words of a count, and of the counts of all kinds
pub const COUNT_WIDTH: usize = 2;

pub const COUNTS_WIDTH: usize = COUNT_WIDTH * KINDS;

pub const CHAIN_COUNT: usize = 64;

// ---- contents: addresses
pub const VERSION: u32 = 4;

pub const VERSION_AT: usize = 0;

pub const CABINETS_AT: usize = VERSION_AT + 1;

pub const PLACES_AT: usize = CABINETS_AT + 1;

pub const SLOTS_AT: usize = PLACES_AT + 1;

pub const BODIES_AT: usize = SLOTS_AT + 1;

pub const YARDS_AT: usize = BODIES_AT + 2 * 5;

pub const CONTENTS_LENGTH: usize = YARDS_AT + 1;

// ---- queues in a record: first, last and length of next, current and done
pub const LAST_OFFSET: usize = 1;

pub const LENGTH_OFFSET: usize = LAST_OFFSET + 1;

pub const QUEUE_WIDTH: usize = LENGTH_OFFSET + 1;

pub const CURRENT_OFFSET: usize = QUEUE_WIDTH;

pub const DONE_OFFSET: usize = CURRENT_OFFSET + QUEUE_WIDTH;

pub const QUEUES_WIDTH: usize = DONE_OFFSET + QUEUE_WIDTH;

// ---- the global body: addresses
pub const CURRENT_GENERATION_AT: usize = CONTENTS_LENGTH;

pub const LARGEST_GENERATION_AT: usize = CURRENT_GENERATION_AT + 1;

pub const YARD_MASK_AT: usize = LARGEST_GENERATION_AT + 1;

pub const HEADS_AT: usize = YARD_MASK_AT + 1;

pub const FREE_AT: usize = HEADS_AT + CHAIN_COUNT;

pub const GLOBAL_QUEUES_AT: usize = FREE_AT + QUEUE_WIDTH;

pub const GLOBAL_GENERATION_AT: usize = GLOBAL_QUEUES_AT + QUEUES_WIDTH;

// ---- the cabinets' lane masks, yard after yard: address of the first
pub const MASKS_AT: usize = GLOBAL_GENERATION_AT + 1;

// ---- a lane's record: offsets
pub const FLAGS_AT: usize = 0;

pub const QUIESCENT_AT: usize = FLAGS_AT + 1;

pub const SNAPSHOT_AT: usize = QUIESCENT_AT + COUNTS_WIDTH;

pub const GENERATION_AT: usize = SNAPSHOT_AT + COUNTS_WIDTH;

pub const QUEUES_AT: usize = GENERATION_AT + 1;

pub const LOOKUP_AT: usize = QUEUES_AT + QUEUES_WIDTH;

pub const POSITION_AT: usize = LOOKUP_AT + 2;

pub const LANE_LENGTH: usize = POSITION_AT + 1;

// ---- a slot's record: offsets
pub const CODE_AT: usize = 0;

pub const DEPOSIT_AT: usize = CODE_AT + 2;

pub const MATERIAL_AT: usize = DEPOSIT_AT + 1;

pub const CHAIN_LINK_AT: usize = MATERIAL_AT + 1;

pub const QUEUE_LINK_AT: usize = CHAIN_LINK_AT + 1;

pub const SLOT_LENGTH: usize = QUEUE_LINK_AT + 1;

// ---- sizes

impl NamedSizes {
    // The sizes that a memory's contents name.
    pub fn read(m: &[u32]) -> NamedSizes
        requires { contents_length ≤ length m.now }
        ensures { result ≡ sizes_in m.now }
    {
        NamedSizes {
            yards: m[YARDS_AT],
            cabinets: m[CABINETS_AT],
            places: m[PLACES_AT],
            slots: m[SLOTS_AT],
        }
    }

    // Yards 1 to 8, cabinets of a yard 1 to 8, lanes of a cabinet 1 to 8, slots 1 to 1,024.
    #[tactic(auto, unfolding(model::specs::Legal::sizes_fit, model::specs::Lists::every))]
    pub fn fit(self) -> bool
        ensures { result ≡ sizes_fit (named self) }
    {
        (1 <= self.yards)
            & ((self.yards <= MAX_YARDS)
                & ((1 <= self.cabinets)
                    & ((self.cabinets <= MAX_CABINETS)
                        & ((1 <= self.places)
                            & ((self.places <= MAX_PLACES)
                                & ((1 <= self.slots) & ((self.slots <= MAX_SLOTS) & true)))))))
    }

    // The same as a table's, where none is above the largest.
    pub fn of_table(self) -> Sizes
        requires { Few (named self) }
        ensures { sizes_of result ≡ named self }
    {
        Sizes {
            yards: self.yards,
            cabinets: self.cabinets,
            places: self.places,
            slots: self.slots,
        }
    }
}

impl TryFrom<NamedSizes> for Sizes {
    type Error = SizesOutOfRange;

    ghost try_from_gives = { Sized };

    fn try_from(sizes: NamedSizes) -> Result<Self, SizesOutOfRange> {
        if sizes.fit() {
            Ok(sizes.of_table())
        } else {
            Err(SizesOutOfRange)
        }
    }
}

impl Sizes {
    // The number of cabinets of all yards.
    pub fn cabinet_count(self) -> u32
        ensures { result ≡ cabinet_count (sizes_of self) }
    {
        self.yards * self.cabinets
    }

    // The number of lanes.
    pub fn lane_count(self) -> u32
        ensures { result ≡ lane_count (sizes_of self) }
    {
        self.yards * self.cabinets * self.places
    }

    // Where the record of a lane begins.
    pub fn lane_address(self, lane: u32) -> usize
        ensures { result ≡ lane_address (sizes_of self) lane }
    {
        MASKS_AT + self.cabinet_count() as usize + LANE_LENGTH * lane as usize
    }

    // Where the slots' records begin.
    pub fn slots_start(self) -> usize
        ensures { result ≡ slots_body (sizes_of self) }
    {
        self.lane_address(self.lane_count())
    }

    // Where the record of a slot begins.
    pub fn slot_address(self, slot: u32) -> usize
        ensures { result ≡ slot_address (sizes_of self) slot }
    {
        self.slots_start() + SLOT_LENGTH * slot as usize
    }

    // Where the yards' cabinet masks begin.
    pub fn yards_start(self) -> usize
        ensures { result ≡ yards_body (sizes_of self) }
    {
        self.slot_address(self.slots)
    }
}

// ---- numbers

// The 64-bit number with these words.
// Stays: std has no conversion between a 64-bit number and two words; this and the two below say it in the model's words.
pub fn whole(low: u32, high: u32) -> u64
    ensures { result ≡ whole_of low high }
{
    (low as u64) + WORD_LIMIT * (high as u64)
}

// The 64-bit number whose low word stands at i.
pub fn code_at(m: &[u32], i: usize) -> u64
    requires { i + 1 < length m.now }
    ensures { result ≡ wide m.now i }
{
    whole(m[i], m[i + 1])
}

// The low word of a 64-bit number.
pub fn low(x: u64) -> u32
    ensures { result ≡ low_word x }
{
    (x % WORD_LIMIT) as u32
}

// The high word of a 64-bit number.
pub fn high(x: u64) -> u32
    ensures { result ≡ high_word x }
{
    (x / WORD_LIMIT) as u32
}
