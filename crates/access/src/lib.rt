// What every call starts from on a legal memory: the five words of its answer, a lane's record and flags, the causes of every
// call of a lane, and where the chains stand.
#![tactic(auto)]

pub mod causes;

ghost use Rattle.std.specs.Prelude.{◌≡◌, [], ◌∷◌, ◌+◌, ◌<◌, leb, OnOk};
ghost use Rattle.model.specs.State.{lane_count};
ghost use Rattle.model.specs.Layout.{heads_at};
ghost use Rattle.model.specs.Lists.{first};
ghost use Rattle.model.specs.Table.{chain_number, chain_of};
ghost use Rattle.model.specs.Rules.{first_cause, of_lane, lane_of, wrong_code};
ghost use Rattle.model.specs.Memory.{state};
ghost use Rattle.laws.specs.Subtractions.{subtracted};
ghost use Rattle.representation.specs.Sound.{Sound};
ghost use Rattle.words.specs.Lent.{sizes_of};
ghost use Rattle.words.specs.Flags.{bit_of};
ghost use Rattle.access.specs.Causes.{refusal_of, answer_of};
ghost use Rattle.access.specs.Flags.{has_flag, flag_put};
ghost use Rattle.access.specs.Lanes.{Named, LaneIn, Standing, most_subtractions, split_of, yard_size, Placed};

use causes::Cause;
use lanes::Place;
use words::flags::Flag;

// ---- answers

// The five words of an answer.
// Stays: the C interface has five words for each answer.
#[derive(Clone, Copy, Debug, PartialEq, Eq)]
pub struct Answer {
    pub status: u32,
    pub a: u32,
    pub b: u32,
    pub c: u32,
    pub d: u32,
}

// Status 0 and a call's four words, or the number of the cause that refuses it and four zeros.
impl From<Result<[u32; 4], Cause>> for Answer {
    ghost from_gives = { λ r x. x ≡ answer_of r };

    fn from(r: Result<[u32; 4], Cause>) -> Answer {
        match r {
            Ok(words) => {
                let [a, b, c, d] = words;
                Answer {
                    status: 0,
                    a,
                    b,
                    c,
                    d,
                }
            }
            Err(cause) => Answer {
                status: cause.into(),
                a: 0,
                b: 0,
                c: 0,
                d: 0,
            },
        }
    }
}

impl From<Answer> for [u32; 5] {
    ghost from_gives = { λ r w. w ≡ r.status ∷ r.a ∷ r.b ∷ r.c ∷ r.d ∷ [] };

    fn from(r: Answer) -> [u32; 5] {
        [r.status, r.a, r.b, r.c, r.d]
    }
}

// ---- lanes

// A lane by its number: where its record would begin, and the sizes of the table. Worked out once a call and handed on.
// Stays: that it is a lane of a memory (`Named`, `LaneIn`) is a premise and no ghost field: the memory is stored to word by word, and
// is legal again only at the end of a call. A struct that held it by `&mut` would owe more clauses (`words` `Sizes`).
#[derive(Clone, Copy)]
pub struct Lane {
    pub number: u32,
    pub address: usize,
    pub sizes: words::Sizes,
}

impl Lane {
    // The lane of a number; whether there is one is not tested.
    pub fn at(m: &[u32], number: u32) -> Lane
        requires { Sound m.now }
        ensures named { Named m.now result }
        ensures number { result.number ≡ number }
    {
        let sizes = words::NamedSizes::read(m).of_table();
        let address = sizes.lane_address(number);
        Lane {
            number,
            address,
            sizes,
        }
    }

    // Whether there is no such lane.
    pub fn is_unknown(self) -> bool
        ensures { result ≡ leb (lane_count (sizes_of self.sizes)) self.number }
    {
        self.number >= self.sizes.lane_count()
    }

    // Where a lane stands: its yard is as often as the yard's size can be subtracted from its number, its cabinet there as
    // often as the cabinet's size from what is left, and its place is what is left then. Worked out once a call, of a lane
    // that there is, and handed on.
    pub fn place(self) -> Place
        requires { Standing self }
        ensures { Placed self result }
    {
        let z = self.sizes;
        let y = subtract_size(self.number, yard_size(z));
        let b = subtract_size(y.left, z.places);
        Place::new(z, y.times, b.times, b.left)
    }

    // Whether it has this flag.
    pub fn has(self, m: &[u32], of: Flag) -> bool
        requires { LaneIn m.now self }
        ensures { result ≡ has_flag of (lane_of (state m.now) self.number) }
    {
        of.is_set(m[self.address])
    }

    // A flag of its becomes `on`. All other words stay.
    pub fn put_flag(self, m: &mut [u32], of: Flag, on: bool)
        requires { LaneIn m.old self }
        ensures { m.new ≡ flag_put m.old self.address (bit_of of) on }
    {
        let flags = m[self.address];
        m[self.address] = if on { of.set(flags) } else { of.clear(flags) };
    }
}

// ---- where a lane stands

// How often a size was subtracted from a number, and what is left.
#[derive(Clone, Copy)]
struct Split {
    times: u32,
    left: u32,
}

const MOST_SUBTRACTIONS: u32 = 7;

// Subtracts a size from a number until what is left is below it, at most seven times.
// Stays: a size at a time, since no dividing instruction may come into the library.
fn subtract_size(number: u32, size: u32) -> Split
    ensures { split_of result ≡ subtracted most_subtractions size number }
{
    let mut left = number;
    for times in 0..MOST_SUBTRACTIONS {
        if left < size {
            return Split { times, left };
        }
        left -= size;
    }
    Split {
        times: MOST_SUBTRACTIONS,
        left,
    }
}

// The lanes of a yard.
fn yard_size(z: words::Sizes) -> u32
    ensures { result ≡ yard_size (sizes_of z) }
{
    z.cabinets * z.places
}

// ---- causes

// Whether a code is out of range.
pub fn wrong_code(code: u64) -> bool
    ensures { result ≡ wrong_code code }
{
    code > words::MAX_CODE
}

// The causes of every call of a lane that has to be on.
#[tactic(auto, using(crate::proofs::Refusals::refusals), unfolding(model::specs::Rules::first_cause))]
pub fn check_lane(m: &[u32], lane: Lane) -> Result<(), Cause>
    requires { Named m.now lane }
    ensures cause { refusal_of result ≡ first_cause (of_lane (state m.now) lane.number []) }
    ensures lane { OnOk result (LaneIn m.now lane) }
{
    if lane.is_unknown() {
        return Err(Cause::NoLane);
    }
    if !lane.has(m, Flag::Online) {
        return Err(Cause::Offline);
    }
    Ok(())
}

// ---- chains

// How many chains there are, as codes are counted.
const CHAINS: u64 = words::CHAIN_COUNT as u64;

// Where the head of a code's chain stands.
pub fn head_address(code: u64) -> usize
    ensures { result ≡ heads_at + chain_number code }
{
    words::HEADS_AT + (code % CHAINS) as usize
}

// The first slot of a code's chain, none where it has none.
pub fn chain_head(m: &[u32], code: u64) -> u32
    requires { Sound m.now }
    ensures { result ≡ first (chain_of (state m.now).table code) }
{
    let a = head_address(code);
    m[a]
}
