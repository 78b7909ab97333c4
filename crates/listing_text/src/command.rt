// The commands of a listing: their names, and the calls of their arguments.
ghost use Rattle.std.specs.Prelude.{◌≡◌, ◌<◌, ◌^◌, SomeIff, [], ◌∷◌};
ghost use Rattle.std.specs.List.{find};
ghost use Rattle.std.specs.Str.{bytes_eq};
ghost use Rattle.model.specs.Calls.{on_state};
ghost use Rattle.calls.specs.CallOf.{op_of};
ghost use Rattle.listing_text.specs.Call.{call, word, set_up_of, taken, asked};
ghost use Rattle.listing_text.specs.Machine.{name_of, named, entry};
ghost use Rattle.listing_text.specs.Arguments.{parsed_of, TakesLane, TakesCode, TakesKind, TakesProduct, TakesSizes};

use calls::{Call, Op};
use words::NamedSizes;
use words::product::Product;

// The yards of a listing's table.
const ONE_YARD: u32 = 1;

#[derive(Clone, Copy, Debug, PartialEq, Eq)]
pub enum Command {
    SetUp,
    Add,
    Replace,
    Delete,
    Begin,
    End,
    Start,
    Step,
    Pass,
    Clock,
    On,
    Off,
    HandBack,
    Awaited,
}

// An argument of 32 bits.
fn word(argument: u64) -> Option<u32>
    ensures { SomeIff result (argument < 2 ^ 32) argument }
{
    u32::try_from(argument).ok()
}

// A lane alone.
fn lane(arguments: &[u64]) -> Option<u32>
    ensures { TakesLane arguments.now result }
{
    match arguments {
        [lane] => word(*lane),
        _ => None,
    }
}

// A lane and a code.
#[tactic(auto, using(crate::proofs::TakenLaws::other_count, crate::proofs::TakenLaws::too_wide, crate::proofs::TakenLaws::two_taken), unfolding(crate::specs::Call::taken))]
fn lane_and_code(arguments: &[u64]) -> Option<(u32, u64)>
    ensures { TakesCode arguments.now result }
{
    match arguments {
        [lane, code] => Some((word(*lane)?, *code)),
        _ => None,
    }
}

// A lane and what a pass of it is to be.
// Stays: two widths, two functions: one would take a width and hand back 64 bits, to be cut again.
#[tactic(auto, using(crate::proofs::TakenLaws::other_count, crate::proofs::TakenLaws::too_wide, crate::proofs::TakenLaws::two_taken), unfolding(crate::specs::Call::taken))]
fn lane_and_kind(arguments: &[u64]) -> Option<(u32, u32)>
    ensures { TakesKind arguments.now result }
{
    match arguments {
        [lane, kind] => Some((word(*lane)?, word(*kind)?)),
        _ => None,
    }
}

// A lane and what is entered.
#[tactic(auto, using(crate::proofs::TakenLaws::other_count, crate::proofs::TakenLaws::too_wide, crate::proofs::TakenLaws::four_taken), unfolding(crate::specs::Call::taken))]
fn lane_and_product(arguments: &[u64]) -> Option<(u32, Product)>
    ensures { TakesProduct arguments.now result }
{
    match arguments {
        [lane, code, deposit, material] => {
            let lane = word(*lane)?;
            let product = Product {
                code: *code,
                deposit: word(*deposit)?,
                material: word(*material)?,
            };
            Some((lane, product))
        }
        _ => None,
    }
}

// Four sizes.
#[tactic(auto, using(crate::proofs::TakenLaws::other_count, crate::proofs::TakenLaws::too_wide, crate::proofs::TakenLaws::four_taken), unfolding(crate::specs::Call::taken))]
fn sizes(arguments: &[u64]) -> Option<NamedSizes>
    ensures { TakesSizes arguments.now result }
{
    match arguments {
        [yards, cabinets, places, slots] => Some(NamedSizes {
            yards: word(*yards)?,
            cabinets: word(*cabinets)?,
            places: word(*places)?,
            slots: word(*slots)?,
        }),
        _ => None,
    }
}

// What `setup` asks for: a listing has one yard.
fn set_up_of(sizes: NamedSizes) -> Option<Call>
    ensures { parsed_of result ≡ set_up_of sizes.yards sizes.cabinets sizes.places sizes.slots }
{
    if sizes.yards == ONE_YARD {
        Some(Call::SetUp(sizes))
    } else {
        None
    }
}

// The set-up of the sizes that the arguments are.
fn set_up(arguments: &[u64]) -> Option<Call>
    ensures { parsed_of result ≡ taken (word ∷ word ∷ word ∷ word ∷ []) set_up_of arguments.now }
{
    let sizes = sizes(arguments)?;
    set_up_of(sizes)
}

// The call of a command that takes no argument.
fn alone(arguments: &[u64], op: Op) -> Option<Call>
    ensures { parsed_of result ≡ taken [] (call (on_state (op_of op))) arguments.now }
{
    if arguments.is_empty() {
        Some(Call::OnState(op))
    } else {
        None
    }
}

impl Command {
    // The command of a name.
    pub(crate) fn named(name: &[u8]) -> Option<Command>
        ensures { result ≡ named name.now }
    {
        match name {
            b"setup" => Some(Command::SetUp),
            b"add" => Some(Command::Add),
            b"rep" => Some(Command::Replace),
            b"del" => Some(Command::Delete),
            b"begin" => Some(Command::Begin),
            b"end" => Some(Command::End),
            b"start" => Some(Command::Start),
            b"step" => Some(Command::Step),
            b"pass" => Some(Command::Pass),
            b"clock" => Some(Command::Clock),
            b"on" => Some(Command::On),
            b"off" => Some(Command::Off),
            b"back" => Some(Command::HandBack),
            b"awaited" => Some(Command::Awaited),
            _ => None,
        }
    }

    // The call that the command asks for with its arguments.
    pub(crate) fn call(self, arguments: &[u64]) -> Option<Call>
        ensures { parsed_of result ≡ asked (entry self) arguments.now }
    {
        match self {
            Command::SetUp => set_up(arguments),
            Command::Add => {
                let (lane, product) = lane_and_product(arguments)?;
                Some(Call::OnState(Op::Add(lane, product)))
            }
            Command::Replace => {
                let (lane, product) = lane_and_product(arguments)?;
                Some(Call::OnState(Op::Replace(lane, product)))
            }
            Command::Delete => {
                let (lane, code) = lane_and_code(arguments)?;
                Some(Call::OnState(Op::Delete(lane, code)))
            }
            Command::Begin => Some(Call::OnState(Op::Begin(lane(arguments)?))),
            Command::End => Some(Call::OnState(Op::End(lane(arguments)?))),
            Command::Start => {
                let (lane, code) = lane_and_code(arguments)?;
                Some(Call::OnState(Op::Start(lane, code)))
            }
            Command::Step => Some(Call::OnState(Op::Step(lane(arguments)?))),
            Command::Pass => {
                let (lane, kind) = lane_and_kind(arguments)?;
                Some(Call::OnState(Op::Pass(lane, kind)))
            }
            Command::Clock => Some(Call::OnState(Op::Clock(lane(arguments)?))),
            Command::On => Some(Call::OnState(Op::On(lane(arguments)?))),
            Command::Off => Some(Call::OnState(Op::Off(lane(arguments)?))),
            Command::HandBack => Some(Call::OnState(Op::HandBack(lane(arguments)?))),
            Command::Awaited => alone(arguments, Op::Awaited),
        }
    }
}
