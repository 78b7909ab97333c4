// The calls of a reader on a legal memory: begin, end, start, step and pass, and on. Each answers four words, or the cause that
// refuses it, and leaves the memory as the model's rules say, a refused one every word of it. The lane is worked out before the call,
// and its address and the sizes are handed on.
// Stays: memory and lane are two parameters, and `Named` ties them; `access` `Lane` says why.
#![tactic(auto)]

ghost use Rattle.std.specs.Prelude.{◌≡◌, IfOk, OnOk};
ghost use Rattle.model.specs.Rules.{lane_of, refusal, begin as beginning, end as ending, on as goingOn, start as starting};
ghost use Rattle.model.specs.Rules.{step as stepping, pass as passing, outcome};
ghost use Rattle.model.specs.Memory.{state};
ghost use Rattle.model.specs.Calls.{on_state};
ghost use Rattle.chains.specs.Outcome.{outcome_of};
ghost use Rattle.lanes.specs.Kinds.{number_of};
ghost use Rattle.access.specs.Causes.{refusal_of, answer_of};
ghost use Rattle.access.specs.Contract.{Does};
ghost use Rattle.access.specs.Lanes.{Named, LaneIn};
ghost use Rattle.readers.specs.Lookups.{lookup_of, lookup_stored, Looking, Going, moved_on};

use access::Lane;
use access::causes::Cause;
use chains::Step;
use lanes::LaneRecord;
use lanes::kinds::Kind;
use words::flags::Flag;

// ---- begin

// The cause that refuses it.
#[tactic(auto, using(access::proofs::Refusals::refusals), unfolding(model::specs::Rules::causes, model::specs::Rules::first_cause))]
fn check_begin(m: &[u32], lane: Lane) -> Result<(), Cause>
    requires { Named m.now lane }
    ensures cause { refusal_of result ≡ refusal (state m.now) (beginning lane.number) }
    ensures lane { OnOk result (LaneIn m.now lane) }
{
    access::check_lane(m, lane)?;
    if lane.has(m, Flag::Reading) {
        return Err(Cause::InSection);
    }
    Ok(())
}

// Opens the section of a lane.
pub fn begin(m: &mut [u32], lane: Lane) -> Result<[u32; 4], Cause>
    requires { Named m.old lane }
    ensures { Does (on_state (beginning lane.number)) m.old (answer_of result) m.new }
{
    check_begin(m, lane)?;
    lane.put_flag(m, Flag::Reading, true);
    Ok([0; 4])
}

// ---- on

// The cause that refuses it.
#[tactic(auto, using(access::proofs::Refusals::refusals), unfolding(model::specs::Rules::causes, model::specs::Rules::first_cause))]
fn check_on(m: &[u32], lane: Lane) -> Result<(), Cause>
    requires { Named m.now lane }
    ensures cause { refusal_of result ≡ refusal (state m.now) (goingOn lane.number) }
    ensures lane { OnOk result (LaneIn m.now lane) }
{
    if lane.is_unknown() {
        return Err(Cause::NoLane);
    }
    if lane.has(m, Flag::Online) {
        return Err(Cause::AlreadyOnline);
    }
    Ok(())
}

// A lane goes on.
pub fn on(m: &mut [u32], lane: Lane) -> Result<[u32; 4], Cause>
    requires { Named m.old lane }
    ensures { Does (on_state (goingOn lane.number)) m.old (answer_of result) m.new }
{
    check_on(m, lane)?;
    lane.put_flag(m, Flag::Online, true);
    Ok([0; 4])
}

// ---- lookups

// A lookup that runs: its code, and the slot at which it stands.
#[derive(Clone, Copy)]
struct Lookup {
    code: u64,
    position: u32,
}

impl Lookup {
    // What the words hold where none runs.
    const REST: Lookup = Lookup {
        code: 0,
        position: words::NONE,
    };
}

// Writes a lane's lookup: whether one runs, its code and its position. All other words stay.
fn put_lookup(m: &mut [u32], lane: Lane, lookup: Option<Lookup>)
    requires { LaneIn m.old lane }
    ensures { m.new ≡ lookup_stored m.old lane.address (lookup_of lookup) }
{
    let a = lane.address;
    lane.put_flag(m, Flag::Lookup, lookup.is_some());
    let Lookup { code, position } = lookup.unwrap_or(Lookup::REST);
    m[a + words::LOOKUP_AT] = words::low(code);
    m[a + words::LOOKUP_AT + 1] = words::high(code);
    m[a + words::POSITION_AT] = position;
}

// ---- end

// The cause that refuses it.
#[tactic(auto, using(access::proofs::Refusals::refusals), unfolding(model::specs::Rules::causes, model::specs::Rules::first_cause))]
fn check_end(m: &[u32], lane: Lane) -> Result<(), Cause>
    requires { Named m.now lane }
    ensures cause { refusal_of result ≡ refusal (state m.now) (ending lane.number) }
    ensures lane { OnOk result (LaneIn m.now lane) }
{
    access::check_lane(m, lane)?;
    if !lane.has(m, Flag::Reading) {
        return Err(Cause::NoSection);
    }
    Ok(())
}

// Closes the section of a lane; a lookup unfinished is dropped.
pub fn end(m: &mut [u32], lane: Lane) -> Result<[u32; 4], Cause>
    requires { Named m.old lane }
    ensures { Does (on_state (ending lane.number)) m.old (answer_of result) m.new }
{
    check_end(m, lane)?;
    put_lookup(m, lane, None);
    lane.put_flag(m, Flag::Reading, false);
    Ok([0; 4])
}

// ---- start

// The cause that refuses it.
#[tactic(auto, using(access::proofs::Refusals::refusals), unfolding(model::specs::Rules::causes, model::specs::Rules::first_cause))]
fn check_start(m: &[u32], lane: Lane, code: u64) -> Result<(), Cause>
    requires { Named m.now lane }
    ensures cause { refusal_of result ≡ refusal (state m.now) (starting lane.number code) }
    ensures lane { OnOk result (LaneIn m.now lane) }
{
    access::check_lane(m, lane)?;
    if !lane.has(m, Flag::Reading) {
        return Err(Cause::NoSection);
    }
    if lane.has(m, Flag::Lookup) {
        return Err(Cause::InLookup);
    }
    if access::wrong_code(code) {
        return Err(Cause::OutOfRange);
    }
    Ok(())
}

// Starts a lane's lookup of a code.
pub fn start(m: &mut [u32], lane: Lane, code: u64) -> Result<[u32; 4], Cause>
    requires { Named m.old lane }
    ensures { Does (on_state (starting lane.number code)) m.old (answer_of result) m.new }
{
    check_start(m, lane, code)?;
    let position = access::chain_head(m, code);
    put_lookup(m, lane, Some(Lookup { code, position }));
    Ok([0; 4])
}

// ---- step

// The cause that refuses it.
#[tactic(auto, using(access::proofs::Refusals::refusals), unfolding(model::specs::Rules::causes, model::specs::Rules::first_cause))]
fn check_step(m: &[u32], lane: Lane) -> Result<(), Cause>
    requires { Named m.now lane }
    ensures cause { refusal_of result ≡ refusal (state m.now) (stepping lane.number) }
    ensures looking { OnOk result (Looking m.now lane) }
{
    access::check_lane(m, lane)?;
    if !lane.has(m, Flag::Lookup) {
        return Err(Cause::NoLookup);
    }
    Ok(())
}

// The outcome of the next step of a lane's lookup.
fn lane_outcome(m: &[u32], lane: Lane) -> Step
    requires { Looking m.now lane }
    ensures { outcome_of result ≡ outcome (state m.now).table (lane_of (state m.now) lane.number).lookup }
{
    let a = lane.address;
    let z = lane.sizes;
    let code = words::code_at(m, a + words::LOOKUP_AT);
    chains::step_outcome(m, z, code, m[a + words::POSITION_AT])
}

// The lookup of a lane goes on to the chain link of the slot at which it stands.
fn go_on(m: &mut [u32], lane: Lane)
    requires { Going m.old lane }
    ensures { m.new ≡ moved_on m.old lane }
{
    let at = lane.address + words::POSITION_AT;
    m[at] = chains::chain_link(m, lane.sizes, m[at]);
}

// Takes one step of a lane's lookup.
pub fn step(m: &mut [u32], lane: Lane) -> Result<[u32; 4], Cause>
    requires { Named m.old lane }
    ensures { Does (on_state (stepping lane.number)) m.old (answer_of result) m.new }
{
    check_step(m, lane)?;
    let s = lane_outcome(m, lane);
    match s {
        Step::Going => go_on(m, lane),
        _ => put_lookup(m, lane, None),
    }
    Ok(s.into())
}

// ---- pass

// The kind of this number, or the cause that refuses it.
#[tactic(auto, using(access::proofs::Refusals::refusals), unfolding(model::specs::Rules::causes, model::specs::Rules::first_cause))]
fn check_pass(m: &[u32], lane: Lane, kind: u32) -> Result<Kind, Cause>
    requires { Named m.now lane }
    ensures cause { refusal_of result ≡ refusal (state m.now) (passing lane.number kind) }
    ensures lane { OnOk result (LaneIn m.now lane) }
    ensures kind { IfOk result (λ k. number_of k ≡ kind) }
{
    access::check_lane(m, lane)?;
    if lane.has(m, Flag::Reading) {
        return Err(Cause::InSection);
    }
    Kind::try_from(kind).map_err(|_| Cause::OutOfRange)
}

// Counts a quiescent state of a lane: its cabinet's part of the words is handed on.
pub fn pass(m: &mut [u32], lane: Lane, kind: u32) -> Result<[u32; 4], Cause>
    requires { Named m.old lane }
    ensures { Does (on_state (passing lane.number kind)) m.old (answer_of result) m.new }
{
    let kind = check_pass(m, lane, kind)?;
    lane.place()
        .change(m, lane.sizes, |r: LaneRecord| r.passed(kind));
    Ok([0; 4])
}
