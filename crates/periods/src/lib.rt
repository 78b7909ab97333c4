// The calls that drive grace periods, on a legal memory: clock and off.
// Stays: memory and lane are two parameters, and `Named` ties them; `access` `Lane` says why.
#![tactic(auto)]

ghost use Rattle.std.specs.Prelude.{◌≡◌, ◌+◌, ◌<◌, ◌≤◌, OnOk, length, get_or};
ghost use Rattle.model.specs.Lists.{any};
ghost use Rattle.model.specs.State.{lane_count};
ghost use Rattle.model.specs.Engine.{fresh_lane};
ghost use Rattle.model.specs.Rules.{is_online, refusal, off as goingOff, clock as clocking};
ghost use Rattle.model.specs.Layout.{yard_mask_at, masks_at, lane_length};
ghost use Rattle.model.specs.Memory.{sizes, state};
ghost use Rattle.model.specs.Calls.{on_state};
ghost use Rattle.access.specs.Causes.{refusal_of, answer_of};
ghost use Rattle.access.specs.Contract.{Does};
ghost use Rattle.access.specs.Lanes.{Named, LaneIn};
ghost use Rattle.periods.specs.Others.{others};
ghost use Rattle.periods.specs.Ticks.{runs_in, done_words};

use access::Lane;
use access::causes::Cause;
use words::flags::Flag;

// ---- off

// Whether lane i is on, and is not `lane`.
fn is_other_online(m: &[u32], lane: Lane, i: u32) -> bool
    requires { (LaneIn m.now lane) × (i < lane_count (sizes m.now)) }
    ensures { result ≡ is_online (get_or (others (state m.now) lane.number) i fresh_lane) }
{
    if i == lane.number {
        return false;
    }
    Lane::at(m, i).has(m, Flag::Online)
}

// Whether a lane other than `lane` is on.
fn another_online(m: &[u32], lane: Lane) -> bool
    requires { LaneIn m.now lane }
    ensures { result ≡ any is_online (others (state m.now) lane.number) }
{
    (0..lane.sizes.lane_count()).any(|i| is_other_online(m, lane, i))
}

// The cause that refuses it.
#[tactic(auto, using(access::proofs::Refusals::refusals), unfolding(model::specs::Rules::causes, model::specs::Rules::first_cause))]
fn check_off(m: &[u32], lane: Lane) -> Result<(), Cause>
    requires { Named m.now lane }
    ensures cause { refusal_of result ≡ refusal (state m.now) (goingOff lane.number) }
    ensures lane { OnOk result (LaneIn m.now lane) }
{
    access::check_lane(m, lane)?;
    if lane.has(m, Flag::Reading) {
        return Err(Cause::InSection);
    }
    if !another_online(m, lane) {
        return Err(Cause::LastLane);
    }
    Ok(())
}

// A lane goes off.
pub fn off(m: &mut [u32], lane: Lane) -> Result<[u32; 4], Cause>
    requires { Named m.old lane }
    ensures { Does (on_state (goingOff lane.number)) m.old (answer_of result) m.new }
{
    check_off(m, lane)?;
    engine::off::off(m, lane.sizes, lane.place());
    Ok([0; 4])
}

// ---- clock

// Whether a grace period runs.
fn is_period(m: &[u32]) -> bool
    requires { yard_mask_at < length m.now }
    ensures { result ≡ runs_in m.now }
{
    m[words::YARD_MASK_AT] != 0
}

// where the length of the done queue stands: in a lane's record, and of the global one
const DONE_LENGTH: usize = words::QUEUES_AT + words::DONE_OFFSET + words::LENGTH_OFFSET;

const GLOBAL_DONE_LENGTH: usize = words::GLOBAL_QUEUES_AT
    + words::DONE_OFFSET
    + words::LENGTH_OFFSET;

// How many slots stand in the done queue of the lane whose record begins at `at`, and in the global one.
fn done_length(m: &[u32], at: usize) -> u32
    requires { (at + lane_length ≤ length m.now) × (masks_at ≤ length m.now) }
    ensures { result ≡ done_words m.now at }
{
    m[at + DONE_LENGTH].wrapping_add(m[GLOBAL_DONE_LENGTH])
}

// The clock of a lane: grace periods are driven on. Its answer says how many slots it moved into done queues.
pub fn clock(m: &mut [u32], lane: Lane) -> Result<[u32; 4], Cause>
    requires { Named m.old lane }
    ensures { Does (on_state (clocking lane.number)) m.old (answer_of result) m.new }
{
    access::check_lane(m, lane)?;
    let at = lane.address;
    let before = done_length(m, at);
    engine::clock::clock(m, lane.sizes, lane.place());
    let moved = done_length(m, at).wrapping_sub(before);
    let current = m[words::CURRENT_GENERATION_AT];
    let largest = m[words::LARGEST_GENERATION_AT];
    Ok([current, largest, u32::from(is_period(m)), moved])
}
