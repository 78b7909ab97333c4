// The common way in: one function from a call to its answer, for any memory and any numbers. A call other than
// set-up on a memory that is not legal is refused here, once for all calls.
#![tactic(auto)]

ghost use Rattle.model.specs.Calls.{on_state};
ghost use Rattle.representation.specs.Sound.{Sound};
ghost use Rattle.calls.specs.CallOf.{op_of, call_of};
ghost use Rattle.access.specs.Causes.{answer_of};
ghost use Rattle.access.specs.Contract.{Does};

use access::Lane;
use access::causes::Cause;
use calls::{Call, Op};

// A call on a legal memory: each has its own function, and one of a lane is handed the lane, worked out here.
fn perform(m: &mut [u32], k: Op) -> Result<[u32; 4], Cause>
    requires { Sound m.old }
    ensures { Does (on_state (op_of k)) m.old (answer_of result) m.new }
{
    match k {
        Op::Add(lane, product) => updates::add(m, Lane::at(m, lane), product),
        Op::Replace(lane, product) => updates::replace(m, Lane::at(m, lane), product),
        Op::Delete(lane, code) => updates::delete(m, Lane::at(m, lane), code),
        Op::Begin(lane) => readers::begin(m, Lane::at(m, lane)),
        Op::End(lane) => readers::end(m, Lane::at(m, lane)),
        Op::Start(lane, code) => readers::start(m, Lane::at(m, lane), code),
        Op::Step(lane) => readers::step(m, Lane::at(m, lane)),
        Op::Pass(lane, kind) => readers::pass(m, Lane::at(m, lane), kind),
        Op::Clock(lane) => periods::clock(m, Lane::at(m, lane)),
        Op::On(lane) => readers::on(m, Lane::at(m, lane)),
        Op::Off(lane) => periods::off(m, Lane::at(m, lane)),
        Op::HandBack(lane) => updates::hand_back(m, Lane::at(m, lane)),
        Op::Awaited => Ok(awaited::awaited(m)),
    }
}

// A call that reads the table: any memory that is not legal refuses it.
fn make_op(m: &mut [u32], k: Op) -> Result<[u32; 4], Cause>
    ensures { Does (on_state (op_of k)) m.old (answer_of result) m.new }
{
    if !legality::legal(m) {
        return Err(Cause::NotLegal);
    }
    perform(m, k)
}

// Any call on any memory: the answer and every word after it are the model's.
pub fn make_call(m: &mut [u32], k: Call) -> access::Answer
    ensures { Does (call_of k) m.old result m.new }
{
    let result = match k {
        Call::SetUp(sizes) => set_up::set_up(m, sizes),
        Call::OnState(op) => make_op(m, op),
    };
    result.into()
}
