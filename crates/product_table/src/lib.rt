// The functions for C, as include/product_table.h declares them; the crate `product_table_c` exports them.
// Stays: a function for each call, numbers apart from one another and a number for the status, as the C interface has them.
#![tactic(auto)]

ghost use Rattle.std.specs.Prelude.{◌≡◌};
ghost use Rattle.model.specs.Rules.{add, replace, delete, begin, end, start, step, pass, clock, on, off, hand_back, awaited};
ghost use Rattle.model.specs.Calls.{set_up, on_state, sized};
ghost use Rattle.access.specs.Contract.{five};
ghost use Rattle.calls.specs.CallOf.{call_of};
ghost use Rattle.product_table.specs.Called.{answer_words, Called, LabelRead, LabelWritten};

use calls::{Call, Op};
use words::NamedSizes;
use words::product::Product;

// How many words an answer has.
const ANSWER_LENGTH: usize = 5;

// The status of a call that was lent fewer.
const SHORT_ANSWER: u32 = 4294967295;

// Writes the five words of an answer, and answers its status.
fn write_answer(room: &mut [u32; ANSWER_LENGTH], r: access::Answer) -> u32
    ensures room { room.new ≡ answer_words (five r) }
    ensures status { result ≡ r.status }
{
    *room = r.into();
    r.status
}

// Any call: with fewer than five words for the answer nothing is done.
fn answer_call(memory: &mut [u32], answer: &mut [u32], k: Call) -> u32
    ensures { Called (call_of k) memory.old answer.old memory.new answer.new result }
{
    let Some(room) = answer.first_chunk_mut() else {
        return SHORT_ANSWER;
    };
    let r = table::make_call(memory, k);
    write_answer(room, r)
}

// An empty table in lent memory.
pub fn pt_setup(
    memory: &mut [u32],
    answer: &mut [u32],
    yards: u32,
    cabinets: u32,
    lanes: u32,
    slots: u32,
) -> u32
    ensures { Called (set_up (sized yards cabinets lanes slots)) memory.old answer.old memory.new answer.new result }
{
    let sizes = NamedSizes {
        yards,
        cabinets,
        places: lanes,
        slots,
    };
    answer_call(memory, answer, Call::SetUp(sizes))
}

// Enters a record for a code that has none.
pub fn pt_add(
    memory: &mut [u32],
    answer: &mut [u32],
    lane: u32,
    code: u64,
    deposit: u32,
    material: u32,
) -> u32
    ensures { Called (on_state (add lane code deposit material)) memory.old answer.old memory.new answer.new result }
{
    let product = Product {
        code,
        deposit,
        material,
    };
    answer_call(memory, answer, Call::OnState(Op::Add(lane, product)))
}

// A new record in the place of a code's old one.
pub fn pt_replace(
    memory: &mut [u32],
    answer: &mut [u32],
    lane: u32,
    code: u64,
    deposit: u32,
    material: u32,
) -> u32
    ensures { Called (on_state (replace lane code deposit material)) memory.old answer.old memory.new answer.new result }
{
    let product = Product {
        code,
        deposit,
        material,
    };
    answer_call(memory, answer, Call::OnState(Op::Replace(lane, product)))
}

// Removes the record of a code.
pub fn pt_delete(memory: &mut [u32], answer: &mut [u32], lane: u32, code: u64) -> u32
    ensures { Called (on_state (delete lane code)) memory.old answer.old memory.new answer.new result }
{
    answer_call(memory, answer, Call::OnState(Op::Delete(lane, code)))
}

// Begins a read-side section.
pub fn pt_begin(memory: &mut [u32], answer: &mut [u32], lane: u32) -> u32
    ensures { Called (on_state (begin lane)) memory.old answer.old memory.new answer.new result }
{
    answer_call(memory, answer, Call::OnState(Op::Begin(lane)))
}

// Ends the lane's read-side section.
pub fn pt_end(memory: &mut [u32], answer: &mut [u32], lane: u32) -> u32
    ensures { Called (on_state (end lane)) memory.old answer.old memory.new answer.new result }
{
    answer_call(memory, answer, Call::OnState(Op::End(lane)))
}

// Starts a lookup.
pub fn pt_start(memory: &mut [u32], answer: &mut [u32], lane: u32, code: u64) -> u32
    ensures { Called (on_state (start lane code)) memory.old answer.old memory.new answer.new result }
{
    answer_call(memory, answer, Call::OnState(Op::Start(lane, code)))
}

// One step of the lane's lookup.
pub fn pt_step(memory: &mut [u32], answer: &mut [u32], lane: u32) -> u32
    ensures { Called (on_state (step lane)) memory.old answer.old memory.new answer.new result }
{
    answer_call(memory, answer, Call::OnState(Op::Step(lane)))
}

// A quiescent state of the lane.
pub fn pt_pass(memory: &mut [u32], answer: &mut [u32], lane: u32, kind: u32) -> u32
    ensures { Called (on_state (pass lane kind)) memory.old answer.old memory.new answer.new result }
{
    answer_call(memory, answer, Call::OnState(Op::Pass(lane, kind)))
}

// Drives grace periods on from one lane.
pub fn pt_clock(memory: &mut [u32], answer: &mut [u32], lane: u32) -> u32
    ensures { Called (on_state (clock lane)) memory.old answer.old memory.new answer.new result }
{
    answer_call(memory, answer, Call::OnState(Op::Clock(lane)))
}

// Puts a lane online.
pub fn pt_on(memory: &mut [u32], answer: &mut [u32], lane: u32) -> u32
    ensures { Called (on_state (on lane)) memory.old answer.old memory.new answer.new result }
{
    answer_call(memory, answer, Call::OnState(Op::On(lane)))
}

// Puts a lane offline.
pub fn pt_off(memory: &mut [u32], answer: &mut [u32], lane: u32) -> u32
    ensures { Called (on_state (off lane)) memory.old answer.old memory.new answer.new result }
{
    answer_call(memory, answer, Call::OnState(Op::Off(lane)))
}

// Reclaims one retired slot.
pub fn pt_hand_back(memory: &mut [u32], answer: &mut [u32], lane: u32) -> u32
    ensures { Called (on_state (hand_back lane)) memory.old answer.old memory.new answer.new result }
{
    answer_call(memory, answer, Call::OnState(Op::HandBack(lane)))
}

// Counts the pending lanes, the free slots and the retired ones.
pub fn pt_awaited(memory: &mut [u32], answer: &mut [u32]) -> u32
    ensures { Called (on_state awaited) memory.old answer.old memory.new answer.new result }
{
    answer_call(memory, answer, Call::OnState(Op::Awaited))
}

// ---- labels: no memory, and no call of a list

// The code of a label.
pub fn pt_label_read(text: &[u8], answer: &mut [u32]) -> u32
    ensures { LabelRead text.now answer.old answer.new result }
{
    let Some(room) = answer.first_chunk_mut() else {
        return SHORT_ANSWER;
    };
    write_answer(room, labels::read(text).into())
}

// The shortest label of a code.
pub fn pt_label_write(text: &mut [u8], answer: &mut [u32], code: u64) -> u32
    ensures { LabelWritten code text.old answer.old text.new answer.new result }
{
    let Some(room) = answer.first_chunk_mut() else {
        return SHORT_ANSWER;
    };
    write_answer(room, labels::write(text, code).into())
}
