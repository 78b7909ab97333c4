// The functions for C, as include/product_table.h declares them: each is the one of that name of the crate `product_table`, and
// says what that one says. A slice is a pointer and a length.
// Stays: a function for each call, as the C interface has them.
#![tactic(auto)]

ghost use Rattle.model.specs.Rules.{add, replace, delete, begin, end, start, step, pass, clock, on, off, hand_back, awaited};
ghost use Rattle.model.specs.Calls.{set_up, on_state, sized};
ghost use Rattle.product_table.specs.Called.{Called, LabelRead, LabelWritten};

// An empty table in lent memory.
#[unsafe(no_mangle)]
pub extern "C" fn pt_setup(
    memory: &mut [u32],
    answer: &mut [u32],
    yards: u32,
    cabinets: u32,
    lanes: u32,
    slots: u32,
) -> u32
    ensures { Called (set_up (sized yards cabinets lanes slots)) memory.old answer.old memory.new answer.new result }
{
    product_table::pt_setup(memory, answer, yards, cabinets, lanes, slots)
}

// Enters a record for a code that has none.
#[unsafe(no_mangle)]
pub extern "C" fn pt_add(
    memory: &mut [u32],
    answer: &mut [u32],
    lane: u32,
    code: u64,
    deposit: u32,
    material: u32,
) -> u32
    ensures { Called (on_state (add lane code deposit material)) memory.old answer.old memory.new answer.new result }
{
    product_table::pt_add(memory, answer, lane, code, deposit, material)
}

// A new record in the place of a code's old one.
#[unsafe(no_mangle)]
pub extern "C" fn pt_replace(
    memory: &mut [u32],
    answer: &mut [u32],
    lane: u32,
    code: u64,
    deposit: u32,
    material: u32,
) -> u32
    ensures { Called (on_state (replace lane code deposit material)) memory.old answer.old memory.new answer.new result }
{
    product_table::pt_replace(memory, answer, lane, code, deposit, material)
}

// Removes the record of a code.
#[unsafe(no_mangle)]
pub extern "C" fn pt_delete(memory: &mut [u32], answer: &mut [u32], lane: u32, code: u64) -> u32
    ensures { Called (on_state (delete lane code)) memory.old answer.old memory.new answer.new result }
{
    product_table::pt_delete(memory, answer, lane, code)
}

// Begins a read-side section.
#[unsafe(no_mangle)]
pub extern "C" fn pt_begin(memory: &mut [u32], answer: &mut [u32], lane: u32) -> u32
    ensures { Called (on_state (begin lane)) memory.old answer.old memory.new answer.new result }
{
    product_table::pt_begin(memory, answer, lane)
}

// Ends the lane's read-side section.
#[unsafe(no_mangle)]
pub extern "C" fn pt_end(memory: &mut [u32], answer: &mut [u32], lane: u32) -> u32
    ensures { Called (on_state (end lane)) memory.old answer.old memory.new answer.new result }
{
    product_table::pt_end(memory, answer, lane)
}

// Starts a lookup.
#[unsafe(no_mangle)]
pub extern "C" fn pt_start(memory: &mut [u32], answer: &mut [u32], lane: u32, code: u64) -> u32
    ensures { Called (on_state (start lane code)) memory.old answer.old memory.new answer.new result }
{
    product_table::pt_start(memory, answer, lane, code)
}

// One step of the lane's lookup.
#[unsafe(no_mangle)]
pub extern "C" fn pt_step(memory: &mut [u32], answer: &mut [u32], lane: u32) -> u32
    ensures { Called (on_state (step lane)) memory.old answer.old memory.new answer.new result }
{
    product_table::pt_step(memory, answer, lane)
}

// A quiescent state of the lane.
#[unsafe(no_mangle)]
pub extern "C" fn pt_pass(memory: &mut [u32], answer: &mut [u32], lane: u32, kind: u32) -> u32
    ensures { Called (on_state (pass lane kind)) memory.old answer.old memory.new answer.new result }
{
    product_table::pt_pass(memory, answer, lane, kind)
}

// Drives grace periods on from one lane.
#[unsafe(no_mangle)]
pub extern "C" fn pt_clock(memory: &mut [u32], answer: &mut [u32], lane: u32) -> u32
    ensures { Called (on_state (clock lane)) memory.old answer.old memory.new answer.new result }
{
    product_table::pt_clock(memory, answer, lane)
}

// Puts a lane online.
#[unsafe(no_mangle)]
pub extern "C" fn pt_on(memory: &mut [u32], answer: &mut [u32], lane: u32) -> u32
    ensures { Called (on_state (on lane)) memory.old answer.old memory.new answer.new result }
{
    product_table::pt_on(memory, answer, lane)
}

// Puts a lane offline.
#[unsafe(no_mangle)]
pub extern "C" fn pt_off(memory: &mut [u32], answer: &mut [u32], lane: u32) -> u32
    ensures { Called (on_state (off lane)) memory.old answer.old memory.new answer.new result }
{
    product_table::pt_off(memory, answer, lane)
}

// Reclaims one retired slot.
#[unsafe(no_mangle)]
pub extern "C" fn pt_hand_back(memory: &mut [u32], answer: &mut [u32], lane: u32) -> u32
    ensures { Called (on_state (hand_back lane)) memory.old answer.old memory.new answer.new result }
{
    product_table::pt_hand_back(memory, answer, lane)
}

// Counts the pending lanes, the free slots and the retired ones.
#[unsafe(no_mangle)]
pub extern "C" fn pt_awaited(memory: &mut [u32], answer: &mut [u32]) -> u32
    ensures { Called (on_state awaited) memory.old answer.old memory.new answer.new result }
{
    product_table::pt_awaited(memory, answer)
}

// The code of a label.
#[unsafe(no_mangle)]
pub extern "C" fn pt_label_read(text: &[u8], answer: &mut [u32]) -> u32
    ensures { LabelRead text.now answer.old answer.new result }
{
    product_table::pt_label_read(text, answer)
}

// The shortest label of a code.
#[unsafe(no_mangle)]
pub extern "C" fn pt_label_write(text: &mut [u8], answer: &mut [u32], code: u64) -> u32
    ensures { LabelWritten code text.old answer.old text.new answer.new result }
{
    product_table::pt_label_write(text, answer, code)
}
