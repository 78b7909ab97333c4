// The calls as the code hands them on, in the model's shape: set-up, or a call on a table's state.
#![tactic(auto)]

use words::NamedSizes;
use words::product::Product;

// A call on a state. The first number is the lane.
// Stays: lane, code and kind are numbers as the C interface takes them, in range or not; each call tests its own.
#[derive(Clone, Copy)]
pub enum Op {
    // lane, what is entered
    Add(u32, Product),
    Replace(u32, Product),
    // lane, code
    Delete(u32, u64),
    Begin(u32),
    End(u32),
    // lane, code
    Start(u32, u64),
    Step(u32),
    // lane, kind
    Pass(u32, u32),
    Clock(u32),
    On(u32),
    Off(u32),
    HandBack(u32),
    Awaited,
}

#[derive(Clone, Copy)]
pub enum Call {
    SetUp(NamedSizes),
    OnState(Op),
}
