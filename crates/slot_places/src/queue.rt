// The queues, one at a time: a queue's slots by their links, and then its last and its length. A free slot
// and a retired one have tests of their own.
ghost use Rattle.std.specs.Prelude.{ℕ, ◌+◌, ◌*◌, ◌<◌, ◌≤◌, length};
ghost use Rattle.model.specs.Layout.{queue_width, lane_length};
ghost use Rattle.slot_places.specs.WalkSteps.{several};
ghost use Rattle.slot_places.specs.Walks.{links_of, queue_of, lane_of, Counted, Runs, Walks};

use crate::slots::Queued;
use distinct_codes::slots::Slots;

// the queues of a lane, and the global ones: next, current and done
pub const QUEUES: usize = 3;

// how many slots are left unmarked, and the last of a queue's, or none
// Stays: `last` is a word, none for no slot, since it is compared with the word of the queue's last.
#[derive(Clone, Copy)]
struct Walked {
    left: u32,
    last: u32,
}

// The slots of the queue whose first stands at at.
// Stays: slots, left and marks go together here and below: `chain` says why they are three.
fn walk_queue(
    slots: Slots,
    at: usize,
    queued: Queued,
    left: u32,
    marks: &mut [u8],
) -> Option<Walked>
    requires { Counted slots marks.old left × (at < length slots.memory.now) }
    ensures { Walks slots.entry (links_of slots.entry queued at) marks.old left result marks.new }
{
    let mut cur = slots.memory[at];
    let mut last = words::NONE;
    let mut rest = left;
    while cur < slots.count {
        let c = cur as usize;
        if marks[c] != 0 {
            return None;
        }
        if !queued.fits(slots, c) {
            return None;
        }
        marks[c] = crate::MET;
        rest = rest - 1;
        last = cur;
        cur = slots.word(c, words::QUEUE_LINK_AT);
    }
    if cur != words::NONE {
        return None;
    }
    Some(Walked { left: rest, last })
}

// The queue whose words stand at at: its slots, and that its last and its length are those given.
fn queue(slots: Slots, at: usize, queued: Queued, left: u32, marks: &mut [u8]) -> Option<u32>
    requires { Counted slots marks.old left × (at + queue_width ≤ length slots.memory.now) }
    ensures { Runs slots.entry (queue_of slots.entry queued at) marks.old result marks.new }
{
    let w = walk_queue(slots, at, queued, left, marks)?;
    if w.last != slots.memory[at + words::LAST_OFFSET] {
        return None;
    }
    if left - w.left != slots.memory[at + words::LENGTH_OFFSET] {
        return None;
    }
    Some(w.left)
}

// n queues, their words from first on.
// Stays: this loop and that over lanes are two: a closure for what is walked would take slots, left and marks into it, and is no shorter.
pub fn queues(
    slots: Slots,
    first: usize,
    n: usize,
    queued: Queued,
    left: u32,
    marks: &mut [u8],
) -> Option<u32>
    requires { Counted slots marks.old left × (first + queue_width * n ≤ length slots.memory.now) }
    ensures { Runs slots.entry (several (queue_of slots.entry queued) queue_width first n) marks.old result
        marks.new }
{
    let mut rest = left;
    for i in 0..n {
        rest = queue(slots, first + words::QUEUE_WIDTH * i, queued, rest, marks)?;
    }
    Some(rest)
}

// The queues of n lanes, the first lane's words at first.
pub fn lane_queues(slots: Slots, first: usize, n: usize, left: u32, marks: &mut [u8]) -> Option<u32>
    requires { Counted slots marks.old left × (first + lane_length * n ≤ length slots.memory.now) }
    ensures { Runs slots.entry (several (lane_of slots.entry) lane_length first n) marks.old result marks.new }
{
    let mut rest = left;
    for i in 0..n {
        let lane = first + words::LANE_LENGTH * i;
        rest = queues(
            slots,
            lane + words::QUEUES_AT,
            QUEUES,
            Queued::Retired,
            rest,
            marks,
        )?;
    }
    Some(rest)
}
