// The grace-period engine over the lent words: grace periods, the release of a lane, the advance of an owner's queues,
// the clock of a lane, and a lane that goes off. A lane is handed on by its place, an owner by where its words stand; each contract
// says what a function leaves of the memory, word by word. The laws of proofs/ say which change of the state that is.
// Stays: memory and sizes are two parameters beside a lane or an owner, and `LaneLent` and `OwnerLent` tie them; `words` `Sizes`
// says why.
#![tactic(auto)]

ghost use Rattle.std.specs.Prelude.{◌≡◌, ◌+◌, ◌<◌, ◌^◌};
ghost use Rattle.model.specs.Layout.{queues_at, current_offset, done_offset};
ghost use Rattle.engine.specs.Advance.{of_lane};

pub mod advance;
pub mod clock;
pub mod off;
pub mod period;

use queues::QueueAt;

// Where the words of an owner stand, a lane or all lanes together: the ends of its three queues, and the generation of
// the current one.
#[derive(Clone, Copy, Debug, PartialEq, Eq)]
pub struct OwnerWords {
    pub ends: usize,
    pub generation: usize,
}

impl OwnerWords {
    // All lanes together.
    pub const ALL: OwnerWords = OwnerWords {
        ends: words::GLOBAL_QUEUES_AT,
        generation: words::GLOBAL_GENERATION_AT,
    };

    // A lane.
    pub fn of_lane(lane: lanes::Place) -> OwnerWords
        requires { lane.address + queues_at < 2 ^ 64 }
        ensures { result ≡ of_lane lane }
    {
        OwnerWords {
            ends: lane.address + words::QUEUES_AT,
            generation: lane.address + words::GENERATION_AT,
        }
    }

    // Its next queue.
    fn next(self) -> QueueAt
        ensures { result.ends ≡ self.ends }
    {
        QueueAt { ends: self.ends }
    }

    // Its current queue.
    fn current(self) -> QueueAt
        requires { self.ends + current_offset < 2 ^ 64 }
        ensures { result.ends ≡ self.ends + current_offset }
    {
        QueueAt {
            ends: self.ends + words::CURRENT_OFFSET,
        }
    }

    // Its done queue.
    fn done(self) -> QueueAt
        requires { self.ends + done_offset < 2 ^ 64 }
        ensures { result.ends ≡ self.ends + done_offset }
    {
        QueueAt {
            ends: self.ends + words::DONE_OFFSET,
        }
    }
}
