// A lane goes off (document 01, "Generations and passes"): it is marked off, its queues go to the global ones, it
// drops its snapshot and its bit, and the global queues advance.
ghost use Rattle.std.specs.Prelude.{◌≡◌};
ghost use Rattle.words.specs.Lent.{sizes_of};
ghost use Rattle.lanes.specs.Cabinet.{LaneLent};
ghost use Rattle.engine.specs.Off.{handed_words, off_words};

use crate::OwnerWords;

// The current queue of a lane, then its next, go to the end of the global next queue, and its done queue to the end of
// the global done queue. Its generation is at rest.
#[tactic(auto, unfolding(crate::specs::Off::handed_words))]
fn hand_over(m: &mut [u32], z: words::Sizes, lane: lanes::Place)
    requires { LaneLent m.old (sizes_of z) lane }
    ensures { m.new ≡ handed_words m.old (sizes_of z) lane.address }
{
    let all = OwnerWords::ALL;
    let own = OwnerWords::of_lane(lane);
    all.next().append_queue(m, z, own.current());
    all.next().append_queue(m, z, own.next());
    all.done().append_queue(m, z, own.done());
    m[own.generation] = 0;
}

// A lane goes off.
#[tactic(auto, unfolding(crate::specs::Off::off_words))]
pub fn off(m: &mut [u32], z: words::Sizes, lane: lanes::Place)
    requires { LaneLent m.old (sizes_of z) lane }
    ensures { m.new ≡ off_words m.old (sizes_of z) lane }
{
    lane.change(m, z, |r| r.offline());
    hand_over(m, z, lane);
    crate::period::release(m, z, lane);
    OwnerWords::ALL.advance(m, z);
}
