// Quiescent counts against snapshots, and the clock of a lane (document 01, "Generations and passes").
ghost use Rattle.std.specs.Prelude.{◌≡◌};
ghost use Rattle.words.specs.Lent.{sizes_of};
ghost use Rattle.lanes.specs.Cabinet.{LaneLent};
ghost use Rattle.engine.specs.Clock.{compared_words, unsampled_in, sample_words, clock_words};

use crate::OwnerWords;

// If the lane went through a quiescent state since its snapshot, it is released.
#[tactic(auto, unfolding(crate::specs::Clock::compared_words))]
fn compare(m: &mut [u32], z: words::Sizes, lane: lanes::Place)
    requires { LaneLent m.old (sizes_of z) lane }
    ensures { m.new ≡ compared_words m.old (sizes_of z) lane }
{
    if lane.record(m, z).moved_on() {
        crate::period::release(m, z, lane);
    }
}

// Whether the lane's bit is set and it holds no snapshot.
fn is_unsampled(m: &[u32], z: words::Sizes, lane: lanes::Place) -> bool
    requires { LaneLent m.now (sizes_of z) lane }
    ensures { result ≡ unsampled_in m.now lane }
{
    let pending = crate::period::is_pending(m, z, lane);
    let held = lane.record(m, z).is_holding();
    pending & !held
}

// If the lane's bit is set and it holds no snapshot, its counts are copied.
#[tactic(auto, unfolding(crate::specs::Clock::sample_words))]
fn sample(m: &mut [u32], z: words::Sizes, lane: lanes::Place)
    requires { LaneLent m.old (sizes_of z) lane }
    ensures { m.new ≡ sample_words m.old lane }
{
    if is_unsampled(m, z, lane) {
        lane.change(m, z, |r| r.sampled());
    }
}

// The clock of a lane: compare, advance the lane, advance the global queues, copy.
#[tactic(auto, unfolding(crate::specs::Clock::clock_words))]
pub fn clock(m: &mut [u32], z: words::Sizes, lane: lanes::Place)
    requires { LaneLent m.old (sizes_of z) lane }
    ensures { m.new ≡ clock_words m.old (sizes_of z) lane }
{
    compare(m, z, lane);
    OwnerWords::of_lane(lane).advance(m, z);
    OwnerWords::ALL.advance(m, z);
    sample(m, z, lane);
}
