// Grace periods: begin, end, the request for one, and the release of a lane (document 01, "Generations and passes").
ghost use Rattle.std.specs.Prelude.{◌≡◌, ◌<◌, length};
ghost use Rattle.model.specs.State.{cabinet_count};
ghost use Rattle.model.specs.Layout.{largest_generation_at};
ghost use Rattle.words.specs.Lent.{sizes_of, Lent};
ghost use Rattle.lanes.specs.Cabinet.{LaneLent};
ghost use Rattle.engine.specs.Period.{masks_set, started_words, ended_words, raised_words, requested_words};
ghost use Rattle.engine.specs.Release.{over_words, pending_in, cleared_words, passed_words, released_words};

use mask_tree::Level;

// The period waits for the lanes that are on: each cabinet's lane mask is theirs.
#[tactic(auto, unfolding(crate::specs::Period::masks_set))]
fn await_lanes(m: &mut [u32], z: words::Sizes)
    requires { Lent m.old (sizes_of z) }
    ensures { m.new ≡ masks_set m.old (sizes_of z) (cabinet_count (sizes_of z)) }
{
    for c in 0..z.cabinet_count() {
        m[words::MASKS_AT + c as usize] = lanes::cabinet::cabinet_online(m, z, c);
    }
}

// Begins a period: the bits of all lanes that are on, and above them those of their cabinets and of their yards.
#[tactic(auto, unfolding(crate::specs::Period::started_words, mask_tree::specs::Tree::raised_up))]
pub fn start_period(m: &mut [u32], z: words::Sizes)
    requires { Lent m.old (sizes_of z) }
    ensures { m.new ≡ started_words m.old (sizes_of z) }
{
    let yards = z.yards_start();
    await_lanes(m, z);
    let cabinets = Level {
        first: yards,
        wide: z.cabinets,
        count: z.yards,
    };
    cabinets.raise(m, words::MASKS_AT);
    let top = Level {
        first: words::YARD_MASK_AT,
        wide: z.yards,
        count: 1,
    };
    top.raise(m, yards);
}

// Ends a period: the current generation goes up, and if the largest requested is not earlier, another begins.
#[tactic(auto, unfolding(crate::specs::Period::ended_words))]
pub fn end_period(m: &mut [u32], z: words::Sizes)
    requires { Lent m.old (sizes_of z) }
    ensures { m.new ≡ ended_words m.old (sizes_of z) }
{
    let largest = m[words::LARGEST_GENERATION_AT];
    let current = masks::up(m[words::CURRENT_GENERATION_AT]);
    m[words::CURRENT_GENERATION_AT] = current;
    if !masks::later(current, largest) {
        start_period(m, z);
    }
}

// The largest generation requested becomes g if g is later.
#[tactic(auto, unfolding(crate::specs::Period::raised_words))]
fn raise_largest(m: &mut [u32], g: u32)
    requires { largest_generation_at < length m.old }
    ensures { m.new ≡ raised_words m.old g }
{
    if masks::later(g, m[words::LARGEST_GENERATION_AT]) {
        m[words::LARGEST_GENERATION_AT] = g;
    }
}

// Requests generation g: the largest requested is raised, and if no period runs, one begins.
#[tactic(auto, unfolding(crate::specs::Period::requested_words))]
pub fn request(m: &mut [u32], z: words::Sizes, g: u32)
    requires { Lent m.old (sizes_of z) }
    ensures { m.new ≡ requested_words m.old (sizes_of z) g }
{
    let waiting = m[words::YARD_MASK_AT];
    raise_largest(m, g);
    if waiting == 0 {
        start_period(m, z);
    }
}

// If no lane is awaited any more, the period ends.
#[tactic(auto, unfolding(crate::specs::Release::over_words))]
fn end_if_over(m: &mut [u32], z: words::Sizes)
    requires { Lent m.old (sizes_of z) }
    ensures { m.new ≡ over_words m.old (sizes_of z) }
{
    if m[words::YARD_MASK_AT] == 0 {
        end_period(m, z);
    }
}

// Whether the bit of a lane is set.
pub fn is_pending(m: &[u32], z: words::Sizes, lane: lanes::Place) -> bool
    requires { LaneLent m.now (sizes_of z) lane }
    ensures { result ≡ pending_in m.now lane }
{
    masks::test(m[words::MASKS_AT + lane.cabinet as usize], lane.place)
}

// The bit of a lane goes, its cabinet's with the last of the cabinet, and its yard's with the last of the yard.
#[tactic(auto, unfolding(crate::specs::Release::cleared_words, mask_tree::specs::Tree::cleared_up))]
fn clear_pending(m: &mut [u32], z: words::Sizes, lane: lanes::Place)
    requires { LaneLent m.old (sizes_of z) lane }
    ensures { m.new ≡ cleared_words m.old (sizes_of z) lane }
{
    let cabinet = words::MASKS_AT + lane.cabinet as usize;
    let yard = z.yards_start() + lane.yard as usize;
    if mask_tree::clear(m, cabinet, lane.place) && mask_tree::clear(m, yard, lane.bay) {
        mask_tree::clear(m, words::YARD_MASK_AT, lane.yard);
    }
}

// The bit of a lane goes if it is set, and the period ends if it was the last.
#[tactic(auto, unfolding(crate::specs::Release::passed_words))]
fn pass_period(m: &mut [u32], z: words::Sizes, lane: lanes::Place)
    requires { LaneLent m.old (sizes_of z) lane }
    ensures { m.new ≡ passed_words m.old (sizes_of z) lane }
{
    if is_pending(m, z, lane) {
        clear_pending(m, z, lane);
        end_if_over(m, z);
    }
}

// A lane drops its snapshot and its bit, and the period ends if that was the last.
#[tactic(auto, unfolding(crate::specs::Release::released_words))]
pub fn release(m: &mut [u32], z: words::Sizes, lane: lanes::Place)
    requires { LaneLent m.old (sizes_of z) lane }
    ensures { m.new ≡ released_words m.old (sizes_of z) lane }
{
    lane.change(m, z, |r| r.dropped());
    pass_period(m, z, lane);
}
