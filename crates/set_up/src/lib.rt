// The call set-up: the words of a fresh table, written one body after another.
#![tactic(auto)]

ghost use Rattle.std.specs.Prelude.{◌≡◌, true, ◌+◌, ◌≤◌, length, replicate};
ghost use Rattle.model.specs.State.{lane_count};
ghost use Rattle.model.specs.Layout.{queues_width, global_body, free_at, global_queues_at, masks_at, lane_length, lanes_body, slot_length, slots_body, yards_body, total};
ghost use Rattle.model.specs.Rules.{fresh};
ghost use Rattle.model.specs.Legal.{sizes_fit};
ghost use Rattle.model.specs.Calls.{stored, set_up};
ghost use Rattle.set_up.specs.Written.{Written, rows};
ghost use Rattle.words.specs.Lent.{sizes_of, named};
ghost use Rattle.access.specs.Causes.{answer_of};
ghost use Rattle.access.specs.Contract.{Does};
ghost use Rattle.set_up.specs.FreshWords.{empty_queues, all_free, fresh_global, fresh_lane_words, link_after, fresh_slot_words};

use access::causes::Cause;

// the largest generation and the yard mask
const REST_LENGTH: usize = words::HEADS_AT - words::LARGEST_GENERATION_AT;

// a fresh lane is on
// Stays: a word as one constant; `Flag::Online.set(0)` would be a call for each lane.
const FRESH_FLAGS: u32 = 1;

const FRESH_GENERATION: u32 = 1;

// Writes v to the n words from at on.
fn fill(m: &mut [u32], at: usize, n: usize, v: u32)
    requires { at + n ≤ length m.old }
    ensures { Written m.old at (replicate n v) m.new }
{
    m[at..at + n].fill(v);
}

// Writes three empty queues from at on.
fn write_queues(m: &mut [u32], at: usize)
    requires { at + queues_width ≤ length m.old }
    ensures { Written m.old at empty_queues m.new }
{
    fill(m, at, words::QUEUES_WIDTH, words::NONE);
    m[at + words::LENGTH_OFFSET] = 0;
    m[at + words::CURRENT_OFFSET + words::LENGTH_OFFSET] = 0;
    m[at + words::DONE_OFFSET + words::LENGTH_OFFSET] = 0;
}

// Writes the words of the free queue, which has all slots.
fn write_free(m: &mut [u32], slots: u32)
    requires { (global_queues_at ≤ length m.old) × (1 ≤ slots) }
    ensures { Written m.old free_at (all_free slots) m.new }
{
    m[words::FREE_AT] = 0;
    m[words::FREE_AT + words::LAST_OFFSET] = slots - 1;
    m[words::FREE_AT + words::LENGTH_OFFSET] = slots;
}

// Writes the global words: generations, chain heads, and the queues.
fn write_global(m: &mut [u32], slots: u32)
    requires { (masks_at ≤ length m.old) × (1 ≤ slots) }
    ensures { Written m.old global_body (fresh_global slots) m.new }
{
    m[words::CURRENT_GENERATION_AT] = FRESH_GENERATION;
    fill(m, words::LARGEST_GENERATION_AT, REST_LENGTH, 0);
    fill(m, words::HEADS_AT, words::CHAIN_COUNT, words::NONE);
    write_free(m, slots);
    write_queues(m, words::GLOBAL_QUEUES_AT);
    m[words::GLOBAL_GENERATION_AT] = 0;
}

// Writes a lane's record from at on: all words 0 but for the flags, the queues and the position.
fn write_lane(m: &mut [u32], at: usize)
    requires { at + lane_length ≤ length m.old }
    ensures { Written m.old at (fresh_lane_words 0) m.new }
{
    fill(m, at, words::LANE_LENGTH, 0);
    m[at] = FRESH_FLAGS;
    write_queues(m, at + words::QUEUES_AT);
    m[at + words::POSITION_AT] = words::NONE;
}

// Writes the records of all lanes.
fn write_lanes(m: &mut [u32], z: words::Sizes)
    requires { slots_body (sizes_of z) ≤ length m.old }
    ensures { Written m.old (lanes_body (sizes_of z)) (rows fresh_lane_words (lane_count (sizes_of z))) m.new }
{
    for lane in 0..z.lane_count() {
        write_lane(m, z.lane_address(lane));
    }
}

// The queue link of slot i of the free queue.
// Stays: none is the word that is written; an Option would be made that word at once by the one caller.
fn link_after(slots: u32, i: u32) -> u32
    requires { i + 1 ≤ slots }
    ensures { result ≡ link_after slots i }
{
    if i + 1 < slots { i + 1 } else { words::NONE }
}

// Writes the record of slot i from at on: all words 0 but for the links.
fn write_slot(m: &mut [u32], at: usize, slots: u32, i: u32)
    requires { (at + slot_length ≤ length m.old) × (i + 1 ≤ slots) }
    ensures { Written m.old at (fresh_slot_words slots i) m.new }
{
    let link = link_after(slots, i);
    fill(m, at, words::SLOT_LENGTH, 0);
    m[at + words::CHAIN_LINK_AT] = words::NONE;
    m[at + words::QUEUE_LINK_AT] = link;
}

// Writes the records of all slots.
fn write_slots(m: &mut [u32], z: words::Sizes)
    requires { yards_body (sizes_of z) ≤ length m.old }
    ensures { Written m.old (slots_body (sizes_of z)) (rows (fresh_slot_words z.slots) z.slots) m.new }
{
    for i in 0..z.slots {
        write_slot(m, z.slot_address(i), z.slots, i);
    }
}

// Writes the words of a fresh table of these sizes. All words past its total stay.
fn write_fresh(m: &mut [u32], z: words::Sizes)
    requires { (sizes_fit (sizes_of z) ≡ true) × (total (sizes_of z) ≤ length m.old) }
    ensures { m.new ≡ stored (fresh (sizes_of z)) m.old }
{
    z.write_contents(m);
    write_global(m, z.slots);
    fill(m, words::MASKS_AT, z.cabinet_count() as usize, 0);
    write_lanes(m, z);
    write_slots(m, z);
    fill(m, z.yards_start(), z.yards as usize, 0);
}

// Set-up: refused where the sizes are out of range (cause 1) or the memory is too short (cause 2), and
// then no word changes; otherwise the fresh table is written, and its total answered.
pub fn set_up(m: &mut [u32], sizes: words::NamedSizes) -> Result<[u32; 4], Cause>
    ensures { Does (set_up (named sizes)) m.old (answer_of result) m.new }
{
    let Ok(z) = words::Sizes::try_from(sizes) else {
        return Err(Cause::BadSize);
    };
    let total = z.bodies().total;
    if m.len() < total as usize {
        return Err(Cause::ShortMemory);
    }
    write_fresh(m, z);
    Ok([total, 0, 0, 0])
}
