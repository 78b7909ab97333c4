// The legality check: whether a memory is legal (document 01, "The memory", last paragraph), for any
// words and any number of them. It reads no word past the total and follows no link out of range; a
// walk that comes round again meets a marked slot and ends.
#![tactic(auto)]

ghost use Rattle.std.specs.Prelude.{◌≡◌, ◌+◌, ◌*◌, ◌≤◌, true, length};
ghost use Rattle.model.specs.Layout.{masks_at, max_slots, lane_length};
ghost use Rattle.model.specs.Memory.{sizes};
ghost use Rattle.model.specs.Legal.{legal as is_legal};
ghost use Rattle.distinct_codes.specs.Cells.{CellCount};
ghost use Rattle.slot_places.specs.Walks.{Counted, Runs};
ghost use Rattle.words.specs.Lent.{Lent};
ghost use Rattle.engine_legality.specs.WordSentences.{engine_legal};
ghost use Rattle.legality.specs.Parts.{Table, table_legal, queued_steps};

use distinct_codes::cells::Codes;
use distinct_codes::slots::Slots;
use slot_places::queue;
use slot_places::slots::Queued;

// the slots of a small table, and of any
const FEW: usize = 64;

const MANY: usize = words::MAX_SLOTS as usize;

// Stays: where the lanes begin and how many there are is handed on as two numbers, worked out once; three functions take them.
// The queues: the free one, the global ones and those of the lanes, whose words begin at lane.
fn walk_queues(slots: Slots, lane: usize, lanes: usize, left: u32, marks: &mut [u8]) -> Option<u32>
    requires { Counted slots marks.old left × (masks_at ≤ length slots.memory.now) × (lane + lane_length * lanes ≤ length slots.memory.now) }
    ensures { Runs slots.entry (queued_steps slots.entry.memory.now slots.entry.base lane lanes slots.entry.count) marks.old
        result marks.new }
{
    let f = queue::queues(slots, words::FREE_AT, 1, Queued::Free, left, marks)?;
    let g = queue::queues(
        slots,
        words::GLOBAL_QUEUES_AT,
        queue::QUEUES,
        Queued::Retired,
        f,
        marks,
    )?;
    queue::lane_queues(slots, lane, lanes, g, marks)
}

// The sentences about the slots, for lanes from lane on: each stands in one place and is right for it, and
// no code stands twice.
fn slots_agree<const SLOTS: usize, const CELLS: usize>(
    slots: Slots,
    lane: usize,
    lanes: usize,
) -> bool
    requires { Table slots lane lanes × (slots.count ≤ SLOTS) × (SLOTS ≤ max_slots) × CellCount CELLS }
    ensures { result ≡ table_legal slots.entry.memory.now }
{
    let mut marks = [0u8; SLOTS];
    let mut codes = Codes::<CELLS, SLOTS>::new();
    let Some(chained) = slot_places::chain::chains(slots, &mut marks, &mut codes) else {
        return false;
    };
    let Some(left) = walk_queues(slots, lane, lanes, chained, &mut marks) else {
        return false;
    };
    if left != 0 {
        return false;
    }
    distinct_codes::apart(slots, codes.aside.as_slice())
}

// The sentences about the slots, where those about the rest hold.
fn table_fits(m: &[u32]) -> bool
    requires { (Lent m.now (sizes m.now)) × (engine_legal m.now ≡ true) }
    ensures { result ≡ table_legal m.now }
{
    let z = words::NamedSizes::read(m).of_table();
    let slots = Slots {
        memory: m,
        base: z.slots_start(),
        count: z.slots,
    };
    let lane = z.lane_address(0);
    let lanes = z.lane_count() as usize;
    if z.slots as usize <= FEW {
        return slots_agree::<FEW, { distinct_codes::cells::FEW_CELLS }>(slots, lane, lanes);
    }
    slots_agree::<MANY, { distinct_codes::cells::MANY_CELLS }>(slots, lane, lanes)
}

// Whether the memory is legal.
pub fn legal(m: &[u32]) -> bool
    ensures { result ≡ is_legal m.now }
{
    if !engine_legality::contents::contents_agree(m) {
        return false;
    }
    if !engine_legality::engine_fits(m) {
        return false;
    }
    table_fits(m)
}
