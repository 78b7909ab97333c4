// The calls of an updater on a legal memory: add, replace, delete and hand-back. Each answers four words, or the cause that refuses it,
// and leaves the memory as the model's rules say, a refused one every word of it. The causes are tested in their order.
// Stays: memory and lane are two parameters, and `Named` ties them; `access` `Lane` says why.
#![tactic(auto)]

ghost use Rattle.std.specs.Prelude.{◌≡◌, [], ◌<◌, OnOk};
ghost use Rattle.model.specs.Layout.{free_at};
ghost use Rattle.model.specs.Rules.{first_cause, of_entry, add as adding, replace as replacing, delete as deleting, hand_back};
ghost use Rattle.model.specs.Memory.{sizes, state};
ghost use Rattle.model.specs.Calls.{on_state};
ghost use Rattle.words.specs.Lent.{sizes_of, Lent};
ghost use Rattle.queues.specs.Queue.{appended};
ghost use Rattle.chains.specs.Chain.{found, put_in_place, unlinked};
ghost use Rattle.changes.specs.Queues.{ends_at};
ghost use Rattle.changes.specs.Search.{search_words};
ghost use Rattle.access.specs.Causes.{refusal_of, answer_of};
ghost use Rattle.access.specs.Contract.{Does};
ghost use Rattle.access.specs.Lanes.{Named, LaneIn};
ghost use Rattle.updates.specs.UpdateStores.{QueueIn, Leaves, Filled, handed_from, Reclaimed};

use access::causes::Cause;
use chains::Found;
use queues::QueueAt;
use words::product::Product;

// Where the ends of a lane's next and done queues stand in its record.
const NEXT_AT: usize = words::QUEUES_AT;

const DONE_AT: usize = words::QUEUES_AT + words::DONE_OFFSET;

// The global done queue.
const GLOBAL_DONE: QueueAt = QueueAt {
    ends: words::GLOBAL_QUEUES_AT + words::DONE_OFFSET,
};

// ---- what the calls share

// The slot of a code and the one before it in its chain, None where no slot has it.
fn search(m: &[u32], z: words::Sizes, code: u64) -> Option<Found>
    requires { Lent m.now (sizes_of z) }
    ensures { result ≡ found (search_words (sizes_of z) m.now code) }
{
    let head = access::head_address(code);
    chains::find(m, z, m[head], code).ok()
}

// ---- delete

// Unlinks the slot that was found, and appends it to the queue; it keeps its chain link.
fn remove(m: &mut [u32], z: words::Sizes, head: usize, queue: QueueAt, gone: Found)
    requires { Leaves m.old (sizes_of z) head queue.ends gone }
    ensures { m.new ≡ appended (unlinked m.old (sizes_of z) head gone.slot gone.prev) (sizes_of z) queue.ends gone.slot }
{
    chains::unlink(m, z, head, gone);
    queue.append(m, z, gone.slot);
}

// Removes a code's slot, which waits in the lane's next queue.
pub fn delete(m: &mut [u32], lane: access::Lane, code: u64) -> Result<[u32; 4], Cause>
    requires { Named m.old lane }
    ensures { Does (on_state (deleting lane.number code)) m.old (answer_of result) m.new }
{
    access::check_lane(m, lane)?;
    if access::wrong_code(code) {
        return Err(Cause::OutOfRange);
    }
    let old = search(m, lane.sizes, code).ok_or(Cause::CodeMissing)?;
    let head = access::head_address(code);
    let next = QueueAt {
        ends: lane.address + NEXT_AT,
    };
    remove(m, lane.sizes, head, next, old);
    Ok([old.slot, 0, 0, 0])
}

// ---- entries of the office

// The causes of every entry of the office.
#[tactic(auto, using(access::proofs::Refusals::refusals), unfolding(model::specs::Rules::first_cause))]
fn check_entry(m: &[u32], lane: access::Lane, product: Product) -> Result<(), Cause>
    requires { Named m.now lane }
    ensures cause { refusal_of result ≡ first_cause (of_entry (state m.now) lane.number product.code product.deposit product.material []) }
    ensures lane { OnOk result (LaneIn m.now lane) }
{
    access::check_lane(m, lane)?;
    if product.is_wrong() {
        return Err(Cause::OutOfRange);
    }
    if !check_digits::is_right(product.code) {
        return Err(Cause::WrongDigit);
    }
    Ok(())
}

// Takes the first free slot, writes a product there, and answers its number, None where no slot is free.
fn fill(m: &mut [u32], z: words::Sizes, product: Product) -> Option<u32>
    requires { QueueIn m.old (sizes_of z) free_at }
    ensures { Filled m.old (sizes_of z) product result m.new }
{
    let slot = queues::FREE.take_first(m, z).ok()?;
    chains::write_product(m, z, slot, product);
    Some(slot)
}

// Links the first free slot, which holds the product, at the head of the code's chain.
pub fn add(m: &mut [u32], lane: access::Lane, product: Product) -> Result<[u32; 4], Cause>
    requires { Named m.old lane }
    ensures { Does (on_state (adding lane.number product.code product.deposit product.material)) m.old (answer_of result) m.new }
{
    check_entry(m, lane, product)?;
    if search(m, lane.sizes, product.code).is_some() {
        return Err(Cause::CodePresent);
    }
    let slot = fill(m, lane.sizes, product).ok_or(Cause::NoFreeSlot)?;
    chains::link_head(m, lane.sizes, access::head_address(product.code), slot);
    Ok([slot, 0, 0, 0])
}

// Puts the slot `new` in the place of the slot that was found, and appends that one, which keeps its chain link, to
// the queue.
fn supersede(m: &mut [u32], z: words::Sizes, head: usize, queue: QueueAt, old: Found, new: u32)
    requires { Leaves m.old (sizes_of z) head queue.ends old × (new < z.slots) }
    ensures { m.new ≡ appended (put_in_place m.old (sizes_of z) head old.slot old.prev new) (sizes_of z) queue.ends old.slot }
{
    chains::put_in_place(m, z, head, old, new);
    queue.append(m, z, old.slot);
}

// Puts the first free slot, which holds the product, in the place of the code's slot, which waits in the lane's next
// queue.
pub fn replace(m: &mut [u32], lane: access::Lane, product: Product) -> Result<[u32; 4], Cause>
    requires { Named m.old lane }
    ensures { Does (on_state (replacing lane.number product.code product.deposit product.material)) m.old (answer_of result) m.new }
{
    check_entry(m, lane, product)?;
    let old = search(m, lane.sizes, product.code).ok_or(Cause::CodeMissing)?;
    let new = fill(m, lane.sizes, product).ok_or(Cause::NoFreeSlot)?;
    let head = access::head_address(product.code);
    let next = QueueAt {
        ends: lane.address + NEXT_AT,
    };
    supersede(m, lane.sizes, head, next, old, new);
    Ok([new, old.slot, 0, 0])
}

// ---- hand-back

// The done queue that hand-back takes from: the lane's, else the global one.
fn done_queue(m: &[u32], lane: access::Lane) -> QueueAt
    requires { LaneIn m.now lane }
    ensures { result.ends ≡ ends_at (sizes m.now) (handed_from (state m.now) lane.number) }
{
    let own = QueueAt {
        ends: lane.address + DONE_AT,
    };
    if own.is_empty(m, lane.sizes) {
        GLOBAL_DONE
    } else {
        own
    }
}

// Takes the first slot of the queue, clears it to the free values, appends it to the free queue, and answers its
// number, None where the queue is empty.
fn reclaim(m: &mut [u32], z: words::Sizes, queue: QueueAt) -> Option<u32>
    requires { QueueIn m.old (sizes_of z) queue.ends }
    ensures { Reclaimed m.old (sizes_of z) queue.ends result m.new }
{
    let slot = queue.take_first(m, z).ok()?;
    chains::clear_slot(m, z, slot);
    queues::FREE.append(m, z, slot);
    Some(slot)
}

// Frees the first slot of the lane's done queue, else of the global one.
pub fn hand_back(m: &mut [u32], lane: access::Lane) -> Result<[u32; 4], Cause>
    requires { Named m.old lane }
    ensures { Does (on_state (hand_back lane.number)) m.old (answer_of result) m.new }
{
    access::check_lane(m, lane)?;
    let done = done_queue(m, lane);
    let slot = reclaim(m, lane.sizes, done).ok_or(Cause::NothingDone)?;
    Ok([slot, 0, 0, 0])
}
