// Hash chains in the lent words: the head of each chain, and each slot's chain link, which is the next slot of its
// chain. Lookups take one step a call.
// Stays: memory and sizes are two parameters, and `Lent` ties them; `words` `Sizes` says why.
#![tactic(auto)]

ghost use Rattle.std.specs.Prelude.{◌≡◌, ◌+◌, ◌<◌, length};
ghost use Rattle.model.specs.Word.{none};
ghost use Rattle.model.specs.Layout.{slot_address};
ghost use Rattle.model.specs.Memory.{at};
ghost use Rattle.model.specs.Rules.{outcome_answer};
ghost use Rattle.words.specs.Lent.{sizes_of, Lent};
ghost use Rattle.chains.specs.Chain.{SlotLent, link_address, code_words, seek, sought, pointed, linked_at_head, put_in_place, unlinked, product_set, cleared};
ghost use Rattle.chains.specs.Outcome.{outcome_of, outcome_at, step_words};

use words::product::Product;

// A code's slot and the one before it in its chain, none where it is the first.
// Stays: `prev` is a word, as links are, and `point` tests it against `slots`; an Option would need that test too.
#[derive(Clone, Copy, Debug, PartialEq, Eq)]
pub struct Found {
    pub slot: u32,
    pub prev: u32,
}

// What a lookup finds.
// Stays: the project's rules name this form, the `Step` that carries the record.
#[derive(Clone, Copy, Debug, PartialEq, Eq)]
pub struct FoundRecord {
    pub slot: u32,
    pub deposit: u32,
    pub material: u32,
}

// The outcome of a step: still going, found with its record, or absent.
#[derive(Clone, Copy, Debug, PartialEq, Eq)]
pub enum Step {
    Going,
    Found(FoundRecord),
    Absent,
}

// Where the chain link of a slot stands.
fn link_address(z: words::Sizes, slot: u32) -> usize
    ensures { result ≡ link_address (sizes_of z) slot }
{
    z.slot_address(slot) + words::CHAIN_LINK_AT
}

// ---- chains

// A slot's chain link.
pub fn chain_link(m: &[u32], z: words::Sizes, slot: u32) -> u32
    requires { SlotLent m.now (sizes_of z) slot }
    ensures { result ≡ at m.now (link_address (sizes_of z) slot) }
{
    m[link_address(z, slot)]
}

// A slot's code.
fn code_of(m: &[u32], z: words::Sizes, slot: u32) -> u64
    requires { SlotLent m.now (sizes_of z) slot }
    ensures { result ≡ code_words m.now (sizes_of z) slot }
{
    words::code_at(m, z.slot_address(slot) + words::CODE_AT)
}

// Follows the chain from its head to the slot that holds the code. Where none does, the slot at which the search ended is
// the error, none where it met no slot. The links of a chain lead to each slot once, so slots + 1 steps are enough; a
// chain that comes round ends there too.
pub fn find(m: &[u32], z: words::Sizes, head: u32, code: u64) -> Result<Found, u32>
    requires { Lent m.now (sizes_of z) }
    ensures { result ≡ sought (seek m.now (sizes_of z) code (z.slots + 1) none head) }
{
    let mut prev = words::NONE;
    let mut slot = head;
    for _ in 0..=z.slots {
        if slot >= z.slots {
            return Err(prev);
        }
        if code_of(m, z, slot) == code {
            return Ok(Found { slot, prev });
        }
        prev = slot;
        slot = chain_link(m, z, prev);
    }
    Err(prev)
}

// What pointed at a slot, the link of `prev` or the head where that is no slot, points to `next`.
#[tactic(auto, unfolding(crate::specs::Chain::pointed))]
fn point(m: &mut [u32], z: words::Sizes, head: usize, prev: u32, next: u32)
    requires { (Lent m.old (sizes_of z)) × (head < length m.old) }
    ensures { m.new ≡ pointed m.old (sizes_of z) head prev next }
{
    if prev < z.slots {
        m[link_address(z, prev)] = next;
    } else {
        m[head] = next;
    }
}

// Links a slot at the head.
pub fn link_head(m: &mut [u32], z: words::Sizes, head: usize, slot: u32)
    requires { (Lent m.old (sizes_of z)) × ((head < length m.old) × (slot < z.slots)) }
    ensures { m.new ≡ linked_at_head m.old (sizes_of z) head slot }
{
    m[link_address(z, slot)] = m[head];
    m[head] = slot;
}

// Puts the slot `new` in the place of the slot that was found, which keeps its chain link.
pub fn put_in_place(m: &mut [u32], z: words::Sizes, head: usize, old: Found, new: u32)
    requires { (Lent m.old (sizes_of z)) × ((head < length m.old) × ((old.slot < z.slots) × (new < z.slots))) }
    ensures { m.new ≡ put_in_place m.old (sizes_of z) head old.slot old.prev new }
{
    m[link_address(z, new)] = chain_link(m, z, old.slot);
    point(m, z, head, old.prev, new);
}

// Unlinks the slot that was found; it keeps its chain link.
pub fn unlink(m: &mut [u32], z: words::Sizes, head: usize, old: Found)
    requires { (Lent m.old (sizes_of z)) × ((head < length m.old) × (old.slot < z.slots)) }
    ensures { m.new ≡ unlinked m.old (sizes_of z) head old.slot old.prev }
{
    let next = chain_link(m, z, old.slot);
    point(m, z, head, old.prev, next);
}

// ---- products

// Writes what a slot holds.
pub fn write_product(m: &mut [u32], z: words::Sizes, slot: u32, product: Product)
    requires { SlotLent m.old (sizes_of z) slot }
    ensures { m.new ≡ product_set m.old (slot_address (sizes_of z) slot) product.code product.deposit product.material }
{
    let b = z.slot_address(slot);
    m[b + words::CODE_AT] = words::low(product.code);
    m[b + words::CODE_AT + 1] = words::high(product.code);
    m[b + words::DEPOSIT_AT] = product.deposit;
    m[b + words::MATERIAL_AT] = product.material;
}

// What a free slot holds.
const BLANK: Product = Product {
    code: 0,
    deposit: 0,
    material: 0,
};

// Clears a slot to the free values.
pub fn clear_slot(m: &mut [u32], z: words::Sizes, slot: u32)
    requires { SlotLent m.old (sizes_of z) slot }
    ensures { m.new ≡ cleared m.old (slot_address (sizes_of z) slot) }
{
    write_product(m, z, slot, BLANK);
    m[link_address(z, slot)] = words::NONE;
}

// ---- lookups

// The outcome of a step of a lookup for `code` that stands at `position`.
#[tactic(auto, unfolding(crate::specs::Outcome::outcome_of, crate::specs::Outcome::outcome_at))]
pub fn step_outcome(m: &[u32], z: words::Sizes, code: u64, position: u32) -> Step
    requires { Lent m.now (sizes_of z) }
    ensures { outcome_of result ≡ outcome_at m.now (sizes_of z) code position }
{
    if position >= z.slots {
        return Step::Absent;
    }
    if code_of(m, z, position) != code {
        return Step::Going;
    }
    let b = z.slot_address(position);
    Step::Found(FoundRecord {
        slot: position,
        deposit: m[b + words::DEPOSIT_AT],
        material: m[b + words::MATERIAL_AT],
    })
}

// The four words of a step's answer: its number, then the slot, the deposit and the material of what it found.
impl From<Step> for [u32; 4] {
    ghost from_gives = { λ s w. w ≡ step_words (outcome_answer (outcome_of s)) };

    #[tactic(auto, unfolding(crate::specs::Outcome::outcome_of, model::specs::Rules::outcome_answer))]
    fn from(s: Step) -> [u32; 4] {
        match s {
            Step::Going => [0, 0, 0, 0],
            Step::Found(r) => [1, r.slot, r.deposit, r.material],
            Step::Absent => [2, 0, 0, 0],
        }
    }
}
