// The tests of one slot, where a walk meets it: a slot's part of document 01's sentences.
ghost use Rattle.std.specs.Prelude.{◌≡◌, ◌<◌};
ghost use Rattle.slot_places.specs.Slots.{slot_in, chained_fits, queued_fits};

use distinct_codes::slots::Slots;
use words::product::Product;

// the words of a slot: its product, and its links
#[derive(Clone, Copy)]
struct Slot {
    product: Product,
    chain: u32,
    queue: u32,
}

impl Slot {
    // The words of slot i.
    fn read(slots: Slots, i: usize) -> Slot
        requires { i < slots.count }
        ensures { result ≡ slot_in slots.entry i }
    {
        Slot {
            product: Product {
                code: slots.code(i),
                deposit: slots.word(i, words::DEPOSIT_AT),
                material: slots.word(i, words::MATERIAL_AT),
            },
            chain: slots.word(i, words::CHAIN_LINK_AT),
            queue: slots.word(i, words::QUEUE_LINK_AT),
        }
    }
}

// Slot i on chain k: "chained slots are on chain (code mod 64)", "fields are in range", and "a slot
// outside every line has line link none".
pub fn chained_fits(slots: Slots, i: usize, k: u64) -> bool
    requires { i < slots.count }
    ensures { result ≡ chained_fits slots.entry.memory.now slots.entry.base k i }
{
    let s = Slot::read(slots, i);
    (s.product.code % words::CHAIN_COUNT as u64 == k)
        & !s.product.is_wrong()
        & (s.queue == words::NONE)
}

// What a queue holds.
#[derive(Clone, Copy, Debug, PartialEq, Eq)]
pub enum Queued {
    Free,
    Retired,
}

impl Queued {
    // Slot i in such a queue: "free slots hold ..", or "links and fields are in range".
    pub fn fits(self, slots: Slots, i: usize) -> bool
        requires { i < slots.count }
        ensures { result ≡ queued_fits slots.entry.memory.now slots.entry.base slots.entry.count self i }
    {
        let s = Slot::read(slots, i);
        match self {
            Queued::Free => {
                (s.product.code == 0)
                    & (s.product.deposit == 0)
                    & (s.product.material == 0)
                    & (s.chain == words::NONE)
            }
            Queued::Retired => {
                !s.product.is_wrong() & words::links::link_fits(s.chain, slots.count)
            }
        }
    }
}
