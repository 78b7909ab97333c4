// The call awaited on a legal memory: how many lanes are pending and the lowest of them, how many slots are free and how many stand
// in the other queues, by the queues' lengths. It walks no queue and changes no word.
// Stays: memory and sizes are two parameters, and `TableIn` ties them; `words` `Sizes` says why.
#![tactic(auto)]

ghost use Rattle.std.specs.Prelude.{◌≡◌, length};
ghost use Rattle.model.specs.Lists.{first as lists_first};
ghost use Rattle.model.specs.Rules.{pending_from, queued_in, awaited as awaiting};
ghost use Rattle.model.specs.Memory.{state};
ghost use Rattle.model.specs.Calls.{on_state};
ghost use Rattle.representation.specs.Sound.{Sound};
ghost use Rattle.access.specs.Causes.{answer_of};
ghost use Rattle.access.specs.Contract.{Does};
ghost use Rattle.access.specs.TableSizes.{TableIn};
ghost use Rattle.awaited.specs.Lowest.{lowest_in, MaskAt};
ghost use Rattle.awaited.specs.Lengths.{owner_length, retired_length, OwnerAt};

// ---- lanes

// How many lanes are pending: the set bits of the lane masks.
fn pending_count(m: &[u32], z: words::Sizes) -> u32
    requires { TableIn m.now z }
    ensures { result ≡ length (pending_from 0 (state m.now).engine.lanes) }
{
    let cabinets = &m[words::MASKS_AT..words::MASKS_AT + z.cabinet_count() as usize];
    cabinets.iter().map(|mask| masks::ones(*mask)).sum()
}

// The lowest set bit of a mask, number `group` of those that stand from `first` on, by its number among the bits of all.
fn lowest_in(m: &[u32], first: usize, group: u32, wide: u32) -> u32
    requires { MaskAt m.now first group wide }
    ensures { result ≡ lowest_in m.now first group wide }
{
    let place = masks::lowest(m[first + group as usize]);
    group * wide + place
}

// The lowest pending lane, none where no period runs: the yard of the lowest set bit of the yard mask, its cabinet by the lowest
// one of its cabinet mask, and that one's lane by the lowest one of its lane mask.
// Stays: none is a word of the answer; an Option would be made that word at once by the one caller.
fn lowest_pending(m: &[u32], z: words::Sizes) -> u32
    requires { TableIn m.now z }
    ensures { result ≡ lists_first (pending_from 0 (state m.now).engine.lanes) }
{
    let yards = m[words::YARD_MASK_AT];
    if yards == 0 {
        return words::NONE;
    }
    let y = masks::lowest(yards);
    let c = lowest_in(m, z.yards_start(), y, z.cabinets);
    lowest_in(m, words::MASKS_AT, c, z.places)
}

// ---- slots

// How many slots stand in the queues of an owner, whose words stand from `ends` on.
fn owner_length(m: &[u32], ends: usize) -> u32
    requires { OwnerAt m.now ends }
    ensures { result ≡ owner_length m.now ends }
{
    m[ends + words::LENGTH_OFFSET]
        + m[ends + (words::CURRENT_OFFSET + words::LENGTH_OFFSET)]
        + m[ends + (words::DONE_OFFSET + words::LENGTH_OFFSET)]
}

// How many slots stand in the queues of the lanes.
fn lanes_length(m: &[u32], z: words::Sizes) -> u32
    requires { TableIn m.now z }
    ensures { result ≡ queued_in (state m.now).engine.lanes }
{
    let mut n = 0;
    for lane in 0..z.lane_count() {
        n += owner_length(m, z.lane_address(lane) + words::QUEUES_AT);
    }
    n
}

// How many slots stand in the queues but the free one.
fn retired_length(m: &[u32], z: words::Sizes) -> u32
    requires { TableIn m.now z }
    ensures { result ≡ retired_length (state m.now) }
{
    owner_length(m, words::GLOBAL_QUEUES_AT) + lanes_length(m, z)
}

// ---- awaited

// The pending lanes, the lowest of them, the free slots and those in the other queues. No cause refuses it.
pub fn awaited(m: &[u32]) -> [u32; 4]
    requires { Sound m.now }
    ensures { Does (on_state awaiting) m.now (answer_of (Ok result)) m.now }
{
    let z = words::NamedSizes::read(m).of_table();
    let free = m[words::FREE_AT + words::LENGTH_OFFSET];
    let retired = retired_length(m, z);
    [pending_count(m, z), lowest_pending(m, z), free, retired]
}
