// The global words, and masks below masks: those of the yards and of their cabinets.
ghost use Rattle.std.specs.Prelude.{◌≡◌, ◌+◌, ◌^◌, ◌<◌, ◌≤◌, length, ltb};
ghost use Rattle.model.specs.Layout.{yards_body};
ghost use Rattle.words.specs.Lent.{sizes_of, Lent};
ghost use Rattle.masks.specs.Bits.{width as wordWidth};
ghost use Rattle.engine_legality.specs.LaneSentences.{mask_fits, group_fits, all_cabinets, all_masks, global_words_fit};

use crate::generations::Generations;

// the first of the global current queue
const GLOBAL_CURRENT_FIRST: usize = words::GLOBAL_QUEUES_AT + words::CURRENT_OFFSET;

// A word has no bit from this one on.
pub fn fits_in(word: u32, bits: u32) -> bool
    requires { bits < wordWidth }
    ensures { result ≡ ltb word (2 ^ bits) }
{
    word >> bits == 0
}

// A mask of this width is in range, and its bit of the mask above is set exactly when it is not 0.
#[tactic(auto, unfolding(crate::specs::LaneSentences::mask_fits))]
fn mask_fits(mask: u32, bit: bool, width: u32) -> bool
    requires { width < wordWidth }
    ensures { result ≡ mask_fits width mask bit }
{
    fits_in(mask, width) & (bit == (mask != 0))
}

// A group of masks of this width, the first of them at `first`, below the mask `bits`.
fn group_fits(m: &[u32], bits: u32, first: usize, count: u32, width: u32) -> bool
    requires { (first + count ≤ length m.now) × (count ≤ wordWidth) × (width < wordWidth) }
    ensures { result ≡ group_fits m.now bits first count width }
{
    (0..count).all(|p| mask_fits(m[first + p as usize], masks::test(bits, p), width))
}

// The lane masks of all cabinets, a group a yard.
fn cabinets_fit(m: &[u32], z: words::Sizes) -> bool
    requires { Lent m.now (sizes_of z) }
    ensures { result ≡ all_cabinets m.now z.yards z.cabinets z.places (yards_body (sizes_of z)) }
{
    let yards = z.yards_start();
    let stride = z.cabinets as usize;
    (0..z.yards).all(|y| {
        let y = y as usize;
        group_fits(
            m,
            m[yards + y],
            words::MASKS_AT + stride * y,
            z.cabinets,
            z.places,
        )
    })
}

// "masks are in range", the yard mask apart, and each bit "set exactly when the mask below it is not 0".
#[tactic(auto, unfolding(crate::specs::LaneSentences::all_masks))]
pub fn masks_fit(m: &[u32], z: words::Sizes) -> bool
    requires { Lent m.now (sizes_of z) }
    ensures { result ≡ all_masks m.now z.yards z.cabinets z.places (yards_body (sizes_of z)) }
{
    let yards = z.yards_start();
    group_fits(m, m[words::YARD_MASK_AT], yards, z.yards, z.cabinets) && cabinets_fit(m, z)
}

// The global words: "masks are in range" of the yard mask, the largest generation and the global
// queues' generation. Chain heads and the ends of the global queues are the walks' to test.
#[tactic(auto, unfolding(crate::specs::LaneSentences::global_words_fit))]
pub fn global_words_fit(m: &[u32], z: words::Sizes) -> bool
    requires { Lent m.now (sizes_of z) }
    ensures { result ≡ global_words_fit m.now z.yards z.slots }
{
    let generations = Generations::read(m);
    let empty = z.slots <= m[GLOBAL_CURRENT_FIRST];
    fits_in(m[words::YARD_MASK_AT], z.yards)
        & generations.largest_fits()
        & generations.global_fits(m[words::GLOBAL_GENERATION_AT], empty)
}
