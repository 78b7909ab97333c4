// Masks, by shifts and masks: a bit tested, set and cleared, the set bits counted, the lowest of them. Generations, which
// wrap.
#![tactic(auto)]

ghost use Rattle.std.specs.Prelude.{◌≡◌, ◌<◌};
ghost use Rattle.model.specs.Word.{up as word_up, down as word_down, later as word_later};
ghost use Rattle.model.specs.Memory.{flag};
ghost use Rattle.laws.specs.MaskFlags.{trues, first_true};
ghost use Rattle.masks.specs.Bits.{width, bits, with_bit, without_bit};

// ---- masks
// Stays: that a place is below the width is a premise of three functions: places are worked out as numbers (a lane's in its cabinet,
// the p-th of some words), and a type of places would be made and taken apart at each.

// Whether bit p of a mask is set.
pub fn test(mask: u32, p: u32) -> bool
    requires { p < width }
    ensures { result ≡ flag p mask }
{
    (mask >> p) & 1 == 1
}

// The mask with bit p set.
pub fn set_bit(mask: u32, p: u32) -> u32
    requires { p < width }
    ensures { result ≡ with_bit p mask }
{
    mask | (1 << p)
}

// The mask with bit p cleared.
pub fn clear_bit(mask: u32, p: u32) -> u32
    requires { p < width }
    ensures { result ≡ without_bit p mask }
{
    mask & !(1 << p)
}

// How many bits of a mask are set.
pub fn ones(mask: u32) -> u32
    ensures { result ≡ trues (bits mask) }
{
    mask.count_ones()
}

// The place of the lowest set bit of a mask; the width where no bit is set.
pub fn lowest(mask: u32) -> u32
    ensures { result ≡ first_true (bits mask) }
{
    mask.trailing_zeros()
}

// ---- generations, which wrap

// The generation after g.
pub fn up(g: u32) -> u32
    ensures { result ≡ word_up g }
{
    g.wrapping_add(1)
}

// The generation before g.
pub fn down(g: u32) -> u32
    ensures { result ≡ word_down g }
{
    g.wrapping_sub(1)
}

// The most by which a generation is later than another.
const FARTHEST: u32 = 2147483647;

// Whether generation a is later than b.
pub fn later(a: u32, b: u32) -> bool
    ensures { result ≡ word_later a b }
{
    let d = a.wrapping_sub(b);
    1 <= d && d <= FARTHEST
}
