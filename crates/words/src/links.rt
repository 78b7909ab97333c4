// Links in range: a slot's number or none.
ghost use Rattle.std.specs.Prelude.{◌≡◌};
ghost use Rattle.words.specs.Links.{slot_or_none};

// A slot's number or none.
pub fn link_fits(x: u32, slots: u32) -> bool
    ensures { result ≡ slot_or_none slots x }
{
    (x < slots) | (x == crate::NONE)
}
