// What a slot holds: a code, its deposit in cents and its material.
ghost use Rattle.std.specs.Prelude.{◌≡◌};
ghost use Rattle.model.specs.Rules.{wrong_product};

#[derive(Clone, Copy, Debug, PartialEq, Eq)]
pub struct Product {
    pub code: u64,
    pub deposit: u32,
    pub material: u32,
}

impl Product {
    // Whether a field is out of range.
    pub fn is_wrong(self) -> bool
        ensures { result ≡ wrong_product self.code self.deposit self.material }
    {
        ((self.code > crate::MAX_CODE) | (self.deposit > crate::MAX_DEPOSIT))
            | (self.material > crate::MAX_MATERIAL)
    }
}
