// A lane's flags: each is a bit of the record's first word.
ghost use Rattle.std.specs.Prelude.{◌≡◌};
ghost use Rattle.model.specs.Memory.{flag};
ghost use Rattle.masks.specs.Bits.{with_bit, without_bit};
ghost use Rattle.words.specs.Flags.{bit_of};

// The lane is on, its section is open, its lookup runs, it holds a snapshot.
#[derive(Clone, Copy, Debug, PartialEq, Eq)]
pub enum Flag {
    Online,
    Reading,
    Lookup,
    Snapshot,
}

impl Flag {
    // How many flags there are.
    pub const COUNT: u32 = 4;

    // The bit of a flag.
    pub fn bit(self) -> u32
        ensures { result ≡ bit_of self }
    {
        self as u32
    }

    // Whether flags have this one.
    pub fn is_set(self, flags: u32) -> bool
        ensures { result ≡ flag (bit_of self) flags }
    {
        masks::test(flags, self.bit())
    }

    // The flags with this one.
    pub fn set(self, flags: u32) -> u32
        ensures { result ≡ with_bit (bit_of self) flags }
    {
        masks::set_bit(flags, self.bit())
    }

    // The flags without it.
    pub fn clear(self, flags: u32) -> u32
        ensures { result ≡ without_bit (bit_of self) flags }
    {
        masks::clear_bit(flags, self.bit())
    }
}
