// The causes that refuse a call, under the names that the C header has for their numbers.
ghost use Rattle.std.specs.Prelude.{◌≡◌};
ghost use Rattle.access.specs.Causes.{number_of};

#[derive(Clone, Copy, Debug, PartialEq, Eq)]
pub enum Cause {
    BadSize = 1,
    ShortMemory = 2,
    NotLegal = 3,
    NoLane = 4,
    Offline = 5,
    AlreadyOnline = 6,
    InSection = 7,
    NoSection = 8,
    InLookup = 9,
    NoLookup = 10,
    OutOfRange = 11,
    CodePresent = 12,
    CodeMissing = 13,
    NoFreeSlot = 14,
    LastLane = 15,
    NothingDone = 16,
    WrongDigit = 17,
    WrongLabel = 18,
}

impl From<Cause> for u32 {
    ghost from_gives = { λ c n. n ≡ number_of c };

    fn from(c: Cause) -> u32 {
        c as u32
    }
}
