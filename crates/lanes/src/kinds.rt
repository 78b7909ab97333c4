// The kinds of quiescent states.
ghost use Rattle.std.specs.Prelude.{◌≡◌, ◌<◌};
ghost use Rattle.model.specs.Layout.{kinds};
ghost use Rattle.lanes.specs.Kinds.{number_of, Names};

#[derive(Clone, Copy, Debug, PartialEq, Eq)]
pub enum Kind {
    Idle,
    BottleDropped,
    DoorOpen,
    ChangedOver,
}

// A number that no kind has.
#[derive(Clone, Copy, Debug, PartialEq, Eq)]
pub struct UnknownKind(pub u32);

impl Kind {
    // Where its count stands among the four.
    pub fn index(self) -> usize
        ensures number { result ≡ number_of self }
        ensures in_range { result < kinds }
    {
        self as usize
    }
}

impl TryFrom<u32> for Kind {
    type Error = UnknownKind;

    ghost try_from_gives = { Names };

    fn try_from(number: u32) -> Result<Self, UnknownKind> {
        match number {
            0 => Ok(Kind::Idle),
            1 => Ok(Kind::BottleDropped),
            2 => Ok(Kind::DoorOpen),
            3 => Ok(Kind::ChangedOver),
            _ => Err(UnknownKind(number)),
        }
    }
}
