// The table of contents: its words and the total, from the sizes. Set-up writes them, and the legality
// check compares a memory's own with them.
ghost use Rattle.std.specs.Prelude.{◌≡◌, ◌≤◌, length};
ghost use Rattle.std.proofs.lemmas.List.Edits.{sets};
ghost use Rattle.model.specs.Layout.{contents_length};
ghost use Rattle.model.specs.Memory.{contents};
ghost use Rattle.words.specs.Lent.{sizes_of};
ghost use Rattle.words.specs.Contents.{BodiesOf};

// where first word and length of each body stand
const GLOBAL_AT: usize = crate::BODIES_AT;

const GLOBAL_LENGTH_AT: usize = GLOBAL_AT + 1;

const MASKS_AT: usize = GLOBAL_LENGTH_AT + 1;

const MASKS_LENGTH_AT: usize = MASKS_AT + 1;

const LANES_AT: usize = MASKS_LENGTH_AT + 1;

const LANES_LENGTH_AT: usize = LANES_AT + 1;

const SLOTS_BODY_AT: usize = LANES_LENGTH_AT + 1;

const SLOTS_LENGTH_AT: usize = SLOTS_BODY_AT + 1;

const YARDS_BODY_AT: usize = SLOTS_LENGTH_AT + 1;

const YARDS_LENGTH_AT: usize = YARDS_BODY_AT + 1;

// what stands there, or a lane's or a slot's part of it
const GLOBAL_BODY: u32 = crate::CONTENTS_LENGTH as u32;

const MASKS_BODY: u32 = crate::MASKS_AT as u32;

const GLOBAL_LENGTH: u32 = MASKS_BODY - GLOBAL_BODY;

const LANE_LENGTH: u32 = crate::LANE_LENGTH as u32;

const SLOT_LENGTH: u32 = crate::SLOT_LENGTH as u32;

// The length of the cabinets' body, first word and length of the lanes' and of the slots', the first word
// of the yards', and the total.
#[derive(Clone, Copy)]
pub struct Bodies {
    pub masks_long: u32,
    pub lanes: u32,
    pub lanes_long: u32,
    pub slots: u32,
    pub slots_long: u32,
    pub yards: u32,
    pub total: u32,
}

impl crate::Sizes {
    // The bodies of a table with these sizes.
    pub fn bodies(self) -> Bodies
        ensures { BodiesOf (sizes_of self) result }
    {
        let cabinets = self.cabinet_count();
        let first_lane = MASKS_BODY + cabinets;
        let lanes_length = LANE_LENGTH * self.lane_count();
        let first_slot = first_lane + lanes_length;
        let slots_length = SLOT_LENGTH * self.slots;
        let first_yard = first_slot + slots_length;
        Bodies {
            masks_long: cabinets,
            lanes: first_lane,
            lanes_long: lanes_length,
            slots: first_slot,
            slots_long: slots_length,
            yards: first_yard,
            total: first_yard + self.yards,
        }
    }

    // Writes the contents of a table with these sizes.
    pub fn write_contents(self, m: &mut [u32])
        requires { contents_length ≤ length m.old }
        ensures { m.new ≡ sets m.old 0 (contents (sizes_of self)) }
    {
        let b = self.bodies();
        m[crate::VERSION_AT] = crate::VERSION;
        m[crate::CABINETS_AT] = self.cabinets;
        m[crate::PLACES_AT] = self.places;
        m[crate::SLOTS_AT] = self.slots;
        m[GLOBAL_AT] = GLOBAL_BODY;
        m[GLOBAL_LENGTH_AT] = GLOBAL_LENGTH;
        m[MASKS_AT] = MASKS_BODY;
        m[MASKS_LENGTH_AT] = b.masks_long;
        m[LANES_AT] = b.lanes;
        m[LANES_LENGTH_AT] = b.lanes_long;
        m[SLOTS_BODY_AT] = b.slots;
        m[SLOTS_LENGTH_AT] = b.slots_long;
        m[YARDS_BODY_AT] = b.yards;
        m[YARDS_LENGTH_AT] = self.yards;
        m[crate::YARDS_AT] = self.yards;
    }
}
