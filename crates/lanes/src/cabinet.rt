// The work on one cabinet's lanes. `cabinet` is the part of the lent words that holds that cabinet's
// records alone, one after another, and a place is a lane's number in its cabinet. `cabinet_online` and the methods of
// `Place` hand that part of the whole memory on.
// Stays: that a lane lies in the memory (`LaneLent`) is a premise, not a part of `Place`: it speaks of the memory, which a place does
// not hold (words, `Sizes`); so is that a place's record lies in a cabinet's part.
ghost use Rattle.std.specs.Prelude.{◌≡◌, ◌+◌, ◌*◌, ◌<◌, ◌≤◌, map, length};
ghost use Rattle.model.specs.Lists.{from, mask};
ghost use Rattle.model.specs.State.{cabinet_count};
ghost use Rattle.model.specs.Layout.{lane_length};
ghost use Rattle.model.specs.Memory.{at as word_at};
ghost use Rattle.words.specs.Lent.{sizes_of, Lent};
ghost use Rattle.masks.specs.Bits.{width};
ghost use Rattle.lanes.specs.Record.{record_at};
ghost use Rattle.lanes.specs.RecordChanges.{Changed};
ghost use Rattle.lanes.specs.Cabinet.{place_at, cabinet_at, online_at, online_mask, stand, LaneLent};

use crate::{LaneRecord, Place};
use words::flags::Flag;

// ---- in the part

// The flags of the lane at a place.
fn lane_flags(cabinet: &[u32], place: usize) -> u32
    requires { place_at place + lane_length ≤ length cabinet.now }
    ensures { result ≡ word_at cabinet.now (place_at place) }
{
    cabinet[words::LANE_LENGTH * place]
}

// The lanes that are on, of the first places of a cabinet: bit p for place p.
pub fn online_mask(cabinet: &[u32], places: usize) -> u32
    requires { (places ≤ width) × (lane_length * places ≤ length cabinet.now) }
    ensures { result ≡ mask (map (online_at cabinet.now 0) (from 0 places)) }
{
    let mut online: u32 = 0;
    for p in 0..places {
        if Flag::Online.is_set(lane_flags(cabinet, p)) {
            online = masks::set_bit(online, p as u32);
        }
    }
    online
}

// The record of the lane at a place.
pub fn record_in(cabinet: &[u32], place: usize) -> LaneRecord
    requires { place_at place + lane_length ≤ length cabinet.now }
    ensures { result ≡ record_at cabinet.now (place_at place) }
{
    LaneRecord::read(cabinet, words::LANE_LENGTH * place)
}

// The record of the lane at a place is changed. All other words stay.
pub fn change_in<F: FnOnce(LaneRecord) -> LaneRecord>(cabinet: &mut [u32], place: usize, change: F)
    requires { (place_at place + lane_length ≤ length cabinet.old) × F.IsAlwaysCallable change }
    ensures { Changed (F.post change) cabinet.old (place_at place) cabinet.new }
{
    let at = words::LANE_LENGTH * place;
    let record = change(LaneRecord::read(cabinet, at));
    record.write(cabinet, at);
}

// ---- the part handed on

// Where the part of a cabinet begins.
fn cabinet_start(z: words::Sizes, cabinet: u32) -> usize
    requires { cabinet < cabinet_count (sizes_of z) }
    ensures { result ≡ cabinet_at (sizes_of z) cabinet }
{
    z.lane_address(cabinet * z.places)
}

// The lanes of a cabinet that are on.
pub fn cabinet_online(m: &[u32], z: words::Sizes, cabinet: u32) -> u32
    requires { (Lent m.now (sizes_of z)) × (cabinet < cabinet_count (sizes_of z)) }
    ensures { result ≡ online_mask m.now (sizes_of z) cabinet }
{
    let places = z.places as usize;
    let start = cabinet_start(z, cabinet);
    let end = start + words::LANE_LENGTH * places;
    online_mask(&m[start..end], places)
}

impl Place {
    // The lane at a place of a cabinet, which is number `bay` of a yard.
    pub fn new(z: words::Sizes, yard: u32, bay: u32, place: u32) -> Place
        requires { (yard < z.yards) × (bay < z.cabinets) }
        ensures { result ≡ stand (sizes_of z) (yard * z.cabinets + bay) place }
    {
        let cabinet = yard * z.cabinets + bay;
        let start = cabinet_start(z, cabinet);
        let address = start + words::LANE_LENGTH * place as usize;
        Place {
            yard,
            bay,
            cabinet,
            place,
            start,
            address,
        }
    }

    // The record of the lane.
    pub fn record(self, m: &[u32], z: words::Sizes) -> LaneRecord
        requires { LaneLent m.now (sizes_of z) self }
        ensures { result ≡ record_at m.now self.address }
    {
        let end = self.start + words::LANE_LENGTH * z.places as usize;
        record_in(&m[self.start..end], self.place as usize)
    }

    // The record of the lane is changed. All other words stay.
    pub fn change<F: FnOnce(LaneRecord) -> LaneRecord>(
        self,
        m: &mut [u32],
        z: words::Sizes,
        change: F,
    )
        requires { (LaneLent m.old (sizes_of z) self) × F.IsAlwaysCallable change }
        ensures { Changed (F.post change) m.old self.address m.new }
    {
        let end = self.start + words::LANE_LENGTH * z.places as usize;
        change_in(&mut m[self.start..end], self.place as usize, change);
    }
}
