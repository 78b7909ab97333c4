// A lane's record as a struct, taken apart from its words and written to them, and what the rules do to it: the
// count of a quiescent state, by value and in a record that is lent, and the snapshot taken, compared and dropped.
#![tactic(auto)]

ghost use Rattle.std.specs.Prelude.{◌≡◌, ◌+◌, ◌<◌, ◌≤◌, [], ◌∷◌, length};
ghost use Rattle.std.proofs.lemmas.List.Edits.{sets};
ghost use Rattle.model.specs.Word.{up_to};
ghost use Rattle.model.specs.Lists.{update};
ghost use Rattle.model.specs.Layout.{count_width, count_limit, counts_width, queue_width, lane_length};
ghost use Rattle.model.specs.Memory.{at as word_at, low, high, count_words, read_counts};
ghost use Rattle.lanes.specs.Kinds.{number_of};
ghost use Rattle.lanes.specs.Record.{lookup_width, queue_at, queue_words, lookup_words_at, lookup_words};
ghost use Rattle.lanes.specs.Record.{record_at, record_stored, counted_record, sampled_record, dropped_record, offline_record};
ghost use Rattle.lanes.specs.Record.{is_holding, moved_on};

pub mod cabinet;
pub mod kinds;

use kinds::Kind;
use words::flags::Flag;

// The words of a queue: its first slot, its last, and how many there are.
#[derive(Clone, Copy)]
pub struct Queue {
    pub first: u32,
    pub last: u32,
    pub length: u32,
}

// A lookup: the two words of its code, and the slot at which it stands.
// Stays: its words as they are, so that a record is written back as it was read; `readers` has the code as one number.
#[derive(Clone, Copy)]
pub struct Lookup {
    pub low: u32,
    pub high: u32,
    pub position: u32,
}

// Flags, counts and snapshot counts by kind, the current queue's generation, the lane's
// three queues, and its lookup.
#[derive(Clone, Copy)]
pub struct LaneRecord {
    pub flags: u32,
    pub quiescent: [u64; words::KINDS],
    pub snapshot: [u64; words::KINDS],
    pub generation: u32,
    pub next: Queue,
    pub current: Queue,
    pub done: Queue,
    pub lookup: Lookup,
}

// Where a lane stands: its yard, the number of its cabinet there (bay) and of all cabinets, its place in the cabinet, where
// the cabinet's part of the words begins, and where the lane's record does. It is worked out once a call and handed on.
#[derive(Clone, Copy)]
pub struct Place {
    pub yard: u32,
    pub bay: u32,
    pub cabinet: u32,
    pub place: u32,
    pub start: usize,
    pub address: usize,
}

// The four counts whose words stand from at on, low word first.
// Stays: four counts are read and written one by one, since the project's rules name a record with two arrays of four; a loop over
// them reads no plainer, and needs an invariant.
fn read_counts(m: &[u32], at: usize) -> [u64; words::KINDS]
    requires { at + counts_width ≤ length m.now }
    ensures { result ≡ read_counts m.now at }
{
    [
        words::code_at(m, at),
        words::code_at(m, at + words::COUNT_WIDTH),
        words::code_at(m, at + words::COUNT_WIDTH * 2),
        words::code_at(m, at + words::COUNT_WIDTH * 3),
    ]
}

// Writes the two words of a count from at on. All other words stay.
fn write_count(m: &mut [u32], at: usize, count: u64)
    requires { at + count_width ≤ length m.old }
    ensures { m.new ≡ sets m.old at (low count ∷ high count ∷ []) }
{
    let low = words::low(count);
    let high = words::high(count);
    m[at] = low;
    m[at + 1] = high;
}

// Writes four counts from at on. All other words stay.
fn write_counts(m: &mut [u32], at: usize, counts: [u64; words::KINDS])
    requires { at + counts_width ≤ length m.old }
    ensures { m.new ≡ sets m.old at (count_words (word_at counts)) }
{
    write_count(m, at, counts[0]);
    write_count(m, at + words::COUNT_WIDTH, counts[1]);
    write_count(m, at + words::COUNT_WIDTH * 2, counts[2]);
    write_count(m, at + words::COUNT_WIDTH * 3, counts[3]);
}

impl Queue {
    // A queue's words that stand from at on.
    fn read(m: &[u32], at: usize) -> Queue
        requires { at + queue_width ≤ length m.now }
        ensures { result ≡ queue_at m.now at }
    {
        Queue {
            first: m[at],
            last: m[at + words::LAST_OFFSET],
            length: m[at + words::LENGTH_OFFSET],
        }
    }

    // Writes a queue's words from at on. All other words stay.
    fn write(self, m: &mut [u32], at: usize)
        requires { at + queue_width ≤ length m.old }
        ensures { m.new ≡ sets m.old at (queue_words self) }
    {
        m[at] = self.first;
        m[at + words::LAST_OFFSET] = self.last;
        m[at + words::LENGTH_OFFSET] = self.length;
    }
}

impl Lookup {
    // The lookup that stands from at on.
    fn read(m: &[u32], at: usize) -> Lookup
        requires { at + lookup_width ≤ length m.now }
        ensures { result ≡ lookup_words_at m.now at }
    {
        Lookup {
            low: m[at],
            high: m[at + 1],
            position: m[at + 2],
        }
    }

    // Writes a lookup from at on. All other words stay.
    fn write(self, m: &mut [u32], at: usize)
        requires { at + lookup_width ≤ length m.old }
        ensures { m.new ≡ sets m.old at (lookup_words self) }
    {
        m[at] = self.low;
        m[at + 1] = self.high;
        m[at + 2] = self.position;
    }
}

impl LaneRecord {
    // The record that stands from at on.
    #[tactic(auto, unfolding(crate::specs::Record::record_at))]
    pub fn read(m: &[u32], at: usize) -> LaneRecord
        requires { at + lane_length ≤ length m.now }
        ensures { result ≡ record_at m.now at }
    {
        let queues = at + words::QUEUES_AT;
        LaneRecord {
            flags: m[at],
            quiescent: read_counts(m, at + words::QUIESCENT_AT),
            snapshot: read_counts(m, at + words::SNAPSHOT_AT),
            generation: m[at + words::GENERATION_AT],
            next: Queue::read(m, queues),
            current: Queue::read(m, queues + words::CURRENT_OFFSET),
            done: Queue::read(m, queues + words::DONE_OFFSET),
            lookup: Lookup::read(m, at + words::LOOKUP_AT),
        }
    }

    // Writes the record from at on. All other words stay.
    pub fn write(self, m: &mut [u32], at: usize)
        requires { at + lane_length ≤ length m.old }
        ensures { m.new ≡ record_stored m.old at self }
    {
        let queues = at + words::QUEUES_AT;
        m[at] = self.flags;
        write_counts(m, at + words::QUIESCENT_AT, self.quiescent);
        write_counts(m, at + words::SNAPSHOT_AT, self.snapshot);
        m[at + words::GENERATION_AT] = self.generation;
        self.next.write(m, queues);
        self.current.write(m, queues + words::CURRENT_OFFSET);
        self.done.write(m, queues + words::DONE_OFFSET);
        self.lookup.write(m, at + words::LOOKUP_AT);
    }

    // ---- counts

    // The record after a quiescent state of a kind: that count goes up, wrapping from the largest 64-bit number to 0, and
    // all else stays.
    #[tactic(auto, unfolding(crate::specs::Record::counted_record))]
    pub fn counted(self, kind: Kind) -> LaneRecord
        ensures { result ≡ counted_record self (number_of kind) }
    {
        let before = self.quiescent;
        let after = count(before, kind);
        LaneRecord {
            quiescent: after,
            ..self
        }
    }

    // The same in a record that is lent.
    pub fn count_pass(&mut self, kind: Kind)
        ensures { self.new ≡ counted_record self.old (number_of kind) }
    {
        *self = self.counted(kind);
    }

    // The same by value, through a record that is lent.
    // Stays: the project's rules name the count by value and the thin function over a lent record; a change is a function by value.
    pub fn passed(self, kind: Kind) -> LaneRecord
        ensures { result ≡ counted_record self (number_of kind) }
    {
        let mut after = self;
        after.count_pass(kind);
        after
    }

    // ---- snapshots

    // The record after its counts were copied: the snapshot is held.
    #[tactic(auto, unfolding(crate::specs::Record::sampled_record))]
    pub fn sampled(self) -> LaneRecord
        ensures { result ≡ sampled_record self }
    {
        let counts = self.quiescent;
        LaneRecord {
            flags: Flag::Snapshot.set(self.flags),
            snapshot: counts,
            ..self
        }
    }

    // The record without its snapshot: the bit and the counts of it are at rest.
    #[tactic(auto, unfolding(crate::specs::Record::dropped_record))]
    pub fn dropped(self) -> LaneRecord
        ensures { result ≡ dropped_record self }
    {
        LaneRecord {
            flags: Flag::Snapshot.clear(self.flags),
            snapshot: [0; words::KINDS],
            ..self
        }
    }

    // Whether the record holds a snapshot.
    pub fn is_holding(self) -> bool
        ensures { result ≡ is_holding self }
    {
        Flag::Snapshot.is_set(self.flags)
    }

    // Whether the record holds a snapshot from which some count differs: the lane went through a quiescent state since.
    pub fn moved_on(self) -> bool
        ensures { result ≡ moved_on self }
    {
        let held = self.is_holding();
        let same = self.quiescent == self.snapshot;
        held & !same
    }

    // ---- a lane that goes off

    // The record of a lane that went off.
    #[tactic(auto, unfolding(crate::specs::Record::offline_record))]
    pub fn offline(self) -> LaneRecord
        ensures { result ≡ offline_record self }
    {
        LaneRecord {
            flags: Flag::Online.clear(self.flags),
            ..self
        }
    }
}

// The counts with that of a kind one up, wrapping from the largest 64-bit number to 0.
pub fn count(quiescent: [u64; words::KINDS], kind: Kind) -> [u64; words::KINDS]
    ensures { result ≡ update quiescent (number_of kind) (up_to count_limit) }
{
    let mut counts = quiescent;
    let at = kind.index();
    counts[at] = counts[at].wrapping_add(1);
    counts
}
