// Queues of slots in the lent words: first, last and length stand from `ends` on, and each slot's queue link is the
// next slot of its queue. A queue is empty when its first is none. Lengths wrap, so that no word is refused.
// Stays: memory and sizes are two parameters, and `Lent` ties them; `words` `Sizes` says why. That a queue's words lie in the memory
// (`Holds`) is of the memory too.
#![tactic(auto)]

ghost use Rattle.std.specs.Prelude.{not, ◌≡◌, ◌<◌, ltb, length};
ghost use Rattle.model.specs.Memory.{at};
ghost use Rattle.words.specs.Lent.{sizes_of, Lent};
ghost use Rattle.queues.specs.Queue.{Holds, cleared, lengthened, shortened, begun_at, followed, appended_run, appended, joined, Taken};

// A queue by where its words stand.
#[derive(Clone, Copy, Debug, PartialEq, Eq)]
pub struct QueueAt {
    pub ends: usize,
}

// The queue of the free slots.
pub const FREE: QueueAt = QueueAt {
    ends: words::FREE_AT,
};

impl QueueAt {
    // The queue is empty from now on.
    fn clear(self, m: &mut [u32])
        requires { Holds m.old self }
        ensures { m.new ≡ cleared m.old self.ends }
    {
        m[self.ends] = words::NONE;
        m[self.ends + words::LAST_OFFSET] = words::NONE;
        m[self.ends + words::LENGTH_OFFSET] = 0;
    }

    // The queue has n slots more.
    fn lengthen(self, m: &mut [u32], n: u32)
        requires { Holds m.old self }
        ensures { m.new ≡ lengthened m.old self.ends n }
    {
        let i = self.ends + words::LENGTH_OFFSET;
        m[i] = m[i].wrapping_add(n);
    }

    // The queue has a slot less.
    fn shorten(self, m: &mut [u32])
        requires { Holds m.old self }
        ensures { m.new ≡ shortened m.old self.ends }
    {
        let i = self.ends + words::LENGTH_OFFSET;
        m[i] = m[i].wrapping_sub(1);
    }

    // The queue's first is gone, and it begins at `next`; it is empty where that is no slot.
    #[tactic(auto, unfolding(crate::specs::Queue::begun_at))]
    fn begin_at(self, m: &mut [u32], z: words::Sizes, next: u32)
        requires { Holds m.old self }
        ensures { m.new ≡ begun_at m.old (sizes_of z) self.ends next }
    {
        if next < z.slots {
            m[self.ends] = next;
            self.shorten(m);
        } else {
            self.clear(m);
        }
    }

    // The slot follows the queue's last; it is the first where the queue is empty.
    #[tactic(auto, unfolding(crate::specs::Queue::followed))]
    fn follow(self, m: &mut [u32], z: words::Sizes, slot: u32)
        requires { (Lent m.old (sizes_of z)) × Holds m.old self }
        ensures { m.new ≡ followed m.old (sizes_of z) self.ends slot }
    {
        let last = m[self.ends + words::LAST_OFFSET];
        if last < z.slots {
            m[z.slot_address(last) + words::QUEUE_LINK_AT] = slot;
        } else {
            m[self.ends] = slot;
        }
    }

    // Whether the queue is empty.
    pub fn is_empty(self, m: &[u32], z: words::Sizes) -> bool
        requires { self.ends < length m.now }
        ensures { result ≡ not (ltb (at m.now self.ends) z.slots) }
    {
        m[self.ends] >= z.slots
    }

    // Appends n slots from `first` to `last`, which are linked already.
    #[tactic(auto, unfolding(crate::specs::Queue::appended_run))]
    fn append_run(self, m: &mut [u32], z: words::Sizes, first: u32, last: u32, n: u32)
        requires { (Lent m.old (sizes_of z)) × Holds m.old self }
        ensures { m.new ≡ appended_run m.old (sizes_of z) self.ends first last n }
    {
        self.follow(m, z, first);
        m[self.ends + words::LAST_OFFSET] = last;
        self.lengthen(m, n);
    }

    // Appends the slot. Its queue link is not written: it is none of a slot outside every queue.
    pub fn append(self, m: &mut [u32], z: words::Sizes, slot: u32)
        requires { (Lent m.old (sizes_of z)) × Holds m.old self }
        ensures { m.new ≡ appended m.old (sizes_of z) self.ends slot }
    {
        self.append_run(m, z, slot, slot, 1);
    }

    // Appends the whole queue `from`, and leaves that one empty.
    #[tactic(auto, unfolding(crate::specs::Queue::joined))]
    pub fn append_queue(self, m: &mut [u32], z: words::Sizes, from: QueueAt)
        requires { (Lent m.old (sizes_of z)) × (Holds m.old self × Holds m.old from) }
        ensures { m.new ≡ joined m.old (sizes_of z) self.ends from.ends }
    {
        let first = m[from.ends];
        if first < z.slots {
            let last = m[from.ends + words::LAST_OFFSET];
            let n = m[from.ends + words::LENGTH_OFFSET];
            self.append_run(m, z, first, last, n);
            from.clear(m);
        }
    }

    // Takes the first slot of the queue and answers its number. Where the queue is empty, the word in its place is the error.
    #[tactic(auto, unfolding(crate::specs::Queue::less_first))]
    pub fn take_first(self, m: &mut [u32], z: words::Sizes) -> Result<u32, u32>
        requires { (Lent m.old (sizes_of z)) × Holds m.old self }
        ensures { Taken m.old (sizes_of z) self.ends result m.new }
    {
        let first = m[self.ends];
        if first >= z.slots {
            return Err(first);
        }
        let i = z.slot_address(first) + words::QUEUE_LINK_AT;
        let next = m[i];
        m[i] = words::NONE;
        self.begin_at(m, z, next);
        Ok(first)
    }
}
