// The slots of a lent memory: where slot 0's words begin, and how many slots there are.
ghost use Rattle.std.specs.Prelude.{◌≡◌, ◌+◌, ◌-◌, ◌*◌, ◌<◌, ◌≤◌, length, drop};
ghost use Rattle.model.specs.Layout.{slot_length};
ghost use Rattle.model.specs.Memory.{at};
ghost use Rattle.distinct_codes.specs.Cells.{code_at};

// They lie in the memory; where there is none, their words may begin anywhere.
#[derive(Clone, Copy)]
pub struct Slots<'a> {
    pub memory: &'a [u32],
    pub base: usize,
    pub count: u32,
    ghost within: { slot_length * count ≤ length memory.now - base },
}

impl<'a> Slots<'a> {
    // A word of slot i.
    pub fn word(self, i: usize, offset: usize) -> u32
        requires { (i < self.count) × (offset < slot_length) }
        ensures { result ≡ at self.entry.memory.now (self.entry.base + slot_length * i + offset) }
    {
        self.memory[self.base + words::SLOT_LENGTH * i + offset]
    }

    // The code of slot i.
    pub fn code(self, i: usize) -> u64
        requires { i < self.count }
        ensures { result ≡ code_at self.entry.memory.now self.entry.base i }
    {
        words::code_at(self.memory, self.base + words::SLOT_LENGTH * i)
    }
}

// Slots whose words begin in the memory, also where there is none.
#[derive(Clone, Copy)]
pub struct SlotsInMemory<'a> {
    pub memory: &'a [u32],
    pub base: usize,
    pub count: u32,
    ghost within: { base + slot_length * count ≤ length memory.now },
}

impl<'a> SlotsInMemory<'a> {
    // The same slots, for what asks no more of them.
    pub fn slots(self) -> Slots<'a>
        ensures memory { result.memory.now ≡ self.entry.memory.now }
        ensures base { result.base ≡ self.entry.base }
        ensures count { result.count ≡ self.entry.count }
    {
        Slots {
            memory: self.memory,
            base: self.base,
            count: self.count,
        }
    }

    // The memory from slot 0 on.
    pub fn words(self) -> &'a [u32]
        ensures { result.now ≡ drop self.entry.base self.entry.memory.now }
    {
        &self.memory[self.base..]
    }
}

#[cfg(test)]
mod tests {
    use super::*;

    const MEMORY: [u32; 13] = [0, 1, 2, 3, 4, 5, 6, 7, 8, 9, 10, 11, 12];

    #[test]
    fn one_slot(rt: HostRuntime) {
        let one = SlotsInMemory {
            memory: &MEMORY,
            base: 2,
            count: 1,
        };
        assert_eq!(rt; one.words(), &MEMORY[2..]);
        let slots = one.slots();
        assert_eq!(rt; slots.memory, &MEMORY[..]);
        assert_eq!(rt; slots.base, 2);
        assert_eq!(rt; slots.count, 1);
    }

    #[test]
    fn none_at_the_end(rt: HostRuntime) {
        let none = SlotsInMemory {
            memory: &MEMORY,
            base: 13,
            count: 0,
        };
        assert!(rt; none.words().is_empty());
        assert_eq!(rt; none.slots().base, 13);
    }
}
