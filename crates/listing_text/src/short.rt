// A list of at most N elements, in the value itself, so that what holds one can be copied as a number is.
ghost use Rattle.std.specs.Prelude.{◌≡◌, ◌<◌, ◌↔◌, ◌++◌, ⊤, [], ◌∷◌, length, true, cond};

use std::alloc::AllocError;
use std::marker::Model;

// What stands in a cell that is not in use.
pub trait Blank: Copy {
    ghost blank: { Self };

    fn blank() -> Self
        ensures { result ≡ blank };
}

impl Blank for u8 {
    ghost blank = { 0 };

    fn blank() -> u8 {
        0
    }
}

impl Blank for u64 {
    ghost blank = { 0 };

    fn blank() -> u64 {
        0
    }
}

pub struct Short<T: Blank, const N: usize> {
    cells: [T; N],
    len: usize,
}

impl<T: Blank, const N: usize> Copy for Short<T, N> {}

impl<T: Blank, const N: usize> Clone for Short<T, N> {
    ghost is_clone = { λ a b. a ≡ b };

    ghost is_infallible = { λ _. ⊤ };

    fn clone(&self) -> Result<Self, AllocError> {
        Ok(*self)
    }
}

impl<T: Blank, const N: usize> Model for Short<T, N> {
    ghost use Rattle.std.specs.Prelude.{◌-◌, ◌++◌, List, length, take};
    ghost use Rattle.std.specs.Coded.{coded_list};
    ghost use lib.ListN.{replicate};
    ghost use Rattle.listing_text.specs.Padded.{Padded, cells_back, length_back};

    ghost Value = { List T };

    ghost coded = { coded_list T.code };

    ghost view = { λ v. take v.len v.cells };

    ghost invariant = { λ v. Padded N T.blank v.cells v.len };

    ghost inverse = { λ v. record { cells = v ++ replicate (N - length v) T.blank; len = length v } };

    ghost inverse_ok = { λ v h i. record { cells = cells_back h i; len = length_back h i } };
}

impl<T: Blank, const N: usize> Short<T, N> {
    pub fn new() -> Self
        ensures { result ≡ [] }
    {
        Short {
            cells: [T::blank(); N],
            len: 0,
        }
    }

    // One element more, where there is room.
    pub fn try_push(&mut self, x: T) -> bool
        ensures variant { result ≡ true ↔ (length self.old < N) }
        ensures items { self.new ≡ cond result (self.old ++ x ∷ []) self.old }
    {
        if self.len == N {
            return false;
        }
        self.cells[self.len] = x;
        self.len += 1;
        true
    }

    pub fn as_slice(&self) -> &[T]
        ensures { result.now ≡ self.now }
    {
        &self.cells[..self.len]
    }
}
