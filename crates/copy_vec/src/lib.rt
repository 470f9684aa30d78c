// A vector of at most CAP elements, which lie in the value itself and are copied with it: what the kit's ArrayVec is not. Its count may be greater
// than CAP: then all CAP places hold elements, and what it counts beyond them has no place.
#![tactic(auto)]

mod cells;

ghost use Rattle.std.specs.Prelude.{◌≡◌, [], ◌+◌, ◌<◌, ◌≤◌, length, min, replicate};
ghost use Rattle.copy_vec.specs.CopyVec.{count_of, counted, pushed, shortened};

use cells::Cells;
use std::marker::Model;

// The first len places of the array count, or all where it has fewer.
#[derive(Clone, Copy, Drop)]
pub struct CopyVec<T, const CAP: usize> {
    cells: Cells<T, CAP>,
    len: usize,
}

impl<T, const CAP: usize> Model for CopyVec<T, CAP> {
    ghost use Rattle.std.specs.Prelude.{◌≡◌, ◌+◌, ◌-◌, ◌++◌, length, take, drop};
    ghost use Rattle.std.proofs.Common.{take-append-drop};
    ghost use Rattle.copy_vec.specs.CopyVec.{CopyVec as Items};
    ghost use Rattle.copy_vec.specs.Laws.{parts_counted};

    ghost Value = { Items T };

    ghost view = { λ v. record { items = take v.len v.cells.xs; spare = drop v.len v.cells.xs; beyond = v.len - CAP } };

    ghost invariant = { λ v. length v.cells.xs ≡ CAP };

    ghost inverse = { λ v. record { cells = record { xs = v.items ++ v.spare }; len = length v.items + v.beyond } };

    ghost inverse_ok = { λ v h i. record {
      cells = record { xs = take-append-drop v.len v.cells.xs i };
      len = parts_counted v.len v.cells.xs h i;
    } };
}

impl<T: Copy, const CAP: usize> CopyVec<T, CAP> {
    // No element; each place holds the blank.
    pub fn new(blank: T) -> Self
        ensures items { result.items ≡ [] }
        ensures spare { result.spare ≡ replicate CAP blank }
        ensures beyond { result.beyond ≡ 0 }
    {
        CopyVec {
            cells: Cells { xs: [blank; CAP] },
            len: 0,
        }
    }

    // The count: how many elements there are, and how many are counted beyond them, which is none unless the count is greater than CAP.
    pub fn count(&self) -> usize
        ensures value { result ≡ count_of self.now }
        ensures elements { length self.now.items ≡ min result CAP }
    {
        self.len() + self.len.saturating_sub(CAP)
    }

    // Counts n: the first n places, or all where they are fewer, and the others of n beyond them. What the places hold stays.
    pub fn set_count(&mut self, n: usize)
        ensures counted { self.new ≡ counted n self.old }
        ensures elements { length self.new.items ≡ min n CAP }
        ensures count { count_of self.new ≡ n }
    {
        self.len = n;
    }

    // How many elements there are.
    pub fn len(&self) -> usize
        ensures value { result ≡ length self.now.items }
        ensures fits { result ≤ CAP }
        ensures count { result ≡ min (count_of self.now) CAP }
    {
        self.len.min(CAP)
    }

    // The elements.
    pub fn as_slice(&self) -> &[T]
        ensures value { result.now ≡ self.now.items }
        ensures fits { length result.now ≤ CAP }
    {
        let n = self.len();
        &self.cells.xs[..n]
    }

    // One element more. There must be room.
    pub fn push(&mut self, element: T)
        requires { length self.old.items < CAP }
        ensures pushed { self.new ≡ pushed element self.old }
        ensures count { count_of self.new ≡ count_of self.old + 1 }
    {
        let len = self.len;
        self.cells.xs[len] = element;
        self.len = len + 1;
    }

    // The first len elements alone. Where that is all of them, nothing changes.
    pub fn truncate(&mut self, len: usize)
        requires { len ≤ length self.old.items }
        ensures { self.new ≡ shortened len self.old }
    {
        if len < self.len() {
            self.len = len;
        }
    }
}
