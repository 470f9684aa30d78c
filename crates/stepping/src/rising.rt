// The subsets of a set, one after the other.
ghost use Rattle.std.specs.Prelude.{◌≡◌};
ghost use Rattle.std.specs.Iterator.{YieldsFirst, item_count};
ghost use Rattle.nodeset.specs.Subsets.{non_empty_subsets};
ghost use Rattle.stepping.specs.Next.{subsets_left};

use crate::Subsets;

impl Subsets {
    // Of a set, from the lowest on.
    pub fn of(set: u64) -> Subsets
        ensures { subsets_left result ≡ non_empty_subsets set }
    {
        Subsets { set, last: 0 }
    }
}

impl Iterator for Subsets {
    type Item = u64;

    ghost next_gives = { YieldsFirst subsets_left };

    ghost remaining = { item_count subsets_left };

    fn next(&mut self) -> Option<u64> {
        let next = nodeset::next_subset(self.last, self.set);
        if next == 0 {
            return None;
        }
        self.last = next;
        Some(next)
    }
}
