// The leaves of a set, one after the other.
ghost use Rattle.std.specs.Prelude.{◌≡◌};
ghost use Rattle.std.specs.Iterator.{YieldsFirst, item_count};
ghost use Rattle.nodeset.specs.Subsets.{singletons};
ghost use Rattle.stepping.specs.Next.{leaves_left};

use crate::Leaves;

impl Leaves {
    // Of a set, from the highest on.
    pub fn of(set: u64) -> Leaves
        ensures { leaves_left result ≡ singletons set }
    {
        Leaves { left: set }
    }
}

impl Iterator for Leaves {
    type Item = u64;

    ghost next_gives = { YieldsFirst leaves_left };

    ghost remaining = { item_count leaves_left };

    fn next(&mut self) -> Option<u64> {
        if self.left == 0 {
            return None;
        }
        let highest = nodeset::highest_singleton(self.left);
        self.left = nodeset::difference(self.left, highest);
        Some(highest)
    }
}
