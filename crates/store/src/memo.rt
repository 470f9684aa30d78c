// The memo: a set and its plan at each of its first n places.
ghost use Rattle.std.specs.Prelude.{◌≡◌, take};
ghost use Rattle.store.specs.Memo.{spot, kept_of};

use crate::sets;
use nodeset::PlanId;

// The plan that the memo keeps for s.
// kept: n as in find, and shared slices, so that lists lent for reading alone will do.
pub fn kept_plan(mset: &[u64], mplan: &[u32], n: u32, s: u64) -> Option<PlanId>
    ensures { result ≡ kept_of mplan.now (spot 0 (take n mset.now) s) }
{
    let i = sets::find(mset, n, s)?;
    Some(PlanId(places::at(mplan, i, 0)))
}
