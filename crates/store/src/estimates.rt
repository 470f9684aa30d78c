// A plan's rows and cost, each in its list.
ghost use Rattle.std.specs.Prelude.{◌≡◌};
ghost use Rattle.cost.specs.View.{estimate_of};
ghost use Rattle.store.specs.Estimates.{estimate_at};

use cost::Estimate;
use nodeset::PlanId;

// 0 past a list's end.
// kept: the definition reads 0 there.
// kept: shared slices, so that lists lent for reading alone will do.
pub fn estimate_at(prows: &[f64], pcost: &[f64], p: PlanId) -> Estimate
    ensures { estimate_of result ≡ estimate_at prows.now pcost.now p.0 }
{
    Estimate {
        rows: places::at(prows, p.0, 0.0),
        cost: places::at(pcost, p.0, 0.0),
    }
}
