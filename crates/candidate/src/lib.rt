// A plan and what the memo is to name for its set, and how both are written into the lent lists. What lies past a list's end is not written, so
// that no function asks for room.
#![tactic(auto)]

ghost use Rattle.std.specs.Prelude.{◌≡◌};
ghost use Rattle.candidate.specs.Store.{written};
ghost use Rattle.candidate.specs.Lent.{lists_of, SameLists};

use cost::Estimate;
use nodeset::PlanId;
use store::Lists;

// The memo's entry for a plan's set: its position, the plan that it is to name, and the number of entries with it.
#[derive(Clone, Copy)]
pub struct Place {
    pub position: u32,
    pub best: PlanId,
    pub entries: u32,
}

// A plan to be written, a candidate's or a leaf's.
// kept: its lead edge and its kind are numbers, as the lent lists hold them.
#[derive(Drop)]
pub struct Candidate {
    pub set: u64,
    pub left: PlanId,
    pub right: PlanId,
    pub lead: u32,
    pub kind: u32,
    pub estimate: Estimate,
    pub place: Place,
}

// Writes the candidate, plan number at, and the plan that the memo is to name. The entry's set stands there already.
pub fn write(l: &mut Lists<'_>, at: u32, c: Candidate)
    ensures same { SameLists l.old l.new }
    ensures value { lists_of l.new ≡ written (lists_of l.old) at c }
{
    let place = c.place;
    let k = place.position;
    let e = c.estimate;
    places::put(l.pset, at, c.set);
    places::put(l.pleft, at, c.left.0);
    places::put(l.pright, at, c.right.0);
    places::put(l.plead, at, c.lead);
    places::put(l.pkind, at, c.kind);
    places::put(l.prows, at, e.rows);
    places::put(l.pcost, at, e.cost);
    places::put(l.mplan, k, place.best.0);
}
