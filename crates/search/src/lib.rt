// The search as a whole: the leaves' plans and memo entries, both passes from them, and how it ended. The stores are as in crate candidate.
#![tactic(auto)]

ghost use Rattle.std.specs.Prelude.{◌≡◌, ◌<◌, ◌≤◌, length, map, take};
ghost use Rattle.nodeset.specs.Sets.{all_below};
ghost use Rattle.definition.specs.Search.{search};
ghost use Rattle.cost.specs.View.{leaf_of, estimate_of};
ghost use Rattle.store.specs.Counts.{stop_number};
ghost use Rattle.store.specs.Memo.{spot, kept_of};
ghost use Rattle.candidate.specs.Store.{store, leaf_written};
ghost use Rattle.candidate.specs.Lent.{given_of, lists_of, SameLists};
ghost use Rattle.held.specs.Held.{input_for, holding};
ghost use Rattle.held.specs.LeavesHeld.{leaves_written};
ghost use Rattle.search.specs.View.{ending_number, chosen_of, ending_of, unplanned_of, Ready, Ends};

use candidate::{Candidate, Place};
use cost::{Estimate, Leaf};
use nodeset::{LEAF, NONE, NodeId, PlanId};
use store::{DPhyp, Input, Lists, Stop};

// Why no plan is chosen: none is kept for the set of all leaves, or what stopped the search.
// kept: both are reasons; an Option of the stop would have none for the first.
#[derive(Clone, Copy, Debug, PartialEq, Eq)]
pub enum Unplanned {
    NoPlan,
    Stopped(Stop),
}

impl From<Stop> for Unplanned {
    ghost from_gives = { λ s e. e ≡ unplanned_of s };

    fn from(stop: Stop) -> Unplanned {
        Unplanned::Stopped(stop)
    }
}

// How a search ended: the chosen plan, or why there is none.
pub type Ending = Result<PlanId, Unplanned>;

// Document 01's number for it. A stop that no search has is no answer, and has the number that means none.
// kept: a match, since a stop has a number of its own.
pub fn number(ending: Ending) -> u32
    ensures { result ≡ ending_number ending }
{
    match ending {
        Ok(_) => 0,
        Err(Unplanned::NoPlan) => 15,
        Err(Unplanned::Stopped(Stop::Other(_))) => NONE,
        Err(Unplanned::Stopped(stop)) => stop.number(),
    }
}

// The chosen plan's number, or the number that means none.
// kept: an answer's number for none, as in the lent lists.
pub fn chosen(ending: Ending) -> u32
    ensures { result ≡ chosen_of ending }
{
    ending.map_or(NONE, |p| p.0)
}

// What a search left: its counts, and how it ended.
#[derive(Drop)]
pub struct Searched {
    pub counts: DPhyp,
    pub ending: Ending,
}

// Writes the plan and the memo entry of leaf k.
fn write_leaf(l: &mut Lists<'_>, k: NodeId, e: Estimate)
    requires { k.0 < 64 }
    ensures same { SameLists l.old l.new }
    ensures value { lists_of l.new ≡ leaf_written (lists_of l.old) k.0 (estimate_of e) }
{
    let at = k.0;
    let set = nodeset::nodeset_singleton(k);
    let c = Candidate {
        set,
        left: PlanId(at),
        right: PlanId(at),
        lead: NONE,
        kind: LEAF,
        estimate: e,
        place: Place {
            position: at,
            best: PlanId(at),
            entries: at + 1,
        },
    };
    places::put(l.mset, at, set);
    candidate::write(l, at, c);
}

// Writes the plan and the memo entry of each leaf.
fn write_leaves(leaves: &[Leaf], l: &mut Lists<'_>)
    requires { length leaves.now ≤ 64 }
    ensures same { SameLists l.old l.new }
    ensures value { lists_of l.new ≡ leaves_written 0 (map leaf_of leaves.now) (lists_of l.old) }
{
    for (k, leaf) in leaves.iter().enumerate() {
        let e = cost::leaf_estimate(*leaf);
        write_leaf(l, NodeId(k as u32), e);
    }
}

// How a search that left the counts p ended.
fn ended(l: &Lists<'_>, leaves: u32, p: DPhyp) -> Ending
    ensures { result ≡ ending_of p.stop (kept_of l.now.mplan.now (spot 0 (take p.memo l.now.mset.now) (all_below leaves))) }
{
    let all = nodeset::all_nodes_mask(leaves);
    match p.stop {
        None | Some(Stop::Other(_)) => store::kept_plan(l.mset, l.mplan, p.memo, all).ok_or(
            Unplanned::NoPlan,
        ),
        Some(stop) => Err(Unplanned::from(stop)),
    }
}

// The search over these leaves.
pub fn search(g: &Input<'_>, leaves: &[Leaf], l: &mut Lists<'_>) -> Searched
    requires { Ready (given_of g.now) (lists_of l.old) (length leaves.now) }
    ensures same { SameLists l.old l.new }
    ensures held { store (lists_of l.new) result.counts
        ≡ holding (lists_of l.old) (search (input_for (given_of g.now) (map leaf_of leaves.now) g.now.limit)) }
    ensures stop { stop_number result.counts.stop ≡ (search (input_for (given_of g.now) (map leaf_of leaves.now) g.now.limit)).stop }
    ensures ending { Ends (input_for (given_of g.now) (map leaf_of leaves.now) g.now.limit) result.ending }
{
    write_leaves(leaves, l);
    let count = leaves.len() as u32;
    let counts = passes::solve(g, l, count);
    let ending = ended(l, count, counts);
    Searched { counts, ending }
}
