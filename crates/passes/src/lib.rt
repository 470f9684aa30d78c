// The search in two passes: the enumeration lists the candidates, then the costing makes them plans, after every ending of the first. The leaves'
// plans and memo entries are written before.
#![tactic(auto)]

mod leaf_index;

ghost use Rattle.std.specs.Prelude.{◌≡◌};
ghost use Rattle.candidate.specs.Store.{store};
ghost use Rattle.candidate.specs.Lent.{given_of, lists_of, SameLists};
ghost use Rattle.passes.specs.Passes.{Begun, enumerated, both_passes};

use connectivity::EdgeSides;
use enumeration::{Bounds, OpenLists};
use graph::Graph;
use store::{DPhyp, Input, Lists};

// The first pass. The memo's index is the call's own.
fn enumerate(g: &Input<'_>, l: &mut Lists<'_>, leaves: u32) -> DPhyp
    requires { Begun (given_of g.now) (lists_of l.old) leaves }
    ensures same { SameLists l.old l.new }
    ensures value { store (lists_of l.new) result ≡ enumerated (given_of g.now) g.now.limit leaves (lists_of l.old) }
{
    let mut index = [0; 1024];
    leaf_index::index_leaves(&mut index, leaves);
    let graph = Graph::of(EdgeSides {
        left: g.edges.left,
        right: g.edges.right,
    });
    let bounds = Bounds {
        leaves,
        plan_room: g.plan_room,
        memo_room: g.memo_room,
        limit: g.limit,
    };
    let mut lists = OpenLists {
        pleft: l.pleft,
        pright: l.pright,
        plead: l.plead,
        mset: l.mset,
        index: &mut index,
        counts: DPhyp::new(leaves),
    };
    enumeration::solve(bounds, &graph, &mut lists);
    lists.counts
}

// Both passes.
pub fn solve(g: &Input<'_>, l: &mut Lists<'_>, leaves: u32) -> DPhyp
    requires { Begun (given_of g.now) (lists_of l.old) leaves }
    ensures same { SameLists l.old l.new }
    ensures value { store (lists_of l.new) result ≡ both_passes (given_of g.now) g.now.limit leaves (lists_of l.old) }
{
    let p = enumerate(g, l, leaves);
    costing::cost_candidates(g, l, leaves, p.plans);
    p
}
