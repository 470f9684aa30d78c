// emit_csg: the connected set s1 is paired with what grows from each of its neighbours.
ghost use Rattle.std.specs.Prelude.{◌≡◌};
ghost use Rattle.graph.specs.View.{edges_with};
ghost use Rattle.enumeration.specs.Lent.{store_of, SameLists, Indexed, Ready};
ghost use Rattle.enumeration.specs.Walks.{try_neighbor, emit_csg};

use crate::{Bounds, Entry, OpenLists, cmp, pair};
use graph::Graph;
use stepping::Leaves;

// The neighbour v of s1 by itself, then grown.
fn try_neighbor(b: Bounds, graph: &Graph<'_>, l: &mut OpenLists<'_>, s1: Entry, x: u64, v: u64)
    requires { Ready b l.old s1 }
    ensures same { SameLists l.old l.new }
    ensures value { store_of l.new ≡ try_neighbor (edges_with graph.now.edges) b s1.set x v (store_of l.old) }
    ensures index { Indexed b l.new }
{
    pair::emit_csg_cmp(b, graph, l, s1, v);
    let m = graph::neighborhood(graph, v, x);
    if m == 0 {
        return;
    }
    cmp::enumerate_cmp_rec(b, graph, l, b.leaves, s1, v, x, m);
}

// Pairs s1 with what grows from each of its neighbours, the highest first.
#[tactic(auto, using(stepping::proofs::Stepping::loop_next, stepping::proofs::Stepping::loop_end))]
pub fn emit_csg(b: Bounds, graph: &Graph<'_>, l: &mut OpenLists<'_>, s1: Entry)
    requires { Ready b l.old s1 }
    ensures same { SameLists l.old l.new }
    ensures value { store_of l.new ≡ emit_csg (edges_with graph.now.edges) b s1.set (store_of l.old) }
    ensures index { Indexed b l.new }
{
    let x = s1.set | nodeset::b_min(s1.set);
    let m = graph::neighborhood(graph, s1.set, x);
    for v in Leaves::of(m) {
        if l.counts.stop.is_some() {
            break;
        }
        try_neighbor(b, graph, l, s1, x, v);
    }
}
