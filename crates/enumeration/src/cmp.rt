// enumerate_cmp_rec: a connected set s1 stands, and the other set of the pair grows.
ghost use Rattle.std.specs.Prelude.{◌≡◌};
ghost use Rattle.definition.specs.Hypergraph.{neighborhood};
ghost use Rattle.graph.specs.View.{edges_with};
ghost use Rattle.enumeration.specs.Lent.{store_of, SameLists, Indexed, Ready};
ghost use Rattle.enumeration.specs.Walks.{visit_tries, enumerate_cmp_rec};

use crate::{Bounds, Entry, OpenLists, lists, pair};
use graph::Graph;
use stepping::Subsets;

// The first pass of enumerate_cmp_rec, over the subsets of m.
#[tactic(auto, using(stepping::proofs::Stepping::loop_next, stepping::proofs::Stepping::loop_end))]
fn visit_tries(b: Bounds, graph: &Graph<'_>, l: &mut OpenLists<'_>, s1: Entry, s2: u64, m: u64)
    requires { Ready b l.old s1 }
    ensures same { SameLists l.old l.new }
    ensures value { store_of l.new ≡ visit_tries (edges_with graph.now.edges) b s1.set s2 m (store_of l.old) }
    ensures index { Indexed b l.new }
{
    // kept: the four loops over subsets are not one function over closures, since each closure would state its step's contract once more
    for t in Subsets::of(m) {
        if l.counts.stop.is_some() {
            break;
        }
        lists::visit(b, l);
        pair::emit_csg_cmp(b, graph, l, s1, s2 | t);
    }
}

// Grows s2 by its neighbours m outside x. d: how much deeper it may go. No call is made where there are no neighbours.
// kept: two functions, as in the Rust (the other is enumerate_csg_rec); one for both would take two closures that write to the lent lists.
#[tactic(auto, using(stepping::proofs::Stepping::loop_next, stepping::proofs::Stepping::loop_end))]
pub fn enumerate_cmp_rec(
    b: Bounds,
    graph: &Graph<'_>,
    l: &mut OpenLists<'_>,
    d: u32,
    s1: Entry,
    s2: u64,
    x: u64,
    m: u64,
)
    requires neighbors { m ≡ neighborhood (edges_with graph.now.edges) s2 x }
    requires ready { Ready b l.old s1 }
    ensures same { SameLists l.old l.new }
    ensures value { store_of l.new ≡ enumerate_cmp_rec (edges_with graph.now.edges) b d s1.set s2 x (store_of l.old) }
    ensures index { Indexed b l.new }
{
    if d == 0 {
        return;
    }
    let deeper = d - 1;
    let y = x | m;
    visit_tries(b, graph, l, s1, s2, m);
    for t in Subsets::of(m) {
        if l.counts.stop.is_some() {
            break;
        }
        lists::visit(b, l);
        let c = s2 | t;
        let n = graph::neighborhood(graph, c, y);
        if n == 0 {
            continue;
        }
        enumerate_cmp_rec(b, graph, l, deeper, s1, c, y, n);
    }
}
