// enumerate_csg_rec: the connected set s1 grows, and each set that it grows to and that the memo has is paired.
ghost use Rattle.std.specs.Prelude.{◌≡◌};
ghost use Rattle.definition.specs.Hypergraph.{neighborhood};
ghost use Rattle.graph.specs.View.{edges_with};
ghost use Rattle.enumeration.specs.Lent.{store_of, SameLists, Indexed};
ghost use Rattle.enumeration.specs.Walks.{emit_kept, visit_emits, enumerate_csg_rec};

use crate::{Bounds, Entry, OpenLists, emit, lists};
use graph::Graph;
use stepping::Subsets;

// What starts from c, if the memo has it.
#[tactic(auto, unfolding(crate::specs::Walks::emit_kept, crate::specs::Walks::emit_csg))]
pub fn emit_kept(b: Bounds, graph: &Graph<'_>, l: &mut OpenLists<'_>, c: u64)
    requires { Indexed b l.old }
    ensures same { SameLists l.old l.new }
    ensures value { store_of l.new ≡ emit_kept (edges_with graph.now.edges) b c (store_of l.old) }
    ensures index { Indexed b l.new }
{
    let Some(position) = lists::find(b, l, c) else {
        return;
    };
    let s1 = Entry { set: c, position };
    emit::emit_csg(b, graph, l, s1);
}

// The first pass of enumerate_csg_rec, over the subsets of m.
#[tactic(auto, using(stepping::proofs::Stepping::loop_next, stepping::proofs::Stepping::loop_end))]
fn visit_emits(b: Bounds, graph: &Graph<'_>, l: &mut OpenLists<'_>, s1: u64, m: u64)
    requires { Indexed b l.old }
    ensures same { SameLists l.old l.new }
    ensures value { store_of l.new ≡ visit_emits (edges_with graph.now.edges) b s1 m (store_of l.old) }
    ensures index { Indexed b l.new }
{
    // kept: as in visit_tries
    for t in Subsets::of(m) {
        if l.counts.stop.is_some() {
            break;
        }
        lists::visit(b, l);
        emit_kept(b, graph, l, s1 | t);
    }
}

// Grows s1 by its neighbours m outside x. d: how much deeper it may go. No call is made where there are no neighbours.
// kept: two functions, as in the Rust (the other is enumerate_cmp_rec); one for both would take two closures that write to the lent lists.
#[tactic(auto, using(stepping::proofs::Stepping::loop_next, stepping::proofs::Stepping::loop_end))]
pub fn enumerate_csg_rec(
    b: Bounds,
    graph: &Graph<'_>,
    l: &mut OpenLists<'_>,
    d: u32,
    s1: u64,
    x: u64,
    m: u64,
)
    requires neighbors { m ≡ neighborhood (edges_with graph.now.edges) s1 x }
    requires index { Indexed b l.old }
    ensures same { SameLists l.old l.new }
    ensures value { store_of l.new ≡ enumerate_csg_rec (edges_with graph.now.edges) b d s1 x (store_of l.old) }
    ensures index { Indexed b l.new }
{
    if d == 0 {
        return;
    }
    let deeper = d - 1;
    let y = x | m;
    visit_emits(b, graph, l, s1, m);
    for t in Subsets::of(m) {
        if l.counts.stop.is_some() {
            break;
        }
        lists::visit(b, l);
        let c = s1 | t;
        let n = graph::neighborhood(graph, c, y);
        if n == 0 {
            continue;
        }
        enumerate_csg_rec(b, graph, l, deeper, c, y, n);
    }
}
