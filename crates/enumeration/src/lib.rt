// The first of the search's two passes: solve, emit_csg, enumerate_csg_rec, enumerate_cmp_rec and emit_csg_cmp of join_ordering.rs, over the
// edges' two sides and the memo's sets. It lists the candidates, by three positions in the memo each, and is lent no row count, no selectivity
// and no cost. What each function ensures is one equation of whole stores: the lists and counts at exit are the definition's walk of those at
// entry; and that the index is still that of the memo's sets. A stop ends each loop. Arguments: the numbers that bound the search (b), the edges (graph), the lent lists and the counts (l).
#![tactic(auto)]

mod cmp;
mod csg;
mod emit;
mod lists;
mod pair;

ghost use Rattle.std.specs.Prelude.{◌≡◌, true};
ghost use Rattle.graph.specs.View.{edges_with};
ghost use Rattle.enumeration.specs.Store.{kept, HasLeaves};
ghost use Rattle.enumeration.specs.Lent.{store_of, SameLists, Indexed};
ghost use Rattle.enumeration.specs.Walks.{solve_leaf, solve};

use graph::Graph;
use nodeset::NodeId;
use store::DPhyp;

// How many leaves there are, how many plans and memo entries the stores may hold, and how many visits may be made.
#[derive(Clone, Copy)]
pub struct Bounds {
    pub leaves: u32,
    pub plan_room: u32,
    pub memo_room: u32,
    pub limit: u32,
}

// A set that the memo has, and its position there.
#[derive(Clone, Copy)]
pub struct Entry {
    pub set: u64,
    pub position: u32,
}

// What the enumeration writes: the memo's sets with their index, and three places of the plan store for each candidate, which hold the positions
// of its left set, its right set and their union in the memo until the candidate is costed.
// kept: parallel lists, as the caller lends them.
#[derive(Drop)]
pub struct OpenLists<'a> {
    pub pleft: &'a mut [u32],
    pub pright: &'a mut [u32],
    pub plead: &'a mut [u32],
    pub mset: &'a mut [u64],
    pub index: &'a mut [u32],
    pub counts: DPhyp,
}

// What starts from one leaf, as the set s1, which the memo has; x: all leaves up to it.
fn solve_leaf(b: Bounds, graph: &Graph<'_>, l: &mut OpenLists<'_>, s1: u64, x: u64)
    requires index { Indexed b l.old }
    requires leaf { kept (store_of l.old) s1 ≡ true }
    ensures same { SameLists l.old l.new }
    ensures value { store_of l.new ≡ solve_leaf (edges_with graph.now.edges) b s1 x (store_of l.old) }
    ensures index { Indexed b l.new }
{
    csg::emit_kept(b, graph, l, s1);
    let m = graph::neighborhood(graph, s1, x);
    if m == 0 {
        return;
    }
    csg::enumerate_csg_rec(b, graph, l, b.leaves, s1, x, m);
}

// The enumeration from the highest leaf down. The leaves' memo entries are written before.
pub fn solve(b: Bounds, graph: &Graph<'_>, l: &mut OpenLists<'_>)
    requires index { Indexed b l.old }
    requires leaves { HasLeaves b (store_of l.old) }
    ensures same { SameLists l.old l.new }
    ensures value { store_of l.new ≡ solve (edges_with graph.now.edges) b (store_of l.old) }
    ensures index { Indexed b l.new }
{
    for j in (0..b.leaves).rev() {
        if l.counts.stop.is_some() {
            break;
        }
        let s1 = nodeset::nodeset_singleton(NodeId(j));
        let x = nodeset::all_nodes_mask(j + 1);
        solve_leaf(b, graph, l, s1, x);
    }
}
