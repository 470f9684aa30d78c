// The state of edge building, after HypergraphBuilder of hypergraph.rs: the leaves, the joins and the pile so far. Edges are written straight
// to the caller's lists; the builder says how many of their places count.
#![tactic(auto)]

ghost use Rattle.std.specs.Prelude.{◌≡◌, List, [], ◌∷◌, ◌++◌, ℕ, ◌+◌, ◌-◌, ◌<◌, ◌≤◌, length, get_or};
ghost use Rattle.definition.specs.Edges.{edge_of};
ghost use Rattle.ses.specs.View.{Fit, columns_at};
ghost use Rattle.tes.specs.Views.{sides_of, join_of};
ghost use Rattle.copy_vec.specs.CopyVec.{count_of};
ghost use Rattle.builder.specs.Builds.{empty, edge_lists_of, SameEdgeLists, edges_in, predicate_number, build_of, ForAllLists};
ghost use Rattle.builder.specs.Builds.{with_leaf, with_record, more_edges, one_join, one_leaf, Longer, Added, RoomFor, LeavesFit};

use copy_vec::CopyVec;
use nodeset::{NONE, NodeId, PredicateId};
use sheet::Range;
use tes::{JoinRecord, Sides};

// The caller's lists, one for each field of an edge.
// kept: parallel lists, as the caller lends them.
#[derive(Drop)]
pub struct EdgeLists<'a> {
    pub left: &'a mut [u64],
    pub right: &'a mut [u64],
    pub predicate: &'a mut [u32],
    pub source: &'a mut [u32],
    pub kind: &'a mut [u32],
}

// Edge e of the lists, for one who keeps no builder: what add_edge writes.
// kept: any number was taken as a type, and is written as it is: an enum would ask more of callers. SameEdgeLists and Added speak of before and
// after, which no fact of a type does.
#[tactic(auto, using(crate::specs::Laws::edges_more))]
pub fn write_edge(
    lists: &mut EdgeLists<'_>,
    e: usize,
    x: Sides,
    p: Option<PredicateId>,
    k: u32,
    t: u32,
)
    requires { Longer (e + 1) (edge_lists_of lists.old) }
    ensures same { SameEdgeLists lists.old lists.new }
    ensures edges { edges_in (e + 1) (edge_lists_of lists.new)
        ≡ edges_in e (edge_lists_of lists.old) ++ (edge_of (sides_of x) (predicate_number p) k t ∷ []) }
    ensures rest { Added e (e + 1) (edge_lists_of lists.old) (edge_lists_of lists.new) }
{
    lists.left[e] = x.left;
    lists.right[e] = x.right;
    lists.predicate[e] = p.map_or(NONE, |p| p.0);
    lists.source[e] = k;
    lists.kind[e] = t;
}

// How many edges there are, the range of columns of each leaf, the joins so far, and the pile, its top last, each thing on it as its set of
// leaves. It may count more leaves, joins or things on the pile than the 64 places that it has for each (CopyVec::set_count).
#[derive(Clone, Copy, Drop)]
pub struct HypergraphBuilder {
    pub edges: usize,
    pub leaves: CopyVec<Range, 64>,
    pub joins: CopyVec<JoinRecord, 64>,
    pub pile: CopyVec<u64, 64>,
}

impl HypergraphBuilder {
    // How many edges there are places for.
    pub const EDGES: u64 = 256;

    pub fn new() -> Self
        ensures { result ≡ empty }
    {
        Self {
            edges: 0,
            leaves: CopyVec::new(Range::default()),
            joins: CopyVec::new(JoinRecord::default()),
            pile: CopyVec::new(0),
        }
    }

    // One edge more: its sides, its predicate, its source item and its type.
    pub fn add_edge(
        &mut self,
        lists: &mut EdgeLists<'_>,
        x: Sides,
        p: Option<PredicateId>,
        k: u32,
        t: u32,
    )
        requires { Longer (self.old.edges + 1) (edge_lists_of lists.old) }
        ensures same { SameEdgeLists lists.old lists.new }
        ensures counts { self.new ≡ more_edges 1 self.old }
        ensures edges { edges_in (self.old.edges + 1) (edge_lists_of lists.new)
            ≡ edges_in self.old.edges (edge_lists_of lists.old) ++ (edge_of (sides_of x) (predicate_number p) k t ∷ []) }
        ensures rest { Added self.old.edges (self.old.edges + 1) (edge_lists_of lists.old) (edge_lists_of lists.new) }
    {
        let e = self.edges;
        write_edge(lists, e, x, p, k, t);
        self.edges = e + 1;
    }

    // The sides of the join that takes the two top things off the pile: the right one lies on the left one.
    pub fn top_two(&self) -> Sides
        requires { 2 ≤ length self.now.pile.items }
        ensures left { result.left ≡ get_or self.now.pile.items (length self.now.pile.items - 2) 0 }
        ensures right { result.right ≡ get_or self.now.pile.items (length self.now.pile.items - 1) 0 }
    {
        let pile = self.pile.as_slice();
        let n = pile.len();
        Sides {
            left: pile[n - 2],
            right: pile[n - 1],
        }
    }

    // The record of a join of the two top things on the pile, and the join in their place.
    #[tactic(auto, using(crate::specs::Laws::record_built))]
    pub fn add_join(&mut self, j: JoinRecord)
        requires { RoomFor self.old }
        ensures counts { self.new ≡ one_join j self.old }
        ensures tally { (count_of self.new.joins ≡ count_of self.old.joins + 1)
            × ((count_of self.old.pile ≤ 64) → count_of self.new.pile ≡ count_of self.old.pile - 2 + 1) }
        ensures built { ForAllLists (λ sheet e. build_of sheet self.new e ≡ with_record (join_of j) (build_of sheet self.old e)) }
        ensures leaves { (sheet : List ℕ) → LeavesFit sheet self.old → LeavesFit sheet self.new }
    {
        let top = self.pile.len() - 2;
        self.joins.push(j);
        self.pile.truncate(top);
        self.pile.push(j.left_nodes | j.right_nodes);
    }

    // One leaf more, with its range of columns.
    pub fn add_leaf(&mut self, p: Range)
        requires { (length self.old.leaves.items < 64) × (length self.old.pile.items < 64) }
        ensures counts { self.new ≡ one_leaf p self.old }
        ensures tally { (count_of self.new.leaves ≡ count_of self.old.leaves + 1) × (count_of self.new.pile ≡ count_of self.old.pile + 1) }
        ensures built { ForAllLists (λ sheet e. build_of sheet self.new e
            ≡ with_leaf (length self.old.leaves.items) (columns_at sheet p.first p.count) (build_of sheet self.old e)) }
        ensures leaves { (sheet : List ℕ) → LeavesFit sheet self.old → Fit sheet p.first p.count → LeavesFit sheet self.new }
    {
        let leaf = NodeId(self.leaves.len() as u32);
        self.leaves.push(p);
        self.pile.push(nodeset::nodeset_singleton(leaf));
    }
}
