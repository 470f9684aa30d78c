// A join's sides, its edges and its record.
#![tactic(auto)]

ghost use Rattle.std.specs.Prelude.{◌≡◌, List, ℕ, ◌+◌, ◌<◌, ◌≤◌, length, drop};
ghost use Rattle.definition.specs.Question.{open_question};
ghost use Rattle.definition.specs.Sheet.{question_of};
ghost use Rattle.definition.specs.Tables.{type_of};
ghost use Rattle.definition.specs.Edges.{sides_for, cross_item, join_item};
ghost use Rattle.sheet.specs.Views.{range_of};
ghost use Rattle.ses.specs.View.{Named, columns_of};
ghost use Rattle.tes.specs.Views.{sides_of};
ghost use Rattle.builder.specs.Builds.{edge_lists_of, SameEdgeLists, build_of, more_edges, Longer, Added, RoomFor, LeavesFit};
ghost use Rattle.joins.specs.Joins.{edges_by, sides_by, item_of, Ready};

use builder::{EdgeLists, HypergraphBuilder};
use conflict::HyperedgeJoinType;
use connectivity::EdgeSides;
use nodeset::{INNER, PredicateId};
use sheet::{Range, Sheet};
use tes::{NewJoin, Sides};

// A join as the walk finds it: the item's number and kind, its predicates, and its whole sides.
// kept: kind is the sheet's own word; two kinds may have one type.
#[derive(Clone, Copy)]
pub struct JoinItem {
    pub number: u32,
    pub kind: u32,
    pub predicates: Range,
    pub whole: Sides,
}

impl JoinItem {
    // The join with the type of its kind.
    fn typed(self) -> NewJoin
        ensures kind { result.join_type ≡ type_of self.kind }
        ensures whole { result.whole ≡ self.whole }
    {
        NewJoin {
            join_type: HyperedgeJoinType::from_join_type(self.kind).number(),
            whole: self.whole,
        }
    }
}

// A join's sides over the columns of the predicates p (cd_e_for_predicate).
// kept: b, lists, sheet and j stay apart: the builder is ours, the lists the caller's, the sheet and j are only read; one struct of them would have
// to say in each function that the sheet and j stay. Ready is no fact of the builder's type: it speaks of a sheet, which the builder doesn't hold.
fn sides(
    b: &HypergraphBuilder,
    lists: &EdgeLists<'_>,
    sheet: &Sheet<'_>,
    j: JoinItem,
    p: Range,
) -> Sides
    requires sheet { Named sheet.now.bytes.now p.first p.count }
    requires held { Ready sheet.now.bytes.now b.now × Longer b.now.edges (edge_lists_of lists.now) }
    ensures { sides_of result ≡ sides_for (build_of sheet.now.bytes.now b.now (edge_lists_of lists.now)) (type_of j.kind) j.whole.left j.whole.right
        (columns_of sheet.now.bytes.now (range_of p)) }
{
    let n = b.edges;
    let edges = EdgeSides {
        left: &lists.left[..n],
        right: &lists.right[..n],
    };
    let leaves = b.leaves.as_slice();
    let start = Sides {
        left: ses::side_set(sheet, leaves, j.whole.left, p),
        right: ses::side_set(sheet, leaves, j.whole.right, p),
    };
    j.typed().widen(&edges, b.joins.as_slice(), start)
}

// The sides of the edge of the predicate p. An Inner join's are worked out with the edges before it, another's are its record sets x.
// kept: as sides.
fn edge_sides(
    b: &HypergraphBuilder,
    lists: &EdgeLists<'_>,
    sheet: &Sheet<'_>,
    j: JoinItem,
    p: u32,
    x: Sides,
) -> Sides
    requires sheet { Named sheet.now.bytes.now p 1 }
    requires held { Ready sheet.now.bytes.now b.now × Longer b.now.edges (edge_lists_of lists.now) }
    ensures { sides_of result ≡ sides_by (open_question (question_of sheet.now.bytes.now)) j.kind j.whole.left j.whole.right (sides_of x) p
        (build_of sheet.now.bytes.now b.now (edge_lists_of lists.now)) }
{
    // kept: asked of the kind. Its type would not do: a cross product's is Inner too
    if j.kind != INNER {
        return x;
    }
    let one = Range { first: p, count: 1 };
    sides(b, lists, sheet, j, one)
}

// The edges of a join, one for each predicate. x: its record sets.
// kept: as sides; SameEdgeLists and Added as at add_edge.
fn join_edges(
    b: &mut HypergraphBuilder,
    lists: &mut EdgeLists<'_>,
    sheet: &Sheet<'_>,
    j: JoinItem,
    x: Sides,
)
    requires sheet { Named sheet.now.bytes.now j.predicates.first j.predicates.count }
    requires held { Ready sheet.now.bytes.now b.old × Longer (b.old.edges + j.predicates.count) (edge_lists_of lists.old) }
    ensures same { SameEdgeLists lists.old lists.new }
    ensures counts { b.new ≡ more_edges j.predicates.count b.old }
    ensures built { build_of sheet.now.bytes.now b.new (edge_lists_of lists.new) ≡ edges_by (open_question (question_of sheet.now.bytes.now)) j.number j.kind
        (type_of j.kind) (range_of j.predicates) j.whole.left j.whole.right (sides_of x) (build_of sheet.now.bytes.now b.old (edge_lists_of lists.old)) }
    ensures rest { Added b.old.edges (b.old.edges + j.predicates.count) (edge_lists_of lists.old) (edge_lists_of lists.new) }
{
    let t = j.typed().join_type;
    let first = j.predicates.first;
    let end = first + j.predicates.count;
    for p in first..end {
        let y = edge_sides(b, lists, sheet, j, p, x);
        b.add_edge(lists, y, Some(PredicateId(p)), j.number, t);
    }
}

// The edges and the record of a join.
// kept: as join_edges.
pub fn join_item(
    b: &mut HypergraphBuilder,
    lists: &mut EdgeLists<'_>,
    sheet: &Sheet<'_>,
    j: JoinItem,
)
    requires sheet { Named sheet.now.bytes.now j.predicates.first j.predicates.count }
    requires held { Ready sheet.now.bytes.now b.old × Longer (b.old.edges + j.predicates.count) (edge_lists_of lists.old) × RoomFor b.old }
    ensures same { SameEdgeLists lists.old lists.new }
    ensures leaves { (b.new.leaves ≡ b.old.leaves) × LeavesFit sheet.now.bytes.now b.new }
    ensures built { let was = build_of sheet.now.bytes.now b.old (edge_lists_of lists.old) in
        build_of sheet.now.bytes.now b.new (edge_lists_of lists.new)
        ≡ join_item (open_question (question_of sheet.now.bytes.now)) j.number (item_of j) j.whole.left j.whole.right (drop 2 was.pile) was }
    ensures rest { Added b.old.edges b.new.edges (edge_lists_of lists.old) (edge_lists_of lists.new) }
{
    let x = sides(b, lists, sheet, j, j.predicates);
    join_edges(b, lists, sheet, j, x);
    b.add_join(j.typed().record(x));
}

// The edge and the record of a cross product.
// kept: as join_edges.
pub fn cross_item(b: &mut HypergraphBuilder, lists: &mut EdgeLists<'_>, j: JoinItem)
    requires { Longer (b.old.edges + 1) (edge_lists_of lists.old) × RoomFor b.old }
    ensures same { SameEdgeLists lists.old lists.new }
    ensures leaves { (b.new.leaves ≡ b.old.leaves) × ((sheet : List ℕ) → LeavesFit sheet b.old → LeavesFit sheet b.new) }
    ensures built { (sheet : List ℕ) → let was = build_of sheet b.old (edge_lists_of lists.old) in
        build_of sheet b.new (edge_lists_of lists.new) ≡ cross_item j.number j.whole.left j.whole.right (drop 2 was.pile) was }
    ensures rest { Added b.old.edges b.new.edges (edge_lists_of lists.old) (edge_lists_of lists.new) }
{
    let x = Sides {
        left: nodeset::nodeset_singleton(nodeset::nodeset_min(j.whole.left)),
        right: nodeset::nodeset_singleton(nodeset::nodeset_min(j.whole.right)),
    };
    let new = NewJoin {
        join_type: HyperedgeJoinType::Inner.number(),
        whole: j.whole,
    };
    b.add_edge(lists, x, None, j.number, new.join_type);
    b.add_join(new.record(x));
}
