// Rows and cost of plans (CostModel of cost.rs, one model): of a leaf, and of a candidate; and its lead edge, kind and rows from the edges
// that connect its two sets.
#![tactic(auto)]

mod edges;

ghost use Rattle.std.specs.Prelude.{◌≡◌, ◌<◌, ◌&&◌, length, get_or, IfSome};
ghost use Rattle.nodeset.specs.Sets.{within};
ghost use Rattle.definition.specs.Cost.{whole, leaf_estimate, product, lesser, greater, capped, rows_by_kind, candidate_rows, candidate_from, cheaper};
ghost use Rattle.definition.specs.Connection.{candidate_kind};
ghost use Rattle.cost.specs.View.{estimate_of, predicate_from, rows_with, with_edge, Connects, Walked, Connected};

pub use edges::Edges;
use nodeset::{CROSS_PRODUCT, INNER, NONE, PredicateId};
use places::at;

// 2^500
const CEILING: f64 = 3.273390607896142e150;

// A leaf's row count and the number of its columns.
#[derive(Clone, Copy, Default)]
pub struct Leaf {
    pub rows: u64,
    pub columns: u32,
}

// A plan's rows and cost.
#[derive(Clone, Copy)]
pub struct Estimate {
    pub rows: f64,
    pub cost: f64,
}

// What a candidate takes from the edges that connect its two sets: the lowest of them, the candidate's kind, and what is left of the product
// after the selectivities.
// kept: the edge and the kind are numbers, as the lent lists hold them.
#[derive(Clone, Copy)]
pub struct Connection {
    pub lead: u32,
    pub kind: u32,
    pub rows: f64,
}

// What the walk over the edges has met: the first connecting edge, if any, whether one has a predicate, and what is left of the product.
// kept: filters is a flag of its own; lead and rows mean the same whether it is set or not.
#[derive(Drop)]
struct Gathered {
    lead: Option<u32>,
    filters: bool,
    rows: f64,
}

// The nearest f64.
fn whole(n: u64) -> f64
    ensures { result ≡ whole n }
{
    std::num::nearest_u64_to_f64(n)
}

// A leaf without columns counts as one with a column.
pub fn leaf_estimate(leaf: Leaf) -> Estimate
    ensures { estimate_of result ≡ leaf_estimate leaf.rows leaf.columns }
{
    let rows = whole(leaf.rows);
    Estimate {
        rows: rows,
        cost: rows * (leaf.columns.max(1) as f64),
    }
}

// How many pairs of rows two plans have.
pub fn product(left: Estimate, right: Estimate) -> f64
    ensures { result ≡ product (estimate_of left) (estimate_of right) }
{
    left.rows * right.rows
}

// The lesser of the two, the second where they are equal.
// kept: f64's own min and max do not say which of 0 and -0 they give.
fn lesser(x: f64, y: f64) -> f64
    ensures { result ≡ lesser x y }
{
    if x < y { x } else { y }
}

// kept: as lesser.
fn greater(x: f64, y: f64) -> f64
    ensures { result ≡ greater x y }
{
    if x < y { y } else { x }
}

// At most the ceiling.
#[tactic(auto, using(crate::proofs::Floats::ceiling_bits))]
fn capped(x: f64) -> f64
    ensures { result ≡ capped x }
{
    lesser(CEILING, x)
}

// filtered: the estimate after the selectivities; left, right: the rows of the candidate's own two plans.
// kept: kind is a number, as the lent lists of items and of plans hold it; a type of its own would be made here and unmade at once.
fn rows_by_kind(kind: u32, filtered: f64, left: f64, right: f64) -> f64
    ensures { result ≡ rows_by_kind kind filtered left right }
{
    match kind {
        1 | 2 => lesser(filtered, left),
        3 => greater(filtered, left),
        4 => greater(filtered, right),
        5 => greater(filtered, greater(left, right)),
        6 | 7 => left,
        _ => filtered,
    }
}

// kept: kind is a number, as in rows_by_kind.
fn candidate_rows(kind: u32, left: Estimate, right: Estimate, filtered: f64) -> f64
    ensures { result ≡ candidate_rows kind (estimate_of left) (estimate_of right) filtered }
{
    capped(rows_by_kind(kind, filtered, left.rows, right.rows))
}

// Rows and cost of a candidate of this kind over these two plans. filtered: what `connect` leaves of the product.
// kept: kind is a number, as in rows_by_kind.
#[tactic(auto, unfolding(definition::specs::Cost::candidate_from))]
pub fn candidate_estimate(kind: u32, left: Estimate, right: Estimate, filtered: f64) -> Estimate
    ensures { estimate_of result ≡ candidate_from kind (estimate_of left) (estimate_of right) filtered }
{
    let rows = candidate_rows(kind, left, right, filtered);
    Estimate {
        rows: rows,
        cost: left.rows * right.rows + rows + left.cost + right.cost,
    }
}

// Whether a new plan replaces the kept one: only if it costs strictly less.
pub fn cheaper(new: Estimate, kept: Estimate) -> bool
    ensures { result ≡ cheaper (estimate_of new) (estimate_of kept) }
{
    new.cost < kept.cost
}

fn lie_in(left: u64, a: u64, right: u64, b: u64) -> bool
    ensures { result ≡ (within left a && within right b) }
{
    nodeset::is_subset(left, a) && nodeset::is_subset(right, b)
}

// Whether an edge with these sides connects a and b.
pub fn connects(left: u64, right: u64, a: u64, b: u64) -> bool
    ensures { Connects left right a b result }
{
    lie_in(left, a, right, b) || lie_in(left, b, right, a)
}

#[tactic(auto, using(crate::proofs::Floats::full_bits))]
fn rows_after(selectivities: &[u32], p: Option<PredicateId>, rows: f64) -> f64
    ensures { result ≡ rows_with selectivities.now p rows }
{
    p.map_or(
        rows,
        |p| rows * (at(selectivities, p.0, 0) as f64 / 65536.0),
    )
}

// The predicate of edge i, if it has one. Past the end it is 0.
// kept: the definition reads 0 there.
fn predicate_of(predicates: &[u32], i: u32) -> Option<PredicateId>
    ensures { result ≡ predicate_from (get_or predicates.now i 0) }
{
    let p = at(predicates, i, 0);
    (p != NONE).then_some(PredicateId(p))
}

// With one connecting edge more: number i, with the predicate p.
fn with_edge(selectivities: &[u32], i: u32, p: Option<PredicateId>, g: Gathered) -> Gathered
    ensures { result ≡ with_edge selectivities.now i p g }
{
    Gathered {
        lead: g.lead.or(Some(i)),
        filters: g.filters || p.is_some(),
        rows: rows_after(selectivities, p, g.rows),
    }
}

// One walk over the edges, for the candidate of a and b. It keeps no list of edge numbers.
#[tactic(auto, using(definition::proofs::EdgeWalkLaws::edge_walk_end))]
fn walk_edges(edges: &Edges<'_>, selectivities: &[u32], a: u64, b: u64, product: f64) -> Gathered
    ensures value { Walked edges.now selectivities.now a b product result }
    ensures lead { IfSome result.lead (λ i. i < length edges.now.left.now) }
{
    let mut g = Gathered {
        lead: None,
        filters: false,
        rows: product,
    };
    // kept: i is the lead and the predicate's place, in a list that may be shorter; zip and enumerate over the sides would still go by i
    for i in 0..edges.left.len() {
        if connects(edges.left[i], edges.right[i], a, b) {
            let k = i as u32;
            g = with_edge(selectivities, k, predicate_of(edges.predicate, k), g);
        }
    }
    g
}

// filters: whether a connecting edge has a predicate; k: the kind of the lead edge's source item.
// kept: a kind is a number, as in rows_by_kind.
#[tactic(auto, unfolding(definition::specs::Connection::candidate_kind))]
fn candidate_kind(filters: bool, k: u32) -> u32
    ensures { result ≡ candidate_kind filters k }
{
    match (filters, k) {
        (false, _) => CROSS_PRODUCT,
        (true, CROSS_PRODUCT) => INNER,
        (true, _) => k,
    }
}

// What the candidate of a and b takes from the edges, if one connects the two sets. By edge_walk_connection (definition EdgeWalkLaws.antt) the
// walk finds what the definition takes from the listed edges.
// kept: kinds and selectivities are lists of different things, each read by its own numbers.
pub fn connect(
    edges: &Edges<'_>,
    kinds: &[u32],
    selectivities: &[u32],
    a: u64,
    b: u64,
    product: f64,
) -> Option<Connection>
    ensures { Connected edges.now kinds.now selectivities.now a b product result }
{
    let g = walk_edges(edges, selectivities, a, b, product);
    let lead = g.lead?;
    Some(Connection {
        lead,
        kind: candidate_kind(g.filters, at(kinds, at(edges.source, lead, 0), 0)),
        rows: g.rows,
    })
}
