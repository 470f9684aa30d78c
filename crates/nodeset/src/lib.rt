// Sets of leaves as 64-bit numbers, bit i for leaf i (NodeSet of hypergraph.rs), the numbers' own types, and the kinds that are asked for by name.
#![tactic(auto)]

ghost use Rattle.std.specs.Prelude.{◌≡◌, ℕ, bit_or};
ghost use Rattle.nodeset.specs.Sets.{within, disjoint, difference, singleton, lowest, highest, all_below, up_to_lowest};
ghost use Rattle.nodeset.specs.Subsets.{next_subset};

// A leaf's number.
// kept: three types of the same shape, so that a number of one kind is never taken for one of another.
#[derive(Clone, Copy)]
pub struct NodeId(pub u32);

// A plan's number: its place in the plan store.
// kept: as NodeId.
#[derive(Clone, Copy)]
pub struct PlanId(pub u32);

// A predicate's number: its place in the predicate table.
// kept: as NodeId.
#[derive(Clone, Copy)]
pub struct PredicateId(pub u32);

// No number, where a predicate, a lead edge or a chosen plan would have one.
// kept: the lent lists hold numbers, and this one stands in them for none.
pub const NONE: u32 = 4294967295;

// The kind of an item that is an Inner join.
// kept: a kind is a number, as the sheet and the lent lists hold it: a sheet that is not checked may have any.
pub const INNER: u32 = 0;

// The kind of an item that is a cross product. The kinds between are the other joins'.
// kept: as INNER.
pub const CROSS_PRODUCT: u32 = 8;

// The kind of an item that is a leaf, and of a leaf's plan. No kind is above it.
// kept: as INNER.
pub const LEAF: u32 = 9;

// The set of one leaf; empty for a number of 64 or more.
#[tactic(auto, unfolding(crate::specs::Sets::singleton))]
pub fn nodeset_singleton(id: NodeId) -> u64
    ensures { result ≡ singleton id.0 }
{
    let i = id.0;
    if i < 64 { 1u64 << i } else { 0 }
}

// The lowest leaf, and 64 for the empty set.
// kept: document 01 gives 64 for the empty set, and so does lowest. The set of leaf 64 is empty, so a caller that makes a set of the answer need not ask.
#[tactic(auto, unfolding(crate::specs::Sets::lowest))]
pub fn nodeset_min(s: u64) -> NodeId
    ensures { result.0 ≡ lowest s }
{
    NodeId(u64::trailing_zeros(s))
}

// The highest leaf, and 64 for the empty set.
// kept: 64 as in nodeset_min; highest_singleton, which makes its set, gives the empty one.
#[tactic(auto, unfolding(crate::specs::Sets::highest))]
pub fn nodeset_max(s: u64) -> NodeId
    ensures { result.0 ≡ highest s }
{
    if s == 0 {
        return NodeId(64);
    }
    NodeId(63 - u64::leading_zeros(s))
}

// Whether each leaf of a is one of s.
pub fn is_subset(a: u64, s: u64) -> bool
    ensures { result ≡ within a s }
{
    a & s == a
}

// Whether no leaf of a is one of b.
pub fn is_disjoint(a: u64, b: u64) -> bool
    ensures { result ≡ disjoint a b }
{
    a & b == 0
}

// The leaves of a and those of b.
pub fn union(a: u64, b: u64) -> u64
    ensures { result ≡ bit_or a b }
{
    a | b
}

// The leaves of a without those of b.
pub fn difference(a: u64, b: u64) -> u64
    ensures { result ≡ difference a b }
{
    a & !b
}

// All leaves below n; all 64 for more than 64.
#[tactic(auto, unfolding(crate::specs::Sets::all_below))]
pub fn all_nodes_mask(n: u32) -> u64
    ensures { result ≡ all_below n }
{
    if n >= 64 {
        return u64::MAX;
    }
    (1u64 << n) - 1
}

// All leaves up to the lowest of s; all 64 for the empty set.
#[tactic(auto, unfolding(crate::specs::Sets::lowest, crate::specs::Sets::up_to_lowest))]
pub fn b_min(s: u64) -> u64
    ensures { result ≡ up_to_lowest s }
{
    all_nodes_mask(u64::trailing_zeros(s) + 1)
}

// The highest leaf of s as a set; empty for the empty set.
pub fn highest_singleton(s: u64) -> u64
    ensures { result ≡ singleton (highest s) }
{
    nodeset_singleton(nodeset_max(s))
}

// The subset of s that follows sub, in rising order; the empty set follows s itself.
pub fn next_subset(sub: u64, s: u64) -> u64
    ensures { result ≡ next_subset s sub }
{
    std::num::wrapping_sub_u64(sub, s) & s
}
