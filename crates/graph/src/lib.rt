// What the search asks of the edges: neighborhood and has_edge of join_ordering.rs. Nothing of an edge but its two sides is read.
#![tactic(auto)]

ghost use Rattle.std.specs.Prelude.{◌≡◌, true, replicate};
ghost use Rattle.definition.specs.Hypergraph.{beyond, neighborhood, has_edge};
ghost use Rattle.graph.specs.View.{edges_with};
ghost use Rattle.graph.specs.Neighbors.{one_leaf, one_leaf_each, is_simple, Adjacent, across};

use connectivity::EdgeSides;

// The edges, and where each of them has one leaf on each side (simple), for each leaf the set of the leaves that edges lead to from it.
#[derive(Drop)]
pub struct Graph<'a> {
    pub edges: EdgeSides<'a>,
    simple: bool,
    neighbors: [u64; 64],
    ghost tested: { simple ≡ is_simple (edges_with edges) },
    ghost adjacent: { simple ≡ true → Adjacent (edges_with edges) neighbors },
}

// Whether s has one leaf alone.
fn is_leaf(s: u64) -> bool
    ensures { result ≡ one_leaf s }
{
    s != 0 && nodeset::nodeset_singleton(nodeset::nodeset_min(s)) == s
}

// Whether an edge with these sides has one leaf on each.
fn is_simple(left: u64, right: u64) -> bool
    ensures { result ≡ one_leaf_each left right }
{
    is_leaf(left) && is_leaf(right)
}

// Enters each side of each edge into the neighbour set of the other's leaf. Whether each edge has one leaf on each side: one that has not ends it.
fn enter_sides(edges: &EdgeSides<'_>, neighbors: &mut [u64; 64]) -> bool
    requires { neighbors.old ≡ replicate 64 0 }
    ensures tested { result ≡ is_simple (edges_with edges.now) }
    ensures adjacent { result ≡ true → Adjacent (edges_with edges.now) neighbors.new }
{
    for (l, r) in edges.left.iter().zip(edges.right) {
        if !is_simple(*l, *r) {
            return false;
        }
        let u = nodeset::nodeset_min(*l).0 as usize;
        let v = nodeset::nodeset_min(*r).0 as usize;
        neighbors[u] |= *r;
        neighbors[v] |= *l;
    }
    true
}

impl<'a> Graph<'a> {
    // Of the edges with these sides.
    pub fn of(edges: EdgeSides<'a>) -> Self
        ensures { result.edges ≡ edges.entry }
    {
        let mut neighbors = [0; 64];
        let simple = enter_sides(&edges, &mut neighbors);
        Self {
            edges,
            simple,
            neighbors,
        }
    }

    // The leaves that edges lead to from s.
    fn across(&self, s: u64) -> u64
        requires { self.now.simple ≡ true }
        ensures { result ≡ across (edges_with self.now.edges) s }
    {
        let mut found = 0;
        let mut rest = s;
        while rest != 0 {
            let leaf = nodeset::nodeset_min(rest);
            found |= self.neighbors[leaf.0 as usize];
            rest = nodeset::difference(rest, nodeset::nodeset_singleton(leaf));
        }
        found
    }
}

// The lowest leaf of far, as a set, where near lies in s and far has no leaf of s or x.
#[tactic(auto, using(crate::proofs::SetLaws::disjoint_both), unfolding(definition::specs::Hypergraph::beyond))]
fn beyond(s: u64, x: u64, near: u64, far: u64) -> u64
    ensures { result ≡ beyond s x near far }
{
    if nodeset::is_subset(near, s) && nodeset::is_disjoint(far, s | x) {
        nodeset::nodeset_singleton(nodeset::nodeset_min(far))
    } else {
        0
    }
}

// The neighbours of s outside x, edge by edge.
fn walk(edges: &EdgeSides<'_>, s: u64, x: u64) -> u64
    ensures { result ≡ neighborhood (edges_with edges.now) s x }
{
    let mut found: u64 = 0;
    for (l, r) in edges.left.iter().zip(edges.right) {
        found |= beyond(s, x, *l, *r) | beyond(s, x, *r, *l);
    }
    found
}

// The neighbours of s outside x.
pub fn neighborhood(graph: &Graph<'_>, s: u64, x: u64) -> u64
    ensures { result ≡ neighborhood (edges_with graph.now.edges) s x }
{
    if graph.simple {
        return nodeset::difference(graph.across(s), s | x);
    }
    walk(&graph.edges, s, x)
}

// Whether an edge connects a and b.
pub fn has_edge(graph: &Graph<'_>, a: u64, b: u64) -> bool
    ensures { result ≡ has_edge (edges_with graph.now.edges) a b }
{
    if graph.simple {
        return !nodeset::is_disjoint(graph.across(a), b);
    }
    let edges = graph.edges;
    edges
        .left
        .iter()
        .zip(edges.right)
        .any(|(l, r)| cost::connects(*l, *r, a, b))
}
