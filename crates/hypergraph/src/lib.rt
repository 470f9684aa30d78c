// Edge building, after HypergraphBuilder of hypergraph.rs: the walk of the items (the Rust's collect). A leaf is put on the pile, a join takes
// inner then outer off it and puts itself on.
#![tactic(auto)]

ghost use Rattle.std.specs.Prelude.{◌≡◌, ◌+◌, ◌<◌, ◌≤◌, length};
ghost use Rattle.definition.specs.Question.{open_item, open_question, item};
ghost use Rattle.definition.specs.Sheet.{question_of};
ghost use Rattle.definition.specs.Accepted.{Sound};
ghost use Rattle.definition.specs.Edges.{join, build_item, build_hypergraph, edge_count};
ghost use Rattle.sheet.specs.Views.{item_of};
ghost use Rattle.builder.specs.Builds.{edge_lists_of, SameEdgeLists, edges_held, build_of, Longer, Added};
ghost use Rattle.hypergraph.specs.Walk.{item_edges, Along, Next};

use builder::{EdgeLists, HypergraphBuilder};
use joins::JoinItem;
use nodeset::{CROSS_PRODUCT, LEAF};
use sheet::{Item, Sheet};

// How many edges the items make, by their words alone.
pub fn edge_count(sheet: &Sheet<'_>) -> u64
    ensures { result ≡ edge_count (open_question (question_of sheet.now.bytes.now)).items }
{
    sheet.items().map(|item| u64::from(item_edges(item))).sum()
}

// How many edges an item makes.
#[tactic(auto, unfolding(crate::specs::Walk::item_edges))]
fn item_edges(item: Item) -> u32
    ensures { result ≡ item_edges (open_item (item_of item)) }
{
    match item.kind {
        LEAF => 0,
        CROSS_PRODUCT => 1,
        _ => item.range.count,
    }
}

// Item k, which is x.
// kept: b, lists and x stay apart: the builder is ours, the lists the caller's, x is only read. SameEdgeLists and Added as at add_edge.
fn item(b: &mut HypergraphBuilder, lists: &mut EdgeLists<'_>, sheet: &Sheet<'_>, k: u32, x: Item)
    requires { Next sheet.now.bytes.now k x b.old (edge_lists_of lists.old) }
    ensures same { SameEdgeLists lists.old lists.new }
    ensures built { let q = question_of sheet.now.bytes.now in
        build_of sheet.now.bytes.now b.new (edge_lists_of lists.new)
        ≡ build_item join (open_question q) k (open_item (item q k)) (build_of sheet.now.bytes.now b.old (edge_lists_of lists.old)) }
    ensures along { Along sheet.now.bytes.now (k + 1) b.new (edge_lists_of lists.new) }
    ensures rest { Added b.old.edges b.new.edges (edge_lists_of lists.old) (edge_lists_of lists.new) }
{
    if x.kind == LEAF {
        b.add_leaf(x.range);
        return;
    }
    let j = JoinItem {
        number: k,
        kind: x.kind,
        predicates: x.range,
        whole: b.top_two(),
    };
    if x.kind == CROSS_PRODUCT {
        joins::cross_item(b, lists, j);
    } else {
        joins::join_item(b, lists, sheet, j);
    }
}

// The edges of a sheet that the check accepts go to the five lists: what stood behind them stays. Answers how many they are.
// kept: SameEdgeLists, as at add_edge.
pub fn build_hypergraph(sheet: &Sheet<'_>, lists: &mut EdgeLists<'_>) -> u32
    requires { Sound (question_of sheet.now.bytes.now)
        × (edge_count (open_question (question_of sheet.now.bytes.now)).items ≤ 256)
        × Longer (edge_count (open_question (question_of sheet.now.bytes.now)).items) (edge_lists_of lists.old) }
    ensures same { SameEdgeLists lists.old lists.new }
    ensures count { result ≡ length (build_hypergraph (open_question (question_of sheet.now.bytes.now))) }
    ensures lists { edge_lists_of lists.new ≡ edges_held (build_hypergraph (open_question (question_of sheet.now.bytes.now))) (edge_lists_of lists.old) }
{
    let mut b = HypergraphBuilder::new();
    for (k, x) in sheet.items().enumerate() {
        item(&mut b, lists, sheet, k as u32, x);
    }
    b.edges as u32
}
