// What is done for an accepted sheet: its edges are built, its leaves and tables read, and the search is run.
#![tactic(auto)]

ghost use Rattle.std.specs.Prelude.{◌≡◌, ◌≤◌};
ghost use Rattle.definition.specs.Sheet.{question_of};
ghost use Rattle.definition.specs.Search.{search};
ghost use Rattle.definition.specs.Call.{leaves_of, input_of, searched};
ghost use Rattle.builder.specs.Builds.{edge_lists_of, SameEdgeLists, Longer};
ghost use Rattle.candidate.specs.Store.{store};
ghost use Rattle.candidate.specs.Lent.{lists_of, SameLists};
ghost use Rattle.held.specs.Held.{input_for, holding};
ghost use Rattle.search.specs.View.{Ready, Ends};
ghost use Rattle.checks.specs.Answers.{rooms_of};
ghost use Rattle.answer.specs.Answers.{reported, ended_as};
ghost use Rattle.run.specs.Lent.{lent_of, holds, given_in, Runs, IsCut};

use answer::Outcome;
use builder::EdgeLists;
use checks::{Question, Rooms};
use cost::Edges;
use search::Searched;
use store::{Input, Lists};

// The first n edges, as the search reads them.
fn built<'a>(edges: &'a EdgeLists<'_>, n: usize) -> Edges<'a>
    requires { Longer n (edge_lists_of edges.now) × (n ≤ 256) }
    ensures { IsCut n (edge_lists_of edges.now) result }
{
    Edges {
        left: &edges.left[..n],
        right: &edges.right[..n],
        predicate: &edges.predicate[..n],
        source: &edges.source[..n],
    }
}

// The search over these edges, the sheet's leaves and its tables.
fn search_plans(
    q: &Question<'_>,
    rooms: Rooms,
    limit: u32,
    edges: &Edges<'_>,
    lists: &mut Lists<'_>,
) -> Searched
    requires { Ready (given_in (question_of q.now.sheet.bytes.now) edges.now (rooms_of rooms)) (lists_of lists.old) q.now.leaves }
    ensures same { SameLists lists.old lists.new }
    ensures held { let asked = question_of q.now.sheet.bytes.now in
        store (lists_of lists.new) result.counts
        ≡ holding (lists_of lists.old) (search (input_for (given_in asked edges.now (rooms_of rooms)) (leaves_of asked.items) limit)) }
    ensures ending { let asked = question_of q.now.sheet.bytes.now in
        Ends (input_for (given_in asked edges.now (rooms_of rooms)) (leaves_of asked.items) limit) result.ending }
{
    let sections = q.sheet.sections;
    let kinds = input::kinds(&q.sheet);
    let selectivities = input::selectivities(&q.sheet);
    let leaves = input::leaves(&q.sheet);
    let g = Input {
        edges: *edges,
        kinds: &kinds[..sections.items.count],
        selectivities: &selectivities[..sections.predicates.count],
        plan_room: rooms.plans,
        memo_room: rooms.memo,
        limit,
    };
    search::search(&g, &leaves, lists)
}

// The run of an accepted sheet: what it makes goes to the lent lists, and what stood behind that stays.
pub fn run(
    q: &Question<'_>,
    rooms: Rooms,
    limit: u32,
    edges: &mut EdgeLists<'_>,
    lists: &mut Lists<'_>,
) -> Outcome
    requires { Runs q.now.sheet.bytes.now (rooms_of rooms) (lent_of edges.old lists.old) }
    ensures same_edges { SameEdgeLists edges.old edges.new }
    ensures same_lists { SameLists lists.old lists.new }
    ensures answer { ended_as result ≡ reported (searched (input_of (question_of q.now.sheet.bytes.now) (rooms_of rooms) limit)) }
    ensures lists { lent_of edges.new lists.new
        ≡ holds (searched (input_of (question_of q.now.sheet.bytes.now) (rooms_of rooms) limit)) (lent_of edges.old lists.old) }
{
    let n = hypergraph::build_hypergraph(&q.sheet, edges);
    let built = built(edges, n as usize);
    let r = search_plans(q, rooms, limit, &built, lists);
    // Three of the search's four fields, since its stop is in the ending; the edges it doesn't count.
    Outcome {
        ending: r.ending,
        edges: n,
        plans: r.counts.plans,
        memo: r.counts.memo,
        visits: r.counts.visits,
    }
}
