// The planner's call: a sheet's bytes, a visit limit and the lent lists to an answer. Every sheet, list length and limit gets one.
#![tactic(auto)]

mod stores;

ghost use Rattle.definition.specs.Call.{default_limit};
ghost use Rattle.builder.specs.Builds.{SameEdgeLists};
ghost use Rattle.candidate.specs.Lent.{SameLists};
ghost use Rattle.answer.specs.Answers.{reported_of};
ghost use Rattle.run.specs.Lent.{lent_of};
ghost use Rattle.planner.specs.Rules.{Planned};

use answer::{Answer, Outcome};
use builder::EdgeLists;
use checks::Rooms;
use store::Lists;
pub use stores::{EdgeArrays, ListArrays};

// Plans the joins of a sheet within limit visits.
pub fn plan(sheet: &[u8], limit: u32, edges: &mut EdgeLists<'_>, lists: &mut Lists<'_>) -> Answer
    ensures same_edges { SameEdgeLists edges.old edges.new }
    ensures same_lists { SameLists lists.old lists.new }
    ensures planned { Planned sheet.now limit (lent_of edges.old lists.old) (reported_of result) (lent_of edges.new lists.new) }
{
    let rooms = Rooms::of(edges, lists);
    let q = checks::check(sheet, rooms)?;
    Ok(run::run(&q, rooms, limit, edges, lists))
}

// The same within as many visits as are allowed where no limit is stated.
pub fn plan_default(sheet: &[u8], edges: &mut EdgeLists<'_>, lists: &mut Lists<'_>) -> Answer
    ensures same_edges { SameEdgeLists edges.old edges.new }
    ensures same_lists { SameLists lists.old lists.new }
    ensures planned { Planned sheet.now default_limit (lent_of edges.old lists.old) (reported_of result) (lent_of edges.new lists.new) }
{
    plan(sheet, Outcome::VISITS, edges, lists)
}
