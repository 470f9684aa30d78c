// Plans the sheet on standard input twice, first where no limit is stated and then with a limit of 1,000,000 visits, and prints what each call
// answers and after how many visits.
#![tactic(auto)]

ghost use Rattle.definition.specs.Call.{default_limit};
ghost use Rattle.definition.specs.VisitLimits.{former_default};
ghost use Rattle.run.specs.Lent.{lent_of};
ghost use Rattle.planner.specs.Rules.{Planned};
ghost use Rattle.planner.specs.Limits.{AlikeIfEnded};

use answer::Report;
use builder::EdgeLists;
use planner::{EdgeArrays, ListArrays};
use std::io;
use store::Lists;

// The limit of the second call, which was the default before.
const FORMER_DEFAULT: u32 = 1000000;

// Both calls, each with lists of its own. Where the stores are equally long and either call ended within the shorter limit, and not with 14, both
// answer the same.
fn both(
    sheet: &[u8],
    edges: &mut EdgeLists<'_>,
    lists: &mut Lists<'_>,
    second_edges: &mut EdgeLists<'_>,
    second_lists: &mut Lists<'_>,
) -> (Report, Report)
    ensures first { Planned sheet.now default_limit (lent_of edges.old lists.old) result.0 (lent_of edges.new lists.new) }
    ensures second { Planned sheet.now former_default (lent_of second_edges.old second_lists.old) result.1 (lent_of second_edges.new second_lists.new) }
    ensures alike { AlikeIfEnded sheet.now (lent_of edges.old lists.old) (lent_of second_edges.old second_lists.old) result.0 result.1
        (lent_of edges.new lists.new) (lent_of second_edges.new second_lists.new) }
{
    let first = Report::from(planner::plan_default(sheet, edges, lists));
    let second = Report::from(planner::plan(sheet, FORMER_DEFAULT, second_edges, second_lists));
    (first, second)
}

// Lends each call lists of its own, as long as the tried list's, and prints both answers.
fn run(rt: &impl Print, sheet: &[u8]) -> io::Result<()> {
    let mut edge_arrays = EdgeArrays::<256>::new(0, 0);
    let mut list_arrays = ListArrays::<1088, 512>::new(0, 0, 0.0);
    let mut second_edge_arrays = EdgeArrays::<256>::new(0, 0);
    let mut second_list_arrays = ListArrays::<1088, 512>::new(0, 0, 0.0);
    let (first, second) = both(
        sheet,
        &mut edge_arrays.lend(),
        &mut list_arrays.lend(),
        &mut second_edge_arrays.lend(),
        &mut second_list_arrays.lend(),
    );
    println!(rt;
        "no stated limit: answer {} after {} visits",
        first.answer, first.visits
    )?;
    println!(rt;
        "1000000 visits: answer {} after {} visits",
        second.answer, second.visits
    )
}

// kept: as tried_list's main; the array that is read into is a program's own.
// A sheet has at most 21,512 bytes. One byte more is read: with it a longer input has the wrong length for any sheet, as the whole of it has.
fn main(rt: HostRuntime) -> io::Result<()> {
    let mut bytes = [0u8; 21513];
    let n = reading::read_full(&mut rt.stdin(), &mut bytes)?;
    run(&rt, &bytes[..n])
}
