// Calls the planner many times on one sheet, for the bench (docs/BENCH.md). Standard input: the number of rounds, four bytes, the lowest
// first; then the sheet. Prints the last call's answer number, edges, plans, memo entries, visits and chosen plan.
#![tactic(auto)]

use answer::Report;
use builder::EdgeLists;
use nodeset::NONE;
use planner::{EdgeArrays, ListArrays};
use std::io;
use store::Lists;

// The last call's numbers. The calls' contract is not used: only the numbers are printed.
fn repeat(sheet: &[u8], rounds: u32, edges: &mut EdgeLists<'_>, lists: &mut Lists<'_>) -> Report {
    let mut last = Report {
        answer: 0,
        edges: 0,
        plans: 0,
        memo: 0,
        visits: 0,
        chosen: NONE,
    };
    for _ in 0..rounds {
        last = Report::from(planner::plan(sheet, u32::MAX, edges, lists));
    }
    last
}

fn print(rt: &impl Print, r: Report) -> io::Result<()> {
    println!(rt;
        "{} {} {} {} {} {}",
        r.answer, r.edges, r.plans, r.memo, r.visits, r.chosen
    )
}

// Lends stores that are long enough for every sheet of the bench, and prints the last call's numbers.
fn run(rt: &impl Print, sheet: &[u8], rounds: u32) -> io::Result<()> {
    let mut edge_arrays = EdgeArrays::<256>::new(0, 0);
    let mut list_arrays = ListArrays::<32768, 1024>::new(0, 0, 0.0);
    let mut edges = edge_arrays.lend();
    let mut lists = list_arrays.lend();
    print(rt, repeat(sheet, rounds, &mut edges, &mut lists))
}

// Where the input has no four bytes, the number of rounds is 0 and nothing is called. A sheet has at most 21,512 bytes. One byte more is read: with
// it a longer input has the wrong length for any sheet, as the whole of it has.
fn main(rt: HostRuntime) -> io::Result<()> {
    let mut input = rt.stdin();
    let rounds = reading::read_word(&mut input)?;
    let mut bytes = [0u8; 21513];
    let n = reading::read_full(&mut input, &mut bytes)?;
    run(&rt, &bytes[..n], rounds)
}
