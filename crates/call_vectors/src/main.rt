// Replays recorded calls from standard input (crate records). For each record the 14 lists are filled with a pattern and lent in the recorded
// lengths; then the answer, the counts, every entry, and the pattern behind the entries are compared. The crate's stdin is the oracle's
// calls.bin.
#![tactic(auto)]

ghost use Rattle.std.specs.Prelude.{◌*◌, ◌<◌, ◌≤◌};

use answer::Report;
use builder::EdgeLists;
use planner::{EdgeArrays, ListArrays};
use records::Places;
use std::io;
use store::Lists;

// What was replayed: how many records with how many entries, and how many records agree.
#[derive(Drop)]
struct Calls {
    records: u32,
    edges: u32,
    plans: u32,
    memo: u32,
    agree: u32,
    ghost bounds: { (edges ≤ 256 * records) × (plans ≤ 1088 * records) × (memo ≤ 512 * records) × (agree ≤ records) },
}

impl records::Tally for Calls {
    ghost records = { λ t. t.records };

    // kept: each field grows by another number.
    fn see(self, _rt: &impl Print, record: &[u8]) -> io::Result<Self> {
        let places = Places::of(records::after_sheet(record));
        Ok(Calls {
            records: self.records + 1,
            edges: self.edges + places.edges.count as u32,
            plans: self.plans + places.plans.count as u32,
            memo: self.memo + places.memo.count as u32,
            agree: self.agree + replayed(record) as u32,
        })
    }
}

// The list's front, in the recorded length of list k.
fn front<'a, T>(list: &'a mut [T], words: &[u8], k: usize) -> &'a mut [T]
    requires { k < 14 }
{
    let n = records::list_length(words, k, list.len());
    &mut list[..n]
}

// The recorded call, over the fronts of the lists.
fn call(record: &[u8], edges: &mut EdgeLists<'_>, lists: &mut Lists<'_>) -> Report {
    let words = records::after_sheet(record);
    let mut e = EdgeLists {
        left: front(edges.left, words, 0),
        right: front(edges.right, words, 1),
        predicate: front(edges.predicate, words, 2),
        source: front(edges.source, words, 3),
        kind: front(edges.kind, words, 4),
    };
    let mut l = Lists {
        pset: front(lists.pset, words, 5),
        pleft: front(lists.pleft, words, 6),
        pright: front(lists.pright, words, 7),
        plead: front(lists.plead, words, 8),
        pkind: front(lists.pkind, words, 9),
        prows: front(lists.prows, words, 10),
        pcost: front(lists.pcost, words, 11),
        mset: front(lists.mset, words, 12),
        mplan: front(lists.mplan, words, 13),
    };
    Report::from(planner::plan(
        records::sheet_of(record),
        records::limit(words),
        &mut e,
        &mut l,
    ))
}

// Whether the record has this report.
fn has_report(words: &[u8], r: Report) -> bool {
    [r.answer, r.edges, r.plans, r.memo, r.visits, r.chosen]
        .iter()
        .enumerate()
        .all(|(i, n)| records::word(words, 60 + 4 * i) == *n)
}

// Whether the report and the lists are what the record has.
fn agrees(words: &[u8], r: Report, edges: &EdgeLists<'_>, lists: &Lists<'_>) -> bool {
    let places = Places::of(words);
    words.len() == places.end
        && has_report(words, r)
        && records::same_edges(
            words,
            &places.edges,
            edges.left,
            edges.right,
            edges.predicate,
            edges.source,
            edges.kind,
        )
        && records::same_plans(
            words,
            &places.plans,
            lists.pset,
            lists.pleft,
            lists.pright,
            lists.plead,
            lists.pkind,
            lists.prows,
            lists.pcost,
        )
        && records::same_memo(words, &places.memo, lists.mset, lists.mplan)
}

// Whether the recorded call, over lists that hold nothing but the pattern, replies and leaves what the record has.
fn replayed(record: &[u8]) -> bool {
    let mut edge_arrays = EdgeArrays::<256>::new(records::LONG, records::WORD);
    let mut list_arrays = ListArrays::<1088, 512>::new(
        records::LONG,
        records::WORD,
        records::NUMBER,
    );
    let mut edges = edge_arrays.lend();
    let mut lists = list_arrays.lend();
    let r = call(record, &mut edges, &mut lists);
    agrees(records::after_sheet(record), r, &edges, &lists)
}

fn main(rt: HostRuntime) -> io::Result<()> {
    // Room for the longest record: a sheet of 21,528 bytes, 256 edges, 1,088 plans and 512 memo entries take 78,452 bytes.
    let mut space = [0u8; 81920];
    let mut input = rt.stdin();
    records::skip_line(&mut input)?;
    let start = Calls {
        records: 0,
        edges: 0,
        plans: 0,
        memo: 0,
        agree: 0,
    };
    let t = records::replay(&rt, start, &mut input, &mut space)?;
    println!(rt;
        "{} records, {} edges, {} plans, {} memo entries, {} records agree",
        t.records, t.edges, t.plans, t.memo, t.agree
    )
}
