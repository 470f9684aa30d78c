// The text that the tried list's program prints of a sheet.
#![tactic(auto)]

ghost use Rattle.std.specs.Prelude.{◌≡◌, ◌+◌, ◌-◌, ◌*◌, ◌≤◌, length};
ghost use Rattle.listing.specs.Text.{answer_for, written_in};
ghost use Rattle.tried_text.specs.Printed.{printed, longest_text, OpenText, KeptBehind, leaves_passed, text_from};

use answer::Report;
use builder::EdgeLists;
use planner::{EdgeArrays, ListArrays};
use sheet::Sheet;
use store::Lists;

// The limit that the tried list states: with it the texts are those printed while it was the default.
const LIMIT: u32 = 1000000;

// The number of leaves of a sheet that passes the check.
fn leaves(sheet: &[u8]) -> u32
    ensures { result ≡ leaves_passed sheet.now }
{
    match sheet_check::check(sheet) {
        Ok(sections) => Sheet {
            bytes: sheet,
            sections,
        }
        .leaf_count(),
        Err(_) => 0,
    }
}

// The text from the plans' lists, of which the first n are leaves.
// kept: an array for each side, as the plan store lends a list for each (pleft, pright), of which side_sets reads one.
fn listed(report: Report, n: u32, lists: &Lists<'_>, out: &mut [u8]) -> Option<usize>
    ensures result { let l = lists.now in result ≡ answer_for (text_from report n l.pset.now l.pleft.now l.pright.now) out.old }
    ensures text { let l = lists.now in out.new ≡ written_in (text_from report n l.pset.now l.pleft.now l.pright.now) out.old }
    ensures size { let l = lists.now in length (text_from report n l.pset.now l.pleft.now l.pright.now) ≤ 33 + 45 * (report.plans - n) }
{
    let mut left = [0u64; 1088];
    let mut right = [0u64; 1088];
    listing::side_sets(lists.pset, lists.pleft, n, report.plans, &mut left);
    listing::side_sets(lists.pset, lists.pright, n, report.plans, &mut right);
    let made = report.plans.saturating_sub(n);
    listing::tried_list(report.answer, report.visits, &left, &right, made, out)
}

// The tried list of a sheet, from a call with 256 edges, 1,088 plans, 512 memo places and at most LIMIT visits.
pub fn tried_text(sheet: &[u8], out: &mut [u8]) -> Option<usize>
    ensures result { result ≡ answer_for (printed sheet.now) out.old }
    ensures text { out.new ≡ written_in (printed sheet.now) out.old }
    ensures size { length (printed sheet.now) ≤ longest_text }
    ensures open { OpenText sheet.now }
    ensures kept { KeptBehind sheet.now }
{
    let mut edge_arrays = EdgeArrays::<256>::new(0, 0);
    let mut list_arrays = ListArrays::<1088, 512>::new(0, 0, 0.0);
    let mut edges = edge_arrays.lend();
    let mut lists = list_arrays.lend();
    let report = Report::from(planner::plan(sheet, LIMIT, &mut edges, &mut lists));
    let n = leaves(sheet);
    listed(report, n, &lists, out)
}
