// The entries of a call: edges, plans and memo entries, each kind in lists of its own, beside a record's.
ghost use Rattle.std.specs.Prelude.{◌≡◌};
ghost use Rattle.records.specs.Entries.{edges_listed, plans_listed, memo_listed};

use crate::call::Table;
use crate::lists::same;

// Whether the lists have the edges of a record.
// kept: shared slices, so that lists lent for reading alone will do.
pub fn same_edges(
    bytes: &[u8],
    edges: &Table,
    left: &[u64],
    right: &[u64],
    predicate: &[u32],
    source: &[u32],
    kind: &[u32],
) -> bool
    ensures { result ≡ edges_listed bytes.now edges.now.at edges.now.count left.now right.now predicate.now source.now kind.now }
{
    let n = edges.count;
    let at = edges.at;
    same(left, bytes, at, 28, n)
        && same(right, bytes, at + 8, 28, n)
        && same(predicate, bytes, at + 16, 28, n)
        && same(source, bytes, at + 20, 28, n)
        && same(kind, bytes, at + 24, 28, n)
}

// Whether the lists have the plans of a record.
// kept: as same_edges.
pub fn same_plans(
    bytes: &[u8],
    plans: &Table,
    set: &[u64],
    left: &[u32],
    right: &[u32],
    lead: &[u32],
    kind: &[u32],
    rows: &[f64],
    cost: &[f64],
) -> bool
    ensures { result
        ≡ plans_listed bytes.now plans.now.at plans.now.count set.now left.now right.now lead.now kind.now rows.now cost.now }
{
    let n = plans.count;
    let at = plans.at;
    same(set, bytes, at, 40, n)
        && same(left, bytes, at + 8, 40, n)
        && same(right, bytes, at + 12, 40, n)
        && same(lead, bytes, at + 16, 40, n)
        && same(kind, bytes, at + 20, 40, n)
        && same(rows, bytes, at + 24, 40, n)
        && same(cost, bytes, at + 32, 40, n)
}

// Whether the lists have the memo entries of a record.
// kept: as same_edges.
pub fn same_memo(bytes: &[u8], memo: &Table, set: &[u64], plan: &[u32]) -> bool
    ensures { result ≡ memo_listed bytes.now memo.now.at memo.now.count set.now plan.now }
{
    let n = memo.count;
    let at = memo.at;
    same(set, bytes, at, 12, n) && same(plan, bytes, at + 8, 12, n)
}
