// ses_for_predicate of hypergraph.rs: a side's syntactic eligibility set, the leaves that a join's columns name in it. Each leaf so far is a
// range of the sheet's columns; leaf k's is at place k.
#![tactic(auto)]

ghost use Rattle.std.specs.Prelude.{◌≡◌, ◌&&◌, ◌<◌, eqb};
ghost use Rattle.nodeset.specs.Sets.{bit};
ghost use Rattle.definition.specs.Lists.{member};
ghost use Rattle.definition.specs.Question.{part};
ghost use Rattle.definition.specs.Sheet.{question_of};
ghost use Rattle.definition.specs.Edges.{holder, holders, side_set};
ghost use Rattle.sheet.specs.Views.{range_of};
ghost use Rattle.ses.specs.View.{columns_at, leaves_of, columns_of, Fit, Fits, Named};

use nodeset::{NodeId, PredicateId};
use sheet::{Range, Sheet};

// Whether c is among the columns of the range r.
fn has_column(sheet: &Sheet<'_>, r: Range, c: u32) -> bool
    requires { Fit sheet.now.bytes.now r.first r.count }
    ensures { result ≡ member c (columns_at sheet.now.bytes.now r.first r.count) }
{
    let first = r.first as usize;
    (0..r.count as usize).any(|i| sheet.column(first + i) == c)
}

// A side of a join: the leaves so far, each with the range of its columns, and the set of those that are in the side.
#[derive(Clone, Copy)]
struct Side<'a> {
    sheet: Sheet<'a>,
    leaves: &'a [Range],
    set: u64,
    ghost fits: { Fits sheet.bytes.now leaves.now },
}

impl Side<'_> {
    // Whether leaf k is in the side and has the column c. r: the range of its columns.
    fn holds(&self, k: usize, r: Range, c: u32) -> bool
        requires { (k < 64) × Fit self.now.sheet.bytes.now r.first r.count }
        ensures { result ≡ (eqb (bit self.now.set k) 1 && member c (columns_at self.now.sheet.bytes.now r.first r.count)) }
    {
        if nodeset::is_disjoint(nodeset::nodeset_singleton(NodeId(k as u32)), self.set) {
            return false;
        }
        has_column(&self.sheet, r, c)
    }

    // The lowest of the leaves that is in the side and has the column c, as a set.
    fn holder(&self, c: u32) -> u64
        ensures { result ≡ holder 0 (leaves_of self.now.sheet.bytes.now self.now.leaves.now) self.now.set c }
    {
        for (k, r) in self.leaves.iter().enumerate() {
            if self.holds(k, *r, c) {
                return nodeset::nodeset_singleton(NodeId(k as u32));
            }
        }
        0
    }

    // t with the holder of each column of the range r.
    fn with_holders(&self, r: Range, t: u64) -> u64
        requires { Fit self.now.sheet.bytes.now r.first r.count }
        ensures { result ≡ holders (leaves_of self.now.sheet.bytes.now self.now.leaves.now) self.now.set
            (part (range_of r) (question_of self.now.sheet.bytes.now).columns) t }
    {
        let first = r.first as usize;
        let mut u = t;
        for i in 0..r.count as usize {
            let c = self.sheet.column(first + i);
            u |= self.holder(c);
        }
        u
    }
}

// The leaves of a side that the predicates of the range p name; the whole side where there are none.
pub fn side_set(sheet: &Sheet<'_>, leaves: &[Range], side: u64, p: Range) -> u64
    requires { Fits sheet.now.bytes.now leaves.now × Named sheet.now.bytes.now p.first p.count }
    ensures { result ≡ side_set (leaves_of sheet.now.bytes.now leaves.now) side (columns_of sheet.now.bytes.now (range_of p)) }
{
    let s = Side {
        sheet: *sheet,
        leaves,
        set: side,
    };
    let mut u: u64 = 0;
    for i in 0..p.count {
        let r = sheet.predicate(PredicateId(p.first + i)).range;
        u = s.with_holders(r, u);
    }
    if u == 0 { side } else { u }
}
