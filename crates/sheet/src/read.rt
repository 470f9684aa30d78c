// The fields of a sheet whose header has passed, read where they stand.
ghost use Rattle.std.specs.Prelude.{◌≡◌, ◌+◌, ◌<◌, ◌≤◌, length, get_or};
ghost use Rattle.definition.specs.Question.{item, predicate};
ghost use Rattle.definition.specs.Sheet.{word, range, question_of};
ghost use Rattle.sheet.specs.Views.{range_of, item_of, predicate_of, sections_of};

use crate::{Item, Predicate, Range, Section, Sections, Sheet};
use nodeset::PredicateId;

// The word whose four bytes start at `at`, the lowest first.
pub fn word(sheet: &[u8], at: usize) -> u32
    requires { at + 4 ≤ length sheet.now }
    ensures { result ≡ word sheet.now at }
{
    u32::from_le_bytes([sheet[at], sheet[at + 1], sheet[at + 2], sheet[at + 3]])
}

fn range(sheet: &[u8], at: usize) -> Range
    requires { at + 8 ≤ length sheet.now }
    ensures { range_of result ≡ range sheet.now at }
{
    let first = word(sheet, at);
    let count = word(sheet, at + 4);
    Range { first, count }
}

// Where the sections stand, by the header.
pub fn sections_of(sheet: &[u8]) -> Sections
    requires { 24 ≤ length sheet.now }
    ensures { result ≡ sections_of sheet.now }
{
    let items = Section {
        offset: word(sheet, 4) as usize,
        count: word(sheet, 0) as usize,
    };
    let predicates = Section {
        offset: word(sheet, 12) as usize,
        count: word(sheet, 8) as usize,
    };
    let columns = Section {
        offset: word(sheet, 20) as usize,
        count: word(sheet, 16) as usize,
    };
    Sections {
        items,
        stride: 16,
        predicates,
        columns,
    }
}

impl Sheet<'_> {
    // Item i.
    pub fn item(&self, i: usize) -> Item
        requires { i < self.now.sections.items.count }
        ensures item { item_of result ≡ item (question_of self.now.bytes.now) i }
        ensures few { result.rows ≤ 281474976710656 }
    {
        let at = self.sections.items.offset + self.sections.stride * i;
        Item {
            kind: word(self.bytes, at),
            rows: u64::from(word(self.bytes, at + 4)),
            range: range(self.bytes, at + self.sections.stride - 8),
        }
    }

    // Predicate p.
    pub fn predicate(&self, p: PredicateId) -> Predicate
        requires { p.0 < self.now.sections.predicates.count }
        ensures { predicate_of result ≡ predicate (question_of self.now.bytes.now) p.0 }
    {
        let at = self.sections.predicates.offset + 12 * p.0 as usize;
        Predicate {
            selectivity: word(self.bytes, at),
            range: range(self.bytes, at + 4),
        }
    }

    // Column i.
    pub fn column(&self, i: usize) -> u32
        requires { i < self.now.sections.columns.count }
        ensures { result ≡ get_or (question_of self.now.bytes.now).columns i 0 }
    {
        word(self.bytes, self.sections.columns.offset + 4 * i)
    }
}
