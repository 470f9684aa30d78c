// The sheet check, in document 01's order: header; item by item; predicate by predicate; the walk.
ghost use Rattle.std.specs.Prelude.{◌≡◌, ◌<◌, length, Result, Ok};
ghost use Rattle.definition.specs.Lists.{concat_map};
ghost use Rattle.definition.specs.Question.{fits};
ghost use Rattle.definition.specs.Sheet.{question_of, first_failing, header_checks, item_checks, predicate_checks, walk_checks, reserved_is_set, sheet_answer};
ghost use Rattle.sheet.specs.Views.{range_of, item_of, predicate_of, sections_of};
ghost use Rattle.sheet_check.specs.Views.{answer_number, table_count};

use crate::Fault;
use nodeset::{CROSS_PRODUCT, LEAF, PredicateId};
use sheet::{Item, Predicate, Range, Sections, Sheet};

// Length, counts, offsets.
fn check_header(sheet: &[u8]) -> Result<(), Fault>
    ensures { answer_number result ≡ first_failing (header_checks sheet.now) }
{
    if sheet.len() < 24 {
        return Err(Fault::Truncated);
    }
    let s = sheet::sections_of(sheet);
    if 127 < s.items.count {
        return Err(Fault::OverLimit);
    }
    if 256 < s.predicates.count {
        return Err(Fault::OverLimit);
    }
    if 4096 < s.columns.count {
        return Err(Fault::OverLimit);
    }
    if s.items.offset != 24 {
        return Err(Fault::Misplaced);
    }
    if s.predicates.offset != s.items.offset + 16 * s.items.count {
        return Err(Fault::Misplaced);
    }
    if s.columns.offset != s.predicates.offset + 12 * s.predicates.count {
        return Err(Fault::Misplaced);
    }
    if sheet.len() != s.columns.offset + 4 * s.columns.count {
        return Err(Fault::Misplaced);
    }
    Ok(())
}

// The range lies in a table of so many entries; the sum does not wrap.
fn fits(r: Range, table: usize) -> bool
    ensures { result ≡ fits (range_of r) table }
{
    u64::from(r.first) + u64::from(r.count) <= table as u64
}

// A word that should be 0 isn't.
fn reserved_is_set(item: Item) -> bool
    ensures { result ≡ reserved_is_set (item_of item) }
{
    item.kind != LEAF && item.rows != 0
        || item.kind == CROSS_PRODUCT && (item.range.first != 0 || item.range.count != 0)
}

// An item's kind, the words that should be 0, and its range.
fn check_item(sheet: &Sheet<'_>, item: Item) -> Result<(), Fault>
    ensures { answer_number result ≡ first_failing (item_checks (question_of sheet.now.bytes.now) (item_of item)) }
{
    if LEAF < item.kind {
        return Err(Fault::UnknownKind);
    }
    if reserved_is_set(item) {
        return Err(Fault::ReservedNotZero);
    }
    if fits(item.range, table_count(sheet.sections, item.kind)) {
        Ok(())
    } else {
        Err(Fault::RangePastTable)
    }
}

// A leaf's range is one of columns, a join's one of predicates.
// kept: a kind is a number, as said at Item.
fn table_count(s: Sections, kind: u32) -> usize
    ensures { result ≡ table_count s kind }
{
    if kind == LEAF {
        s.columns.count
    } else {
        s.predicates.count
    }
}

// kept: beside check_predicates, since items and predicates are of different types and have different checks.
fn check_items(sheet: &Sheet<'_>) -> Result<(), Fault>
    ensures { answer_number result ≡ first_failing (concat_map (item_checks (question_of sheet.now.bytes.now)) (question_of sheet.now.bytes.now).items) }
{
    for item in sheet.items() {
        check_item(sheet, item)?;
    }
    Ok(())
}

fn check_predicate(sheet: &Sheet<'_>, predicate: Predicate) -> Result<(), Fault>
    ensures { answer_number result ≡ first_failing (predicate_checks (question_of sheet.now.bytes.now) (predicate_of predicate)) }
{
    if 65536 < predicate.selectivity {
        return Err(Fault::SelectivityAboveOne);
    }
    if fits(predicate.range, sheet.sections.columns.count) {
        Ok(())
    } else {
        Err(Fault::RangePastTable)
    }
}

// kept: beside check_items, as said there.
fn check_predicates(sheet: &Sheet<'_>) -> Result<(), Fault>
    ensures { answer_number result
        ≡ first_failing (concat_map (predicate_checks (question_of sheet.now.bytes.now)) (question_of sheet.now.bytes.now).predicates) }
{
    for p in 0..sheet.sections.predicates.count as u32 {
        check_predicate(sheet, sheet.predicate(PredicateId(p)))?;
    }
    Ok(())
}

fn check_walk(sheet: &Sheet<'_>) -> Result<(), Fault>
    ensures { answer_number result ≡ first_failing (walk_checks (question_of sheet.now.bytes.now)) }
{
    let crowded = 64 < sheet.leaf_count();
    let broken = !sheet.is_walk();
    if crowded {
        return Err(Fault::TooManyLeaves);
    }
    if broken {
        return Err(Fault::BrokenWalk);
    }
    Ok(())
}

// Any bytes get an answer: the first check of document 01 that fails, or where the sections stand.
pub fn check(sheet: &[u8]) -> Result<Sections, Fault>
    ensures answer { answer_number result ≡ sheet_answer sheet.now }
    ensures sections { (s : Sections) → result ≡ Ok s → s ≡ sections_of sheet.now }
{
    check_header(sheet)?;
    let read = Sheet {
        bytes: sheet,
        sections: sheet::sections_of(sheet),
    };
    check_items(&read)?;
    check_predicates(&read)?;
    check_walk(&read)?;
    Ok(read.sections)
}
