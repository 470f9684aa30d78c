// The question sheet: where its sections stand, and the readers of its fields. Nothing is copied; a sheet stays where the caller has it.
#![tactic(auto)]

ghost use Rattle.sheet.specs.Views.{Placed};

mod items;
mod read;

pub use items::Items;
pub use read::{sections_of, word};

// Where a table starts, in bytes, and how many entries it has.
#[derive(Clone, Copy)]
pub struct Section {
    pub offset: usize,
    pub count: usize,
}

// Where an accepted sheet's tables stand; stride is the length of an item in bytes.
#[derive(Clone, Copy)]
pub struct Sections {
    pub items: Section,
    pub stride: usize,
    pub predicates: Section,
    pub columns: Section,
}

// Entries first to first + count - 1 of a table.
#[derive(Clone, Copy, Default)]
pub struct Range {
    pub first: u32,
    pub count: u32,
}

// An item of the walk. Of one that is no leaf, rows is the word that should be 0; the range is a leaf's of columns, or a join's of predicates.
// kept: a kind is a number: a sheet may hold any until it is checked, and the lent lists hold it as one.
#[derive(Clone, Copy)]
pub struct Item {
    pub kind: u32,
    pub rows: u64,
    pub range: Range,
}

// The part of row pairs that a predicate keeps, in 65,536ths, and the range of columns that it names.
#[derive(Clone, Copy)]
pub struct Predicate {
    pub selectivity: u32,
    pub range: Range,
}

// The bytes of a sheet whose header has passed, and where its sections stand.
#[derive(Clone, Copy)]
pub struct Sheet<'a> {
    pub bytes: &'a [u8],
    pub sections: Sections,
    pub ghost placed: { Placed bytes.now sections },
}
