// The cases. In the joined sheet the words stand at: header 0 to 20; leaf 0 at 24 to 36; leaf 1 at 40 to 52; the join at 56 to 68;
// the predicate at 72 to 80; the columns at 84 to 96.
use crate::writing::{cut, made, replaced};
use std::io;

pub fn lengths(rt: &impl Print) -> io::Result<()> {
    cut(rt, b"length 0", 0)?;
    cut(rt, b"length 23", 23)?;
    cut(rt, b"length 24, the tables missing", 24)?;
    cut(rt, b"one byte short", 99)?;
    cut(rt, b"two leaves and a join", 100)?;
    cut(rt, b"one byte long", 101)?;
    made(rt, b"no items, length 24", 0, 0, 0, 0, &[])
}

// kept: a list of cases, which differs from the others in each name and number.
pub fn counts(rt: &impl Print) -> io::Result<()> {
    made(
        rt,
        b"127 items, 256 predicates, 4096 columns",
        64,
        63,
        256,
        4096,
        &[],
    )?;
    made(rt, b"128 items", 64, 64, 0, 0, &[])?;
    made(rt, b"257 predicates", 1, 0, 257, 0, &[])?;
    made(rt, b"4097 columns", 1, 0, 0, 4097, &[])?;
    made(
        rt,
        b"4097 columns, and the item offset 25",
        1,
        0,
        0,
        4097,
        &[(4, 25)],
    )
}

pub fn offsets(rt: &impl Print) -> io::Result<()> {
    replaced(rt, b"item offset 23", &[(4, 23)])?;
    replaced(rt, b"item offset 25", &[(4, 25)])?;
    replaced(rt, b"item offset 28", &[(4, 28)])?;
    replaced(rt, b"predicate offset one less", &[(12, 71)])?;
    replaced(rt, b"predicate offset one more", &[(12, 73)])?;
    replaced(rt, b"column offset one less", &[(20, 83)])?;
    replaced(rt, b"column offset one more", &[(20, 85)])?;
    replaced(rt, b"a column fewer than the sheet has", &[(16, 3)])?;
    replaced(rt, b"a column more than the sheet has", &[(16, 5)])
}

// kept: a list of cases, which differs from the others in each name and number.
pub fn leaf_ranges(rt: &impl Print) -> io::Result<()> {
    replaced(rt, b"leaf's columns 2 and 3 of 4", &[(48, 2)])?;
    replaced(rt, b"leaf's columns 3 and 4 of 4", &[(48, 3)])?;
    replaced(rt, b"no columns, from the table's end", &[(48, 4), (52, 0)])?;
    replaced(
        rt,
        b"no columns, from past the table's end",
        &[(48, 5), (52, 0)],
    )
}

// kept: a list of cases, which differs from the others in each name and number.
pub fn join_ranges(rt: &impl Print) -> io::Result<()> {
    replaced(rt, b"join's predicates 0 and 1 of 1", &[(68, 2)])?;
    replaced(rt, b"join's predicate 1 of 1", &[(64, 1)])?;
    replaced(
        rt,
        b"no predicates, from the table's end",
        &[(64, 1), (68, 0)],
    )?;
    replaced(
        rt,
        b"no predicates, from past the table's end",
        &[(64, 2), (68, 0)],
    )
}

pub fn predicate_ranges(rt: &impl Print) -> io::Result<()> {
    replaced(rt, b"predicate's columns 2 and 3 of 4", &[(76, 2)])?;
    replaced(rt, b"predicate's columns 3 and 4 of 4", &[(76, 3)])?;
    replaced(rt, b"predicate's columns 1 to 4 of 4", &[(80, 4)])
}

// kept: a list of cases, which differs from the others in each name and number.
pub fn sums(rt: &impl Print) -> io::Result<()> {
    replaced(rt, b"leaf's first 4294967295, count 2", &[(48, 4294967295)])?;
    replaced(rt, b"leaf's count 4294967295, first 2", &[(52, 4294967295)])?;
    replaced(rt, b"join's first 4294967295, count 1", &[(64, 4294967295)])?;
    replaced(
        rt,
        b"predicate's count 4294967295, first 1",
        &[(80, 4294967295)],
    )?;
    replaced(
        rt,
        b"predicate's first and count 2147483648",
        &[(76, 2147483648), (80, 2147483648)],
    )
}

pub fn items(rt: &impl Print) -> io::Result<()> {
    replaced(rt, b"join of kind 7", &[(56, 7)])?;
    replaced(rt, b"cross product with a predicate", &[(56, 8)])?;
    replaced(rt, b"cross product without", &[(56, 8), (68, 0)])?;
    replaced(rt, b"join of kind 10", &[(56, 10)])?;
    replaced(rt, b"join with a row count", &[(60, 1)])?;
    replaced(
        rt,
        b"cross product with a range past the table",
        &[(56, 8), (64, 9)],
    )?;
    replaced(rt, b"leaf of 4294967295 rows", &[(28, 4294967295)])
}

pub fn predicates(rt: &impl Print) -> io::Result<()> {
    replaced(rt, b"selectivity 65536", &[(72, 65536)])?;
    replaced(rt, b"selectivity 65537", &[(72, 65537)])
}

pub fn order(rt: &impl Print) -> io::Result<()> {
    replaced(
        rt,
        b"item 0 past its table, item 1 of kind 10",
        &[(32, 9), (40, 10)],
    )?;
    replaced(
        rt,
        b"item 0 of kind 10, item 1 past its table",
        &[(24, 10), (48, 9)],
    )?;
    replaced(
        rt,
        b"join with a row count and past its table",
        &[(60, 1), (64, 9)],
    )?;
    replaced(
        rt,
        b"join of kind 10 with a row count",
        &[(56, 10), (60, 1)],
    )?;
    replaced(
        rt,
        b"item past its table, selectivity 65537",
        &[(64, 9), (72, 65537)],
    )?;
    replaced(
        rt,
        b"selectivity 65537, its columns past the table",
        &[(72, 65537), (76, 9)],
    )?;
    replaced(
        rt,
        b"selectivity 65537, and the walk broken",
        &[(72, 65537), (56, 9)],
    )
}

// kept: a list of cases, which differs from the others in each name and number.
pub fn leaves(rt: &impl Print) -> io::Result<()> {
    made(rt, b"64 leaves, 63 joins", 64, 63, 0, 0, &[])?;
    made(rt, b"64 leaves, no join", 64, 0, 0, 0, &[])?;
    made(rt, b"65 leaves, no join", 65, 0, 0, 0, &[])?;
    made(rt, b"65 leaves, 62 joins", 65, 62, 0, 0, &[])?;
    made(
        rt,
        b"a join that finds nothing, then 65 leaves",
        66,
        0,
        0,
        0,
        &[(24, 8)],
    )
}

// kept: a list of cases, which differs from the others in each name and number.
pub fn walks(rt: &impl Print) -> io::Result<()> {
    made(rt, b"no items, 2 predicates, 3 columns", 0, 0, 2, 3, &[])?;
    made(rt, b"one leaf", 1, 0, 0, 0, &[])?;
    made(rt, b"two leaves", 2, 0, 0, 0, &[])?;
    made(rt, b"a join alone", 0, 1, 0, 0, &[])?;
    made(rt, b"one leaf and a join", 1, 1, 0, 0, &[])?;
    made(rt, b"two leaves and two joins", 2, 2, 0, 0, &[])
}
