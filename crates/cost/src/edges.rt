// The edges, as the search and the costs read them.
ghost use Rattle.std.specs.Prelude.{◌≡◌, ◌≤◌, length};

// One place for each edge in each list: its two sets, its predicate or none, and its source item. Predicate and source read 0 past their
// list's end. No edge has the number that means none.
// kept: parallel lists, as the caller lends them.
#[derive(Clone, Copy)]
pub struct Edges<'a> {
    pub left: &'a [u64],
    pub right: &'a [u64],
    pub predicate: &'a [u32],
    pub source: &'a [u32],
    pub ghost as_long: { (length right.now ≡ length left.now)
        × (length left.now ≤ 4294967295) },
}
