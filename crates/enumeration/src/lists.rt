// What is read from and written to the lent lists and the counts.
ghost use Rattle.std.specs.Prelude.{◌≡◌, ◌<◌, None};
ghost use Rattle.enumeration.specs.Store.{spot_of, visit, with_candidate, with_entry};
ghost use Rattle.enumeration.specs.Lent.{store_of, SameLists, Indexed};

use crate::{Bounds, OpenLists};

// Where the memo has s.
// kept: a function by itself, since the lists behind a `&mut` cannot be lent one beside the other.
pub fn find(b: Bounds, l: &OpenLists<'_>, s: u64) -> Option<u32>
    requires { Indexed b l.now }
    ensures { result ≡ spot_of (store_of l.now) s }
{
    memo_index::find(l.mset, l.counts.memo, l.index, s)
}

// One visit more, or the stop at the limit.
pub fn visit(b: Bounds, l: &mut OpenLists<'_>)
    requires { Indexed b l.old }
    ensures same { SameLists l.old l.new }
    ensures value { store_of l.new ≡ visit b.limit (store_of l.old) }
    ensures index { Indexed b l.new }
{
    l.counts = l.counts.visit(b.limit);
}

// Lists a candidate by these positions.
pub fn list_candidate(b: Bounds, l: &mut OpenLists<'_>, left: u32, right: u32, union: u32)
    requires room { l.old.counts.plans < b.plan_room }
    requires index { Indexed b l.old }
    ensures same { SameLists l.old l.new }
    ensures value { store_of l.new ≡ with_candidate (store_of l.old) left right union }
    ensures index { Indexed b l.new }
{
    let at = l.counts.plans;
    let room = b.plan_room;
    prove!(at < room);
    places::put(l.pleft, at, left);
    places::put(l.pright, at, right);
    places::put(l.plead, at, union);
    l.counts.plans = at + 1;
}

// Enters s, which the memo does not have.
pub fn enter(b: Bounds, l: &mut OpenLists<'_>, s: u64)
    requires room { l.old.counts.memo < b.memo_room }
    requires new { spot_of (store_of l.old) s ≡ None }
    requires index { Indexed b l.old }
    ensures same { SameLists l.old l.new }
    ensures value { store_of l.new ≡ with_entry (store_of l.old) s }
    ensures index { Indexed b l.new }
{
    let at = l.counts.memo;
    let room = b.memo_room;
    prove!(at < room);
    places::put(l.mset, at, s);
    memo_index::enter(l.index, s, at);
    l.counts.memo = at + 1;
}
