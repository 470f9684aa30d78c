// emit_csg_cmp: a pair of sets is listed as a candidate. The lookup of its right set leaves early; that of its left set does so in emit_kept.
ghost use Rattle.std.specs.Prelude.{◌≡◌};
ghost use Rattle.graph.specs.View.{edges_with};
ghost use Rattle.enumeration.specs.Store.{attempt};
ghost use Rattle.enumeration.specs.Lent.{store_of, SameLists, Indexed, Ready};
ghost use Rattle.enumeration.specs.Walks.{try_connected};

use crate::{Bounds, Entry, OpenLists, lists};
use graph::Graph;
use store::Stop;

// Lists the pair of s1 and s2, which an edge connects, as a candidate, if both stores have room for it.
#[tactic(auto, unfolding(crate::specs::Store::attempt, crate::specs::Store::paired, crate::specs::Store::united))]
fn list_if_room(b: Bounds, l: &mut OpenLists<'_>, s1: Entry, s2: Entry)
    requires left { Ready b l.old s1 }
    requires right { Ready b l.old s2 }
    ensures same { SameLists l.old l.new }
    ensures value { store_of l.new ≡ attempt b s1.set s2.set (store_of l.old) }
    ensures index { Indexed b l.new }
{
    if l.counts.stop.is_some() {
        return;
    }
    if l.counts.plans >= b.plan_room {
        l.counts.stop = Some(Stop::PlansFull);
        return;
    }
    let s = s1.set | s2.set;
    if let Some(union) = lists::find(b, l, s) {
        lists::list_candidate(b, l, s1.position, s2.position, union);
        return;
    }
    let memo = l.counts.memo;
    if memo >= b.memo_room {
        l.counts.stop = Some(Stop::MemoFull);
        return;
    }
    lists::list_candidate(b, l, s1.position, s2.position, memo);
    lists::enter(b, l, s);
}

// Lists the pair of s1 and c as a candidate, if the memo has c and an edge leads there. That the memo has s1 its own lookup has shown.
#[tactic(auto, unfolding(crate::specs::Walks::try_connected))]
pub fn emit_csg_cmp(b: Bounds, graph: &Graph<'_>, l: &mut OpenLists<'_>, s1: Entry, c: u64)
    requires { Ready b l.old s1 }
    ensures same { SameLists l.old l.new }
    ensures value { store_of l.new ≡ try_connected (edges_with graph.now.edges) b s1.set c (store_of l.old) }
    ensures index { Indexed b l.new }
{
    let Some(position) = lists::find(b, l, c) else {
        return;
    };
    let s2 = Entry { set: c, position };
    if graph::has_edge(graph, s1.set, c) {
        list_if_room(b, l, s1, s2);
    }
}
