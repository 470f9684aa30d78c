// What the search is lent: the lists that it writes, and what it only reads.
use cost::Edges;

// The plan store and the memo, one list for each field: of a plan the set, the left and the right plan, the lead edge, the kind, rows and
// cost; of a memo entry the set and the plan.
// kept: parallel lists, as the caller lends them. Apart from Input, which is only read: one struct of both would have to say in each function
// that the input stays.
#[derive(Drop)]
pub struct Lists<'a> {
    pub pset: &'a mut [u64],
    pub pleft: &'a mut [u32],
    pub pright: &'a mut [u32],
    pub plead: &'a mut [u32],
    pub pkind: &'a mut [u32],
    pub prows: &'a mut [f64],
    pub pcost: &'a mut [f64],
    pub mset: &'a mut [u64],
    pub mplan: &'a mut [u32],
}

// The edges, the items' kinds, the predicates' selectivities, how many plans and memo entries the stores may hold, and how many visits may
// be made.
// kept: kinds and selectivities are lists of different things, each read by its own numbers.
#[derive(Clone, Copy)]
pub struct Input<'a> {
    pub edges: Edges<'a>,
    pub kinds: &'a [u32],
    pub selectivities: &'a [u32],
    pub plan_room: u32,
    pub memo_room: u32,
    pub limit: u32,
}
