// The lengths of the stores.
ghost use Rattle.std.specs.Prelude.{◌≡◌, [], ◌∷◌, length};
ghost use Rattle.definition.specs.Call as call;
ghost use Rattle.checks.specs.Answers.{rooms_of};

use builder::EdgeLists;
use store::Lists;

// The lengths of the three stores.
#[derive(Clone, Copy)]
pub struct Rooms {
    pub edges: u32,
    pub plans: u32,
    pub memo: u32,
}

impl Rooms {
    // A store that is longer counts as one of this length.
    pub const LONGEST: usize = 16777216;

    // Of the lent lists.
    pub fn of(edges: &EdgeLists<'_>, lists: &Lists<'_>) -> Rooms
        ensures { rooms_of result ≡ call.rooms_of
            (length edges.now.left.now ∷ length edges.now.right.now ∷ length edges.now.predicate.now ∷ length edges.now.source.now
            ∷ length edges.now.kind.now ∷ [])
            (length lists.now.pset.now ∷ length lists.now.pleft.now ∷ length lists.now.pright.now ∷ length lists.now.plead.now
            ∷ length lists.now.pkind.now ∷ length lists.now.prows.now ∷ length lists.now.pcost.now ∷ [])
            (length lists.now.mset.now ∷ length lists.now.mplan.now ∷ []) }
    {
        Rooms {
            edges: store_length(&[
                edges.left.len(),
                edges.right.len(),
                edges.predicate.len(),
                edges.source.len(),
                edges.kind.len(),
            ]),
            plans: store_length(&[
                lists.pset.len(),
                lists.pleft.len(),
                lists.pright.len(),
                lists.plead.len(),
                lists.pkind.len(),
                lists.prows.len(),
                lists.pcost.len(),
            ]),
            memo: store_length(&[lists.mset.len(), lists.mplan.len()]),
        }
    }
}

// The length of a store, from those of its lists: the shortest one, and at most Rooms::LONGEST.
pub fn store_length(lengths: &[usize]) -> u32
    ensures { result ≡ call.store_length lengths.now }
{
    lengths
        .iter()
        .fold(Rooms::LONGEST, |shortest, n| shortest.min(*n)) as u32
}
