// The lists of a call, owned: arrays of fixed lengths, to be lent.
ghost use Rattle.std.specs.Prelude.{◌≡◌};
ghost use Rattle.builder.specs.Builds.{edge_lists_of};
ghost use Rattle.candidate.specs.Lent.{lists_of};
ghost use Rattle.planner.specs.Stores.{edges_in, lists_in, edges_filled, lists_filled};

use builder::EdgeLists;
use store::Lists;

// The lists of N edges.
// kept: parallel arrays, one for each list that is lent.
#[derive(Drop)]
pub struct EdgeArrays<const N: usize> {
    left: [u64; N],
    right: [u64; N],
    predicate: [u32; N],
    source: [u32; N],
    kind: [u32; N],
}

impl<const N: usize> EdgeArrays<N> {
    // Each place holds the long or the word.
    pub fn new(long: u64, word: u32) -> Self
        ensures { edges_in result ≡ edges_filled N long word }
    {
        EdgeArrays {
            left: [long; N],
            right: [long; N],
            predicate: [word; N],
            source: [word; N],
            kind: [word; N],
        }
    }

    // All of them; what they hold once they are back, no clause says.
    pub fn lend(&mut self) -> EdgeLists<'_>
        ensures { edge_lists_of result ≡ edges_in self.old }
    {
        EdgeLists {
            left: &mut self.left,
            right: &mut self.right,
            predicate: &mut self.predicate,
            source: &mut self.source,
            kind: &mut self.kind,
        }
    }
}

// The lists of P plans and M memo entries.
// kept: as EdgeArrays.
#[derive(Drop)]
pub struct ListArrays<const P: usize, const M: usize> {
    pset: [u64; P],
    pleft: [u32; P],
    pright: [u32; P],
    plead: [u32; P],
    pkind: [u32; P],
    prows: [f64; P],
    pcost: [f64; P],
    mset: [u64; M],
    mplan: [u32; M],
}

impl<const P: usize, const M: usize> ListArrays<P, M> {
    // Each place holds the long, the word or the number.
    pub fn new(long: u64, word: u32, number: f64) -> Self
        ensures { lists_in result ≡ lists_filled P M long word number }
    {
        ListArrays {
            pset: [long; P],
            pleft: [word; P],
            pright: [word; P],
            plead: [word; P],
            pkind: [word; P],
            prows: [number; P],
            pcost: [number; P],
            mset: [long; M],
            mplan: [word; M],
        }
    }

    // As EdgeArrays::lend.
    pub fn lend(&mut self) -> Lists<'_>
        ensures { lists_of result ≡ lists_in self.old }
    {
        Lists {
            pset: &mut self.pset,
            pleft: &mut self.pleft,
            pright: &mut self.pright,
            plead: &mut self.plead,
            pkind: &mut self.pkind,
            prows: &mut self.prows,
            pcost: &mut self.pcost,
            mset: &mut self.mset,
            mplan: &mut self.mplan,
        }
    }
}
