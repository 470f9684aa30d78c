// The sets that the search's loops go over: the subsets of a set in rising order, and its leaves from the highest down.
#![tactic(auto)]

ghost use Rattle.std.specs.Prelude.{◌≡◌, bit_and};

mod falling;
mod rising;

// The subsets of a set but the empty one, in rising order. last: the one given last, and the empty set before the first.
#[derive(Drop)]
pub struct Subsets {
    set: u64,
    last: u64,
    ghost inside: { bit_and last set ≡ last },
}

// The leaves of a set, each as a set, the highest first. left: those still to come.
#[derive(Drop)]
pub struct Leaves {
    left: u64,
}
