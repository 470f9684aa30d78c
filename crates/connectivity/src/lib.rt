// Whether two sets of leaves are connected by the edges so far: the connectivity test of HypergraphBuilder.
#![tactic(auto)]

ghost use Rattle.std.specs.Prelude.{◌≡◌, false, ℕ, length};
ghost use Rattle.definition.specs.Connected.{own_classes, one_class, met, merge, merges, round, rounds, connected};
ghost use Rattle.connectivity.specs.Crossed.{crosses, is_crossed};
ghost use Rattle.connectivity.specs.Parted.{Parted};

// The left and the right sides of the edges so far, each edge's at one place of the two slices.
// kept: parallel lists, as the caller lends them.
#[derive(Clone, Copy)]
pub struct EdgeSides<'a> {
    pub left: &'a [u64],
    pub right: &'a [u64],
    ghost same: { length right.now ≡ length left.now },
}

// For each of the 64 leaves, the set of the leaves in its class.
#[derive(Drop)]
struct Classes([u64; 64]);

impl Classes {
    // Each leaf is a class by itself.
    fn own() -> Self
        ensures { result.0 ≡ own_classes }
    {
        Self(std::array::from_fn(|i| 1u64 << i))
    }

    // Whether s lies in one class.
    fn is_one(&self, s: u64) -> bool
        ensures { result ≡ one_class s self.now.0 }
    {
        if s == 0 {
            return true;
        }
        nodeset::is_subset(s, self.0[nodeset::nodeset_min(s).0 as usize])
    }

    // The union of the classes that meet s, each found by the lowest of its leaves in s.
    fn met(&self, s: u64) -> u64
        requires { Parted self.now.0 }
        ensures { result ≡ met s 0 self.now.0 }
    {
        let mut all = 0;
        let mut left = s;
        while left != 0 {
            let class = self.0[nodeset::nodeset_min(left).0 as usize];
            all |= class;
            left = nodeset::difference(left, class);
        }
        all
    }

    // The classes that meet s become one: it is the class of each of its leaves.
    fn merge(&mut self, s: u64)
        requires { Parted self.old.0 }
        ensures { self.new.0 ≡ merge s self.old.0 }
    {
        let all = self.met(s);
        let mut left = all;
        while left != 0 {
            let leaf = nodeset::nodeset_min(left);
            self.0[leaf.0 as usize] = all;
            left = nodeset::difference(left, nodeset::nodeset_singleton(leaf));
        }
    }

    // Whether an edge with the sides l and r has something to merge.
    #[tactic(auto, unfolding(definition::specs::Connected::merges))]
    fn merges(&self, l: u64, r: u64, skip: u64) -> bool
        ensures { result ≡ merges skip l r self.now.0 }
    {
        let both = l | r;
        both != skip && !self.is_one(both) && self.is_one(l) && self.is_one(r)
    }

    // One round over the edges. Whether any merged.
    fn pass(&mut self, edges: &EdgeSides<'_>, skip: u64) -> bool
        requires { Parted self.old.0 }
        ensures after { self.new.0 ≡ round skip edges.now.left.now edges.now.right.now self.old.0 }
        ensures same { result ≡ false → self.new.0 ≡ self.old.0 }
    {
        let mut changed = false;
        for (l, r) in edges.left.iter().zip(edges.right) {
            if self.merges(*l, *r, skip) {
                self.merge(*l | *r);
                changed = true;
            }
        }
        changed
    }

    // Rounds over the edges until nothing changes.
    fn settle(&mut self, edges: &EdgeSides<'_>, skip: u64)
        requires { Parted self.old.0 }
        ensures { self.new.0 ≡ rounds (length edges.now.left.now) skip edges.now.left.now edges.now.right.now self.old.0 }
    {
        let n = edges.left.len();
        for _round in 0..n {
            if !self.pass(edges, skip) {
                return;
            }
        }
    }
}

// Whether the leaves u of an edge are some of s and some others.
fn crosses(s: u64, u: u64) -> bool
    ensures { result ≡ crosses s u }
{
    !nodeset::is_disjoint(u, s) && !nodeset::is_subset(u, s)
}

// Whether one of the edges crosses s.
fn is_crossed(edges: &EdgeSides<'_>, s: u64) -> bool
    ensures { result ≡ is_crossed s edges.now.left.now edges.now.right.now }
{
    edges
        .left
        .iter()
        .zip(edges.right)
        .any(|(l, r)| crosses(s, *l | *r))
}

// Whether a and b are connected by the edges, those whose union is skip passed over. Where b has no leaf of a, and no edge has leaves in b and
// others, they are not, and no classes are made.
pub fn connected(edges: &EdgeSides<'_>, a: u64, b: u64, skip: u64) -> bool
    ensures { result ≡ connected edges.now.left.now edges.now.right.now a b skip }
{
    if a == 0 {
        return false;
    }
    if b == 0 {
        return false;
    }
    if nodeset::is_disjoint(a, b) && !is_crossed(edges, b) {
        return false;
    }
    let mut classes = Classes::own();
    classes.merge(a);
    classes.merge(b);
    classes.settle(edges, skip);
    classes.is_one(a | b)
}
