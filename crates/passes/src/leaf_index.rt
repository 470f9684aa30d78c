// The index of the memo while it has the leaves' entries alone.
ghost use Rattle.std.specs.Prelude.{◌≡◌, ◌≤◌, length, replicate};
ghost use Rattle.memo_index.specs.Index.{Kept};
ghost use Rattle.passes.specs.LeafSets.{leaf_sets};

use nodeset::NodeId;

// Enters the leaves' sets in their order into an index that is vacant.
// kept: the array is lent, since one handed back by value is copied.
pub fn index_leaves(index: &mut [u32; 1024], leaves: u32)
    requires vacant { index.old ≡ replicate 1024 0 }
    requires few { leaves ≤ 64 }
    ensures kept { Kept index.new (leaf_sets leaves) leaves }
    ensures sized { length index.new ≡ 1024 }
{
    for k in 0..leaves {
        memo_index::enter(index, nodeset::nodeset_singleton(NodeId(k)), k);
    }
}
