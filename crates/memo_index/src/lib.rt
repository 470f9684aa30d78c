// The memo's index: where a set stands among the memo's first n, and a new entry. A list of any other length than 1,024 is no index: the memo is
// then searched from its front, and nothing is entered.
#![tactic(auto)]

ghost use Rattle.std.specs.Prelude.{◌≡◌, ◌<◌, ◌≤◌, length, take, drop};
ghost use Rattle.store.specs.Memo.{spot};
ghost use Rattle.memo_index.specs.Index.{home, free, lookup, noted, vacant, Searched, Room, Kept};

// Where s stands, by the entries from its home on, up to the first vacant place.
fn probe(mset: &[u64], index: &[u32], s: u64) -> Option<u32>
    requires { Searched index.now mset.now }
    ensures { result ≡ lookup index.now mset.now s }
{
    let mut p = (s % 1021) as usize;
    // kept: the places go round at the end, which no range does.
    while index[p] != 0 {
        let i = index[p] - 1;
        if mset[i as usize] == s {
            return Some(i);
        }
        p = (p + 1) % 1024;
    }
    None
}

// Where s stands among those of the first n places that are past the first 512.
fn scan(mset: &[u64], n: u32, s: u64) -> Option<u32>
    requires { n ≤ length mset.now }
    ensures { result ≡ spot 512 (drop 512 (take n mset.now)) s }
{
    if n <= 512 {
        return None;
    }
    let i = store::find(&mset[512..], n - 512, s)?;
    Some(i + 512)
}

// Where s stands among the first n places.
pub fn find(mset: &[u64], n: u32, index: &[u32], s: u64) -> Option<u32>
    requires { Kept index.now mset.now n }
    ensures { result ≡ spot 0 (take n mset.now) s }
{
    if index.len() != 1024 {
        return store::find(mset, n, s);
    }
    probe(mset, index, s).or_else(|| scan(mset, n, s))
}

// The first vacant place from s's home on.
fn free_place(index: &[u32], s: u64) -> usize
    requires sized { length index.now ≡ 1024 }
    requires ends { 0 < vacant index.now }
    ensures { result ≡ free 1024 index.now (home s) }
{
    let mut q = (s % 1021) as usize;
    // kept: as in probe.
    while index[q] != 0 {
        q = (q + 1) % 1024;
    }
    q
}

// Enters s, which is new in the memo at position i.
pub fn enter(index: &mut [u32], s: u64, i: u32)
    requires { Room index.old i }
    ensures { index.new ≡ noted index.old s i }
{
    if index.len() == 1024 && i < 512 {
        let q = free_place(index, s);
        index[q] = i + 1;
    }
}
