// The search for a set in a list of sets.
ghost use Rattle.std.specs.Prelude.{◌≡◌, ◌+◌, ◌≤◌, length, take, drop};
ghost use Rattle.store.specs.Memo.{spot, holds};

// Whether s stands at one of four places, the first of which is i.
#[tactic(auto, using(crate::specs::Laws::holds_four))]
fn four_has(mset: &[u64], i: usize, s: u64) -> bool
    requires { i + 4 ≤ length mset.now }
    ensures { result ≡ holds mset.now i 4 s }
{
    (mset[i] == s) | (mset[i + 1] == s) | (mset[i + 2] == s) | (mset[i + 3] == s)
}

// Passes over eight places at a time: answers where the first four with s begin, or the rest of fewer than eight.
// kept: one place at a time takes twice the instructions (docs/DECISIONS.md); the place is counted, since it is what is answered.
fn skip_eights(mset: &[u64], s: u64) -> usize
    ensures { (result ≤ length mset.now) × (spot result (drop result mset.now) s ≡ spot 0 mset.now s) }
{
    let mut i: usize = 0;
    for eight in mset.chunks_exact(8) {
        if four_has(eight, 0, s) {
            return i;
        }
        if four_has(eight, 4, s) {
            return i + 4;
        }
        i += 8;
    }
    i
}

// Where s stands among the first n places.
// kept: n may pass the list's end, so each caller would have to cut the list first.
pub fn find(mset: &[u64], n: u32, s: u64) -> Option<u32>
    ensures { result ≡ spot 0 (take n mset.now) s }
{
    let front = &mset[..mset.len().min(n as usize)];
    let from = skip_eights(front, s);
    front[from..]
        .iter()
        .position(|x| *x == s)
        .map(|i| (from + i) as u32)
}
