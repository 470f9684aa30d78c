// Replays records one after the other.
ghost use Rattle.std.specs.Prelude.{◌≡◌, ℕ, ◌+◌, ◌<◌, ◌≤◌, IfOk};

use std::io;
use std::io::Read;

// What a replay has seen so far.
pub trait Tally: Drop {
    // how many records it has seen
    ghost records: { Self → ℕ };

    // Sees one record more; what is to be told of it is printed.
    fn see(self, rt: &impl Print, record: &[u8]) -> io::Result<Self>
    where
        Self: Sized,
        requires { records self < 1000000 }
        ensures { IfOk result (λ next. records next ≡ records self + 1) };
}

// All records, up to a million; buf has room for the longest.
pub fn replay<T: Tally, R: Read>(
    rt: &impl Print,
    start: T,
    input: &mut R,
    buf: &mut [u8],
) -> io::Result<T>
    requires { T.records start ≡ 0 }
    ensures { IfOk result (λ tally. T.records tally ≤ 1000000) }
{
    let mut tally = start;
    for _ in 0..1000000u32 {
        let Some(n) = crate::next_record(input, buf)? else {
            break;
        };
        tally = tally.see(rt, &buf[..n])?;
    }
    Ok(tally)
}
