// Fills a lent buffer, or an array, from a reader. Nothing is allocated.
#![tactic(auto)]

ghost use Rattle.std.specs.Prelude.{◌≡◌, length, take, drop, leb, IfSome, IfOk, OnOk};
ghost use Rattle.std.specs.Io.{ReadsAtMost};
ghost use Rattle.reading.specs.Front.{front_of, first_word};

use std::io;
use std::io::Read;

// Reads until buf is full or the input ends, and answers how many bytes it put at the start of buf. On an empty buf it makes no call.
pub fn read_full<R: Read>(input: &mut R, buf: &mut [u8]) -> io::Result<usize>
    ensures bound { ReadsAtMost result buf.new }
    ensures front { IfOk result (λ n. IfSome (R.remaining input.old) (λ bs. take n buf.new ≡ take (length buf.old) bs)) }
    ensures rest { OnOk result (IfSome (R.remaining input.old) (λ bs. R.remaining input.new ≡ Some (drop (length buf.old) bs))) }
{
    let mut done = 0;
    // kept: a turn goes on by as many bytes as were read, which no range counts.
    while done < buf.len() {
        let n = input.read(&mut buf[done..])?;
        if n == 0 {
            break;
        }
        done += n;
    }
    Ok(done)
}

// Reads N bytes; none where the input ends before.
pub fn read_array<const N: usize, R: Read>(input: &mut R) -> io::Result<Option<[u8; N]>>
    ensures value { IfOk result (λ r. IfSome (R.remaining input.old) (λ bs. r ≡ front_of N bs)) }
    ensures rest { OnOk result (IfSome (R.remaining input.old) (λ bs. R.remaining input.new ≡ Some (drop N bs))) }
{
    let mut bytes = [0u8; N];
    let got = read_full(input, &mut bytes)?;
    Ok((got == N).then_some(bytes))
}

// Reads a word of four bytes, the lowest first; 0 where the input ends before.
// kept: 0 serves both callers: no record has the length 0, and no round is then called.
pub fn read_word<R: Read>(input: &mut R) -> io::Result<u32>
    ensures value { IfOk result (λ n. IfSome (R.remaining input.old) (λ bs. n ≡ first_word bs)) }
    ensures rest { OnOk result (IfSome (R.remaining input.old) (λ bs. R.remaining input.new ≡ Some (drop 4 bs))) }
{
    Ok(read_array(input)?.map_or(0, u32::from_le_bytes))
}
