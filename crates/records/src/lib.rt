// Stored records: a line of text, then records. A record begins with its whole length in bytes, a sheet's length and the
// sheet, filled up to whole words. Numbers are little-endian; a word has 4 bytes, a long 8. The oracle writes them (oracle/README.md).
#![tactic(auto)]

mod call;
mod entries;
mod lists;
mod replays;

ghost use Rattle.std.specs.Prelude.{◌≡◌, ◌+◌, ◌<◌, ◌≤◌, length, take, drop, unwrap_or, IfSome, MatchOption, IfOk, OnOk};
ghost use Rattle.records.specs.Records.{word_at, long_at, sheet_of, after_sheet, line_goes_on, after_line, record_in};

pub use call::{Places, Table, limit, list_length};
pub use entries::{same_edges, same_memo, same_plans};
pub use lists::{Element, LONG, NUMBER, WORD};
pub use replays::{Tally, replay};
use std::io;
use std::io::Read;

// The N bytes there; none where they go past the end.
fn part<const N: usize>(bytes: &[u8], at: usize) -> Option<&[u8; N]>
    ensures { MatchOption result (length bytes.now < at + N) (λ part. (at + N ≤ length bytes.now) × (part.now ≡ take N (drop at bytes.now))) }
{
    bytes.get(at..)?.first_chunk()
}

// The word there, and 0 past the end.
// kept: 0 past the end, as the definition (word_at) reads it; an Option would be unmade at once by nearly every caller.
#[tactic(auto, using(crate::proofs::PartLaws::word_of_part, crate::specs::RecordLaws::word_past))]
pub fn word(bytes: &[u8], at: usize) -> u32
    ensures { result ≡ word_at bytes.now at }
{
    part::<4>(bytes, at).map_or(0, |part| u32::from_le_bytes(*part))
}

// The long there, and 0 past the end.
// kept: as word, of which it differs in a number's length and type, which part::<N> serves.
#[tactic(auto, using(crate::proofs::PartLaws::long_of_part, crate::specs::RecordLaws::long_past))]
pub fn long(bytes: &[u8], at: usize) -> u64
    ensures { result ≡ long_at bytes.now at }
{
    part::<8>(bytes, at).map_or(0, |part| u64::from_le_bytes(*part))
}

// Reads one byte, and answers whether the line goes on. It ends where the input does, as at a newline.
fn goes_on<R: Read>(input: &mut R) -> io::Result<bool>
    ensures value { IfOk result (λ more. IfSome (R.remaining input.old) (λ bs. more ≡ line_goes_on bs)) }
    ensures rest { OnOk result (IfSome (R.remaining input.old) (λ bs. R.remaining input.new ≡ Some (drop 1 bs))) }
{
    let byte: [u8; 1] = reading::read_array(input)?.unwrap_or([b'\n']);
    Ok(byte[0] != b'\n')
}

// Reads the line of text, of at most 4,096 bytes.
pub fn skip_line<R: Read>(input: &mut R) -> io::Result<()>
    ensures { OnOk result (IfSome (R.remaining input.old) (λ bs. R.remaining input.new ≡ Some (after_line 4096 bs))) }
{
    for _ in 0..4096u32 {
        if !goes_on(input)? {
            break;
        }
    }
    Ok(())
}

// Reads a record without its first word to the start of buf, and answers how many bytes it has; none where the input ends, or has no whole
// record that buf has room for, or one with its first word alone.
// How many bytes stand in buf is what the caller slices it by.
pub fn next_record<R: Read>(input: &mut R, buf: &mut [u8]) -> io::Result<Option<usize>>
    ensures bound { IfOk result (λ r. IfSome r (λ n. (0 < n) × (n ≤ length buf.new))) }
    ensures value { IfOk result (λ r. IfSome (R.remaining input.old) (λ bs. take (unwrap_or r 0) buf.new ≡ record_in (length buf.old) bs)) }
    ensures rest { IfOk result (λ r. IfSome r (λ n. IfSome (R.remaining input.old) (λ bs. R.remaining input.new ≡ Some (drop (n + 4) bs)))) }
{
    let length = reading::read_word(input)? as usize;
    if length <= 4 {
        return Ok(None);
    }
    let n = length - 4;
    if buf.len() < n {
        return Ok(None);
    }
    let got = reading::read_full(input, &mut buf[..n])?;
    Ok(if got < n { None } else { Some(n) })
}

// The sheet of a record, which comes without its first word; no bytes where it has no whole sheet.
// kept: no bytes are a sheet too, which is refused.
pub fn sheet_of(bytes: &[u8]) -> &[u8]
    ensures { result.now ≡ sheet_of bytes.now }
{
    let end = 4 + word(bytes, 0) as usize;
    bytes.get(4..end).unwrap_or(&[])
}

// What follows the sheet of a record and its filling.
pub fn after_sheet(bytes: &[u8]) -> &[u8]
    ensures { result.now ≡ after_sheet bytes.now }
{
    let at = 4 + (word(bytes, 0) as usize + 3) / 4 * 4;
    bytes.get(at..).unwrap_or(&[])
}
