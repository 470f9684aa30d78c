// Reads a sheet on standard input, and prints its tried list: answer number, number of candidates and visits, then each candidate's number,
// left and right set.
#![tactic(auto)]

use std::io;

// There is room for every text: tried_text says of the printed text's size that it is at most 48,993 bytes.
fn print_text(rt: &impl Print, sheet: &[u8]) -> io::Result<()> {
    let mut out = [0u8; 48993];
    let length = tried_text::tried_text(sheet, &mut out).unwrap_or(0);
    if let Some(text) = out.get(..length) {
        rt.write_all(text)?;
    }
    Ok(())
}

// A sheet has at most 21,512 bytes. One byte more is read: with it a longer input has the wrong length for any sheet, as the whole of it has.
fn main(rt: HostRuntime) -> io::Result<()> {
    let mut bytes = [0u8; 21513];
    let n = reading::read_full(&mut rt.stdin(), &mut bytes)?;
    print_text(&rt, &bytes[..n])
}
