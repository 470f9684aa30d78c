// Replays the recorded texts of sample sheets from standard input (crate records): behind its sheet a record has the text that the tried
// list's program has to print of it. The crate's stdin is the oracle's texts.bin.
#![tactic(auto)]

ghost use Rattle.std.specs.Prelude.{◌≡◌, ◌*◌, ◌≤◌, length};
ghost use Rattle.records.specs.Records.{sheet_of, after_sheet};

use std::io;

// What was replayed: how many sheets, how many bytes of text were written of them, and of how many the text is the recorded one.
#[derive(Drop)]
struct Texts {
    sheets: u32,
    bytes: u64,
    agree: u32,
    ghost bounds: { (bytes ≤ 48993 * sheets) × (agree ≤ sheets) },
}

impl records::Tally for Texts {
    ghost records = { λ t. t.sheets };

    // Prints the number, from 0, of a record whose text is another than the one that is written of its sheet.
    // There is room for every text: tried_text says of its size that it is at most 48,993 bytes.
    fn see(self, rt: &impl Print, record: &[u8]) -> io::Result<Self> {
        let number = self.sheets;
        let mut out = [0u8; 48993];
        let text = written(records::sheet_of(record), &mut out);
        let agrees = text == recorded(record);
        if !agrees {
            println!(rt; "record {number}: another text")?;
        }
        Ok(Texts {
            sheets: number + 1,
            bytes: self.bytes + text.len() as u64,
            agree: self.agree + agrees as u32,
        })
    }
}

// The text that a record has behind its sheet, in the same form: its length, a word, then its bytes.
fn recorded(bytes: &[u8]) -> &[u8]
    ensures { result.now ≡ sheet_of (after_sheet bytes.now) }
{
    records::sheet_of(records::after_sheet(bytes))
}

// Writes the tried list of a sheet to the start of out, and gives the text; no bytes where out has no room for it.
fn written<'a>(sheet: &[u8], out: &'a mut [u8]) -> &'a [u8]
    ensures { length result.now ≤ length out.old }
{
    let n = tried_text::tried_text(sheet, out).unwrap_or(0);
    out.get(..n).unwrap_or(&[])
}

fn main(rt: HostRuntime) -> io::Result<()> {
    // Room for the longest record: a sheet of 21,512 bytes and a text of 48,993 take 70,520 bytes.
    let mut space = [0u8; 73728];
    let mut input = rt.stdin();
    records::skip_line(&mut input)?;
    let start = Texts {
        sheets: 0,
        bytes: 0,
        agree: 0,
    };
    let t = records::replay(&rt, start, &mut input, &mut space)?;
    println!(rt;
        "{} sheets, {} bytes of text, {} texts agree",
        t.sheets, t.bytes, t.agree
    )
}
