// Replays recorded sheet checks from standard input (crate records): behind its sheet a record has the expected answer. The crate's stdin is
// the oracle's checks.bin.
#![tactic(auto)]

ghost use Rattle.std.specs.Prelude.{◌≤◌};

use std::io;

// How many records were replayed, and of how many the check's answer is the expected one.
#[derive(Drop)]
struct Checks {
    records: u32,
    agree: u32,
    ghost bound: { agree ≤ records },
}

impl records::Tally for Checks {
    ghost records = { λ t. t.records };

    // Prints a record where the check's answer is another than expected.
    fn see(self, rt: &impl Print, record: &[u8]) -> io::Result<Self> {
        let number = self.records;
        let expected = records::word(records::after_sheet(record), 0);
        let found = sheet_check::answer_number(sheet_check::check(records::sheet_of(record)));
        let agrees = expected == found;
        if !agrees {
            println!(rt; "record {number}: expected {expected}, found {found}")?;
        }
        Ok(Checks {
            records: number + 1,
            agree: self.agree + agrees as u32,
        })
    }
}

fn main(rt: HostRuntime) -> io::Result<()> {
    let mut space = [0u8; 65536];
    let mut input = rt.stdin();
    records::skip_line(&mut input)?;
    let start = Checks {
        records: 0,
        agree: 0,
    };
    let t = records::replay(&rt, start, &mut input, &mut space)?;
    println!(rt; "{} records, {} agree", t.records, t.agree)
}
