// Sheets as the cases write them, and what the check answers for each.
use std::io;

// A sheet of at most N bytes while it is written: its words come one after the other, and the bytes behind them are 0.
#[derive(Drop)]
struct Draft<const N: usize> {
    bytes: [u8; N],
    at: usize,
}

impl<const N: usize> Draft<N> {
    fn new() -> Self {
        Draft {
            bytes: [0; N],
            at: 0,
        }
    }

    // The next words; what has no room is left out.
    fn words(&mut self, words: &[u32]) {
        for w in words {
            for b in w.to_le_bytes() {
                if self.at < N {
                    self.bytes[self.at] = b;
                    self.at += 1;
                }
            }
        }
    }

    // So many words of 0.
    fn zeros(&mut self, n: u32) {
        for _ in 0..n {
            self.words(&[0]);
        }
    }

    // So many items of a kind, the other words 0.
    // kept: the kind is a number, as the sheet has it; some cases write kinds that there are not.
    fn items(&mut self, n: u16, kind: u32) {
        for _ in 0..n {
            self.words(&[kind, 0, 0, 0]);
        }
    }

    // The words at these bytes replaced.
    fn replace(&mut self, words: &[(usize, u32)]) {
        for (at, w) in words {
            self.at = *at;
            self.words(&[*w]);
        }
    }

    // Checks the first bytes and prints the answer under a name, 0 for an accepted sheet.
    // kept: the answer's number is what is printed.
    fn show(&self, rt: &impl Print, name: &[u8], length: usize) -> io::Result<()> {
        if N < length {
            return Ok(());
        }
        let answer = sheet_check::answer_number(sheet_check::check(&self.bytes[..length]));
        rt.write_all(name)?;
        println!(rt; ": {answer}")
    }
}

// Leaves, then cross products; predicates and columns of zeros.
// kept: written into a draft that is lent, since one that is returned is copied, all 64 KiB of it.
fn uniform(draft: &mut Draft<65536>, leaves: u16, joins: u16, predicates: u16, columns: u16) {
    let all = u32::from(leaves) + u32::from(joins);
    let predicates = u32::from(predicates);
    let columns = u32::from(columns);
    let second = 24 + 16 * all;
    let third = second + 12 * predicates;
    draft.words(&[all, 24, predicates, second, columns, third]);
    draft.items(leaves, 9);
    draft.items(joins, 8);
    draft.zeros(3 * predicates + columns);
}

// Two leaves and their Inner join, one predicate, four columns: 100 bytes.
fn joined() -> Draft<128> {
    let mut draft = Draft::new();
    draft.words(&[3, 24, 1, 72, 4, 84]);
    draft.words(&[9, 10, 0, 2]);
    draft.words(&[9, 20, 2, 2]);
    draft.words(&[0, 0, 0, 1]);
    draft.words(&[32768, 1, 2]);
    draft.words(&[1, 2, 3, 4]);
    draft
}

// So many bytes of the joined sheet; past its end they are 0.
pub fn cut(rt: &impl Print, name: &[u8], length: usize) -> io::Result<()> {
    joined().show(rt, name, length)
}

// The joined sheet with words replaced.
pub fn replaced(rt: &impl Print, name: &[u8], words: &[(usize, u32)]) -> io::Result<()> {
    let mut draft = joined();
    draft.replace(words);
    draft.show(rt, name, 100)
}

// A uniform sheet with words replaced.
pub fn made(
    rt: &impl Print,
    name: &[u8],
    leaves: u16,
    joins: u16,
    predicates: u16,
    columns: u16,
    words: &[(usize, u32)],
) -> io::Result<()> {
    let mut draft = Draft {
        bytes: [0; 65536],
        at: 0,
    };
    uniform(&mut draft, leaves, joins, predicates, columns);
    let length = draft.at;
    draft.replace(words);
    draft.show(rt, name, length)
}
