// A text that is written to a lent list from its start on.
ghost use Rattle.std.specs.Prelude.{◌≡◌, [], ◌∷◌, ◌+◌, ◌^◌, ◌≤◌, ◌<◌};
ghost use Rattle.definition.specs.TriedList.{decimal, hex_digit, hex_digits, hex16, line, tried_list};
ghost use Rattle.listing.specs.Text.{Puts, pairs_of};
ghost use Rattle.listing.specs.Same.{Same};

use places::at;

const SPACE: u8 = b' ';

const NEWLINE: u8 = b'\n';

// The list, and the place behind what was written so far. What is past the list's end is written nowhere.
#[derive(Drop)]
pub struct Text<'a> {
    pub out: &'a mut [u8],
    pub at: usize,
}

impl Text<'_> {
    fn put_byte(&mut self, b: u8)
        requires { self.old.at ≤ 2 ^ 40 }
        ensures same { Same self.old self.new }
        ensures place { self.new.at ≡ self.old.at + 1 }
        ensures puts { Puts (b ∷ []) self.old.out.now self.new.out.now self.old.at self.new.at }
    {
        if self.at < self.out.len() {
            self.out[self.at] = b;
        }
        self.at += 1;
    }

    fn put_decimal(&mut self, n: u32)
        requires { self.old.at + 10 ≤ 2 ^ 40 }
        ensures same { Same self.old self.new }
        ensures place { self.new.at ≤ self.old.at + 10 }
        ensures puts { Puts (decimal n) self.old.out.now self.new.out.now self.old.at self.new.at }
    {
        if n < 10 {
            self.put_byte(b'0' + n as u8);
            return;
        }
        self.put_decimal(n / 10);
        self.put_byte(b'0' + (n % 10) as u8);
    }

    // The last k hexadecimal digits of s.
    fn put_hex(&mut self, k: u32, s: u64)
        requires { self.old.at + k ≤ 2 ^ 40 }
        ensures same { Same self.old self.new }
        ensures place { self.new.at ≡ self.old.at + k }
        ensures puts { Puts (hex_digits k s) self.old.out.now self.new.out.now self.old.at self.new.at }
    {
        if k == 0 {
            return;
        }
        self.put_hex(k - 1, s / 16);
        self.put_byte(hex_digit((s % 16) as u8));
    }

    // The first line.
    // kept: each number is written once, at its place; not one function with put_line, whose line has a decimal and two sets.
    fn put_header(&mut self, answer: u32, trials: u32, visits: u32)
        requires { self.old.at ≤ 2 ^ 39 }
        ensures same { Same self.old self.new }
        ensures place { self.new.at ≤ self.old.at + 33 }
        ensures puts { Puts (line (decimal answer) (decimal trials) (decimal visits)) self.old.out.now self.new.out.now self.old.at self.new.at }
    {
        self.put_decimal(answer);
        self.put_byte(SPACE);
        self.put_decimal(trials);
        self.put_byte(SPACE);
        self.put_decimal(visits);
        self.put_byte(NEWLINE);
    }

    // The line of candidate number i.
    // kept: two of its three fields are sets, where put_header's are all decimals; one function would take how each is written.
    fn put_line(&mut self, i: u32, left: u64, right: u64)
        requires { self.old.at ≤ 2 ^ 39 }
        ensures same { Same self.old self.new }
        ensures place { self.new.at ≤ self.old.at + 45 }
        ensures puts { Puts (line (decimal i) (hex16 left) (hex16 right)) self.old.out.now self.new.out.now self.old.at self.new.at }
    {
        self.put_decimal(i);
        self.put_byte(SPACE);
        self.put_hex(16, left);
        self.put_byte(SPACE);
        self.put_hex(16, right);
        self.put_byte(NEWLINE);
    }

    // The whole list: the first line, and then a line for each candidate.
    // kept: three numbers that go on to put_header; two lists read side by side, since a list of pairs would be built only to be printed.
    pub fn put_list(&mut self, answer: u32, visits: u32, left: &[u64], right: &[u64], trials: u32)
        requires { self.old.at ≡ 0 }
        ensures same { Same self.old self.new }
        ensures puts { Puts (tried_list answer visits (pairs_of left.now right.now trials)) self.old.out.now self.new.out.now 0 self.new.at }
    {
        self.put_header(answer, trials, visits);
        // kept: by its number, which is written, and since a place past a list's end is read as 0, where an iterator would end
        for i in 0..trials {
            self.put_line(i, at(left, i, 0), at(right, i, 0));
        }
    }
}

// A digit of base 16.
fn hex_digit(d: u8) -> u8
    requires { d < 16 }
    ensures { result ≡ hex_digit d }
{
    if d < 10 { b'0' + d } else { b'a' - 10 + d }
}
