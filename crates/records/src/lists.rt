// The lent lists: the pattern that they hold before a call, and their entries compared with recorded ones.
ghost use Rattle.std.specs.Prelude.{◌≡◌, ℕ, ◌+◌, ◌*◌, ◌≤◌, Bool, List, length, drop};
ghost use Rattle.std.specs.Float.{binary64};
ghost use Rattle.std.specs.Float.Ieee.{to_bits};
ghost use Rattle.records.specs.Listed.{begins, every, listed, is_long, is_word, is_number, blank_long, blank_word, blank_number};

// The pattern that the places of a list hold before a call.
// kept: a pattern of bytes, and no code for anything.
pub const LONG: u64 = 11936128518282651045;

// kept: as LONG.
pub const WORD: u32 = 2779096485;

pub const NUMBER: f64 = -1.5;

// A type of value that the lent lists hold.
pub trait Element {
    ghost recorded: { List ℕ → ℕ → Self → Bool };

    ghost blank: { Self → Bool };

    // Whether it is the value that a record has from this byte on.
    fn is_recorded(&self, bytes: &[u8], at: usize) -> bool
        ensures { result ≡ recorded bytes.now at self.now };

    // Whether it is the pattern.
    fn is_blank(&self) -> bool
        ensures { result ≡ blank self.now };
}

impl Element for u64 {
    ghost recorded = { is_long };

    ghost blank = { blank_long };

    fn is_recorded(&self, bytes: &[u8], at: usize) -> bool {
        *self == crate::long(bytes, at)
    }

    fn is_blank(&self) -> bool {
        *self == LONG
    }
}

impl Element for u32 {
    ghost recorded = { is_word };

    ghost blank = { blank_word };

    fn is_recorded(&self, bytes: &[u8], at: usize) -> bool {
        *self == crate::word(bytes, at)
    }

    fn is_blank(&self) -> bool {
        *self == WORD
    }
}

// By the number's bits.
impl Element for f64 {
    ghost recorded = { is_number };

    ghost blank = { blank_number };

    fn is_recorded(&self, bytes: &[u8], at: usize) -> bool {
        bits(*self) == crate::long(bytes, at)
    }

    fn is_blank(&self) -> bool {
        bits(*self) == bits(NUMBER)
    }
}

// The bits of a number; for a NaN, which no record has, those of one.
fn bits(x: f64) -> u64
    ensures { result ≡ to_bits binary64 x }
{
    if x == x {
        f64::to_bits(x)
    } else {
        9221120237041090560
    }
}

// Whether the list begins with the n that are recorded from there on, one each step bytes.
fn begins<E: Element>(list: &[E], bytes: &[u8], at: usize, step: usize, n: usize) -> bool
    requires { (at ≤ 65536) × (step ≤ 64) × (n ≤ 4096) }
    ensures { result ≡ begins (E.recorded bytes.now) at step n list.now }
{
    list.len() >= n
        && list[..n]
            .iter()
            .enumerate()
            .all(|(i, x)| x.is_recorded(bytes, at + step * i))
}

// Whether the places from n on have the pattern.
fn is_rest<E: Element>(list: &[E], n: usize) -> bool
    ensures { result ≡ every E.blank (drop n list.now) }
{
    list.iter().skip(n).all(|x| x.is_blank())
}

// Whether the list has the n that are recorded from there on, one each step bytes, and the pattern behind them.
pub fn same<E: Element>(list: &[E], bytes: &[u8], at: usize, step: usize, n: usize) -> bool
    requires { (at ≤ 65536) × (step ≤ 64) × (n ≤ 4096) }
    ensures { result ≡ listed (E.recorded bytes.now) E.blank at step n list.now }
{
    begins(list, bytes, at, step, n) && is_rest(list, n)
}
