// The tried list as text, made from the open part of a result alone: answer number, visits, and the candidates' left and right sets.
#![tactic(auto)]

mod text;

ghost use Rattle.std.specs.Prelude.{◌≡◌, ◌+◌, ◌≤◌, length};
ghost use Rattle.std.proofs.lemmas.List.Edits.{sets};
ghost use Rattle.definition.specs.TriedList.{decimal, tried_list};
ghost use Rattle.listing.specs.Text.{pairs_of, answer_for, written_in, head_length, lines_length, side_sets};

use places::{at, put};
use text::Text;

// How many digits n has.
#[tactic(auto, using(crate::proofs::DigitLaws::digits_counted))]
fn decimal_length(n: u32) -> usize
    ensures value { result ≡ length (decimal n) }
    ensures bound { result ≤ 10 }
{
    n.checked_ilog10().unwrap_or(0) as usize + 1
}

// How many bytes the text has.
// kept: a struct of the first line's three numbers would be made in tried_list and taken apart at its two uses, here and in put_header.
fn text_length(answer: u32, trials: u32, visits: u32) -> usize
    ensures { result ≡ head_length answer trials visits + lines_length trials }
{
    let mut n = decimal_length(answer) + decimal_length(trials) + decimal_length(visits) + 3;
    for k in 0..trials {
        n += decimal_length(k) + 35;
    }
    n
}

// The sets of the plans that the candidates name on one side, read back from the plans' lists: `leaves` plans are leaves.
// kept: lists of sets and of numbers, as they are lent.
pub fn side_sets(pset: &[u64], pside: &[u32], leaves: u32, plans: u32, side: &mut [u64])
    ensures { side.new ≡ sets side.old 0 (side_sets pset.now pside.now leaves plans) }
{
    // kept: by its number, since a place past a list's end is read as 0, where an iterator would end
    for k in leaves..plans {
        put(side, k - leaves, at(pset, at(pside, k, 0), 0));
    }
}

// The text of the tried list, if it fits, and then its length.
// kept: the answer is a number here, since it is only written; pairs would take side_sets two passes over one list, a field in each, and no line less.
pub fn tried_list(
    answer: u32,
    visits: u32,
    left: &[u64],
    right: &[u64],
    trials: u32,
    out: &mut [u8],
) -> Option<usize>
    ensures result { result ≡ answer_for (tried_list answer visits (pairs_of left.now right.now trials)) out.old }
    ensures text { out.new ≡ written_in (tried_list answer visits (pairs_of left.now right.now trials)) out.old }
{
    if out.len() < text_length(answer, trials, visits) {
        return None;
    }
    let mut text = Text { out, at: 0 };
    text.put_list(answer, visits, left, right, trials);
    Some(text.at)
}
