// The answer of a call: refused, or how the search ended with its counts; and the same in document 01's numbers.
#![tactic(auto)]

ghost use Rattle.std.specs.Prelude.{◌≡◌};
ghost use Rattle.answer.specs.Answers.{reported_of};

use checks::Refusal;
use nodeset::NONE;
use search::Ending;

// How the search ended, how many entries were written, and the visits made.
#[derive(Clone, Copy)]
pub struct Outcome {
    pub ending: Ending,
    pub edges: u32,
    pub plans: u32,
    pub memo: u32,
    pub visits: u32,
}

impl Outcome {
    // The visit limit where none is stated.
    pub const VISITS: u32 = 100000;
}

// What a call answers: its outcome, or why nothing was searched.
pub type Answer = Result<Outcome, Refusal>;

// An answer in document 01's numbers.
// kept: numbers, as document 01 and what is printed have them.
#[derive(Clone, Copy)]
pub struct Report {
    pub answer: u32,
    pub edges: u32,
    pub plans: u32,
    pub memo: u32,
    pub visits: u32,
    pub chosen: u32,
}

impl From<Answer> for Report {
    ghost from_gives = { λ a r. r ≡ reported_of a };

    // After a refusal the counts are 0, and no plan is chosen.
    // kept: the counts one by one; as a struct inside Outcome and Report they would be other fields than those that callers read.
    fn from(answer: Answer) -> Report {
        match answer {
            Ok(o) => Report {
                answer: search::number(o.ending),
                edges: o.edges,
                plans: o.plans,
                memo: o.memo,
                visits: o.visits,
                chosen: search::chosen(o.ending),
            },
            Err(f) => Report {
                answer: f.number(),
                edges: 0,
                plans: 0,
                memo: 0,
                visits: 0,
                chosen: NONE,
            },
        }
    }
}
