// The check of the question sheet: any bytes get one of the answers 1 to 9, or are accepted.
#![tactic(auto)]

mod checks;

ghost use Rattle.std.specs.Prelude.{◌≡◌};
ghost use Rattle.sheet_check.specs.Views.{number_of, answer_number};

pub use checks::check;
use sheet::Sections;

// Why a sheet is refused: answers 1 to 9 of document 01, in their order.
#[derive(Clone, Copy, PartialEq, Eq)]
pub enum Fault {
    Truncated = 1,
    OverLimit = 2,
    Misplaced = 3,
    UnknownKind = 4,
    ReservedNotZero = 5,
    RangePastTable = 6,
    SelectivityAboveOne = 7,
    TooManyLeaves = 8,
    BrokenWalk = 9,
}

impl Fault {
    // Document 01's number for it.
    // kept: a method. `From` for u32 proves too, in as many lines, but `u32::from(fault)` wouldn't say that the number is document 01's.
    pub fn number(self) -> u32
        ensures { result ≡ number_of self }
    {
        self as u32
    }
}

// Document 01's number for the check's answer; 0 where the sheet is accepted.
// kept: the answers are document 01's numbers, and 0 is an accepted sheet's.
pub fn answer_number(answer: Result<Sections, Fault>) -> u32
    ensures { result ≡ answer_number answer }
{
    match answer {
        Ok(_) => 0,
        Err(fault) => fault.number(),
    }
}
