// The lengths of the stores, and the checks before anything is searched: the sheet's own, then 10 and 11.
#![tactic(auto)]

mod question;
mod rooms;

ghost use Rattle.std.specs.Prelude.{◌≡◌, ◌++◌, ◌||◌, Result, Ok, ltb};
ghost use Rattle.definition.specs.Call.{edge_checks, store_checks, refused_with, leaves_in};
ghost use Rattle.definition.specs.Sheet.{question_of, first_failing};
ghost use Rattle.sheet.specs.Views.{sections_of};
ghost use Rattle.checks.specs.Answers.{refusal_number, checked_number, rooms_of, IsSheetFault};
ghost use Rattle.checks.specs.declared.question.Question.{Question};

use builder::HypergraphBuilder;
pub use question::Question;
pub use rooms::{Rooms, store_length};
use sheet::Sheet;
use sheet_check::Fault;

// Why nothing is searched and nothing written.
#[derive(Clone, Copy, PartialEq, Eq)]
pub enum Refusal {
    Sheet(Fault),
    TooManyEdges,
    StoreTooSmall,
}

impl Refusal {
    // Document 01's number for it.
    // kept: a method, as Fault's number; a match, since a sheet's refusal has its fault's number.
    pub fn number(self) -> u32
        ensures { result ≡ refusal_number self }
    {
        match self {
            Refusal::Sheet(f) => f.number(),
            Refusal::TooManyEdges => 10,
            Refusal::StoreTooSmall => 11,
        }
    }
}

impl From<Fault> for Refusal {
    ghost from_gives = { IsSheetFault };

    fn from(f: Fault) -> Refusal {
        Refusal::Sheet(f)
    }
}

// Whether a store is too short for what the sheet is sure to need.
fn too_small(rooms: Rooms, edges: u64, leaves: u32) -> bool
    ensures { result ≡ (ltb rooms.edges edges || ltb rooms.plans leaves || ltb rooms.memo leaves) }
{
    u64::from(rooms.edges) < edges || rooms.plans < leaves || rooms.memo < leaves
}

// 10, then 11; where neither, the number of leaves.
fn check_stores(sheet: &Sheet<'_>, rooms: Rooms) -> Result<u32, Refusal>
    ensures number { checked_number result
        ≡ first_failing (edge_checks (question_of sheet.now.bytes.now) ++ store_checks (question_of sheet.now.bytes.now) (rooms_of rooms)) }
    ensures leaves { (n : _) → result ≡ Ok n → n ≡ leaves_in sheet.now.bytes.now }
{
    let edges = hypergraph::edge_count(sheet);
    if HypergraphBuilder::EDGES < edges {
        return Err(Refusal::TooManyEdges);
    }
    let leaves = sheet.leaf_count();
    if too_small(rooms, edges, leaves) {
        return Err(Refusal::StoreTooSmall);
    }
    Ok(leaves)
}

// The first check of document 01 that fails, or what there is to search.
pub fn check<'a>(bytes: &'a [u8], rooms: Rooms) -> Result<Question<'a>, Refusal>
    ensures number { checked_number result ≡ refused_with bytes.now (rooms_of rooms) }
    ensures accepted { (q : Question) → result ≡ Ok q
        → (q.sheet.bytes.now ≡ bytes.now) × (q.sheet.sections ≡ sections_of bytes.now) × (q.leaves ≡ leaves_in bytes.now) }
{
    let sections = sheet_check::check(bytes)?;
    let sheet = Sheet { bytes, sections };
    let leaves = check_stores(&sheet, rooms)?;
    Ok(Question { sheet, leaves })
}
