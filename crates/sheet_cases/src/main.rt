// Boundary and damaged sheets, each with the sheet check's answer.
#![tactic(auto)]

mod cases;
mod writing;

use std::io;

fn main(rt: HostRuntime) -> io::Result<()> {
    cases::lengths(&rt)?;
    cases::counts(&rt)?;
    cases::offsets(&rt)?;
    cases::leaf_ranges(&rt)?;
    cases::join_ranges(&rt)?;
    cases::predicate_ranges(&rt)?;
    cases::sums(&rt)?;
    cases::items(&rt)?;
    cases::predicates(&rt)?;
    cases::order(&rt)?;
    cases::leaves(&rt)?;
    cases::walks(&rt)
}
