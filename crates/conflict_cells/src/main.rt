// Prints the three tables, row by row: + for yes, - for no, 4 where a type is above 7. Then the type of each item kind from 0 to 9.
#![tactic(auto)]

use conflict::{HyperedgeJoinType, UnknownType};
use std::io;

// One table, by the function that answers for its cells.
// kept: rows of single signs, so that no one println! has them.
fn print_table<F: Fn(u32, u32) -> Result<bool, UnknownType>>(
    rt: &impl Print,
    name: &str,
    cell: F,
) -> io::Result<()>
    requires { F.IsAlwaysCallable cell }
{
    rt.print(name)?;
    for a in 0u32..9 {
        rt.print("\n")?;
        for b in 0u32..9 {
            rt.print(match cell(a, b) {
                Ok(true) => "+",
                Ok(false) => "-",
                Err(UnknownType) => "4",
            })?;
        }
    }
    rt.print("\n")
}

fn print_types(rt: &impl Print) -> io::Result<()> {
    for kind in 0u32..10 {
        rt.print(HyperedgeJoinType::from_join_type(kind).number())?;
    }
    rt.print("\n")
}

fn main(rt: HostRuntime) -> io::Result<()> {
    print_table(&rt, "assoc", conflict::assoc)?;
    print_table(&rt, "l_asscom", conflict::l_asscom)?;
    print_table(&rt, "r_asscom", conflict::r_asscom)?;
    rt.print("types\n")?;
    print_types(&rt)
}
