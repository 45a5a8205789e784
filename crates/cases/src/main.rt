// The page's other cases and the odd texts of the section file, each answered by the proved function.
// Each answer stands below the name of its case.
#![tactic(auto)]

use std::io;

mod answers;
mod grammar;
mod largest;
mod page;
mod rows;

fn main(rt: HostRuntime) -> io::Result<()> {
    answers::show_all(&rt, rows::CASES)?;
    answers::show_all(&rt, page::CASES)?;
    largest::stations(&rt)?;
    largest::sections(&rt)?;
    largest::texts(&rt)?;
    answers::show_all(&rt, grammar::CASES)
}
