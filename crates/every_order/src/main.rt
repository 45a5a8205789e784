// Random small sections, planned, against a search of every order with costs and safety of its own.
// One line an objective: how many sections were compared, and how many differences were found.
#![tactic(auto)]

use objective::Objective;
use random::Random;
use std::io;

mod checks;
mod lists;
mod objective;
mod orders;
mod random;
mod rows;
mod safety;
mod schedules;
mod search;
mod sections;
mod trains;
mod values;
mod waiting;

// How many sections of an objective are compared.
const SECTIONS: u32 = 300;

// Compares sections of an objective and writes its line.
fn report(rt: &impl Print, objective: Objective, random: &mut Random) -> io::Result<()> {
    let mut differences = 0u64;
    for _ in 0..SECTIONS {
        let more = checks::of_random_section(objective, random);
        differences = differences.saturating_add(more);
    }
    let number = objective as u32;
    println!(rt; "objective {number}: {SECTIONS} sections, {differences} differences")
}

fn main(rt: HostRuntime) -> io::Result<()> {
    let mut random = Random::new();
    for objective in Objective::ALL {
        report(&rt, objective, &mut random)?;
    }
    Ok(())
}
