// What is compared of a section. Each thing that is not as it should be is a difference.
use crate::objective::Objective;
use crate::orders::{NUMBERS, STRINGS};
use crate::random::Random;
use crate::sections::Section;
use crate::waiting;

// How many of the things that were looked for were found.
pub fn count(found: &[bool]) -> u64 {
    found.iter().filter(|found| **found).count() as u64
}

// The differences of a section: of its plan, and of schedules that wait.
fn differences(section: &Section, random: &mut Random) -> u64 {
    let mut plan = [0; 6];
    let answer = planner::plan(
        section.objective as u32,
        section.timing,
        section.one.as_slice(),
        section.two.as_slice(),
        &mut plan[..section.count],
    );
    let Ok(best) = answer.outcome else {
        return 1;
    };
    let every = section.first_best(NUMBERS, |number| section.prompt(&section.numbered(number)));
    let first = section.first_best(STRINGS, |string| section.prompt(&section.spelled(string)));
    let differences = count(&[
        section.conflict(&plan).is_some(),
        section.value(&plan) != best,
        every.is_none_or(|every| every.value != best),
        first.is_none_or(|first| first.departures != plan),
    ]);
    differences.saturating_add(waiting::differences(section, best, random))
}

// The differences of a random section.
pub fn of_random_section(objective: Objective, random: &mut Random) -> u64 {
    differences(&Section::draw(objective, random), random)
}
