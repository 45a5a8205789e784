// The planner: the best departures of a section's trains, with their value, or what is wrong with the call.
// Everything but `plan` is private.
#![tactic(auto)]

ghost use Rattle.std.specs.Prelude.{[], ◌≡◌, ◌+◌, length};
ghost use Rattle.rules.specs.Trains.{asked, told};
ghost use Rattle.rules.specs.Orders.{best_value, plan as plan_of};
ghost use Rattle.rules.specs.Refusals.{refusals};
ghost use Rattle.rules.specs.Answers.{says, planner_answers, planner_leaves};
ghost use Rattle.refusals.specs.Reasons.{outcome_tells};
ghost use Rattle.planner.specs.Filled.{section_of};
ghost use Rattle.planner.specs.Promise.{BestLeft};

use clock::Terms;
use day::{Day, Queue};
use refusals::Reason;
use rests::{Changes, Counts, Rests, Rising};
use rules::{Answer, Section, Timing};
use walk::Walk;

mod cells;
mod clock;
mod day;
mod next;
mod order;
mod rests;
mod tables;
mod walk;
mod writer;

// The best value of a day, and its plan, written.
fn scheduled(day: Day, departures: &mut [u32]) -> i64
    requires { length departures.old ≡ day.terms.ones + day.terms.twos }
    ensures value { result ≡ best_value (section_of day.entry) }
    ensures leaves { departures.new ≡ plan_of (section_of day.entry) }
{
    let empty = Rising {
        best: [0; 2],
        rise: 0,
    };
    let mut counts: Counts = [[empty; 49]; 49];
    let mut changes: Changes = [[[[0; 2]; 24]; 13]; 13];
    tables::fill(&day, &mut counts, &mut changes);
    let rests = Rests {
        counts: &counts,
        changes: &changes,
    };
    let walk = Walk { day: &day, rests };
    let goal = walk.goal();
    let times = walk.times(goal);
    writer::write_both(departures, &day, &times);
    goal
}

// The best value of a section of which nothing is refused, and its plan, written.
#[tactic(auto, using(refusals::proofs::Table::numbers_positive, crate::proofs::Beginning::all_places))]
fn planned(section: Section, departures: &mut [u32]) -> i64
    requires { refusals (told section) (length departures.old) ≡ [] }
    ensures value { result ≡ best_value (told section.entry) }
    ensures leaves { departures.new ≡ plan_of (told section.entry) }
{
    let objective = section.objective;
    let numbers = costs::numbers(objective);
    let day = Day {
        terms: Terms {
            objective,
            timing: section.timing,
            ones: section.one.len() / numbers,
            twos: section.two.len() / numbers,
        },
        one: Queue::of(objective, section.one),
        two: Queue::of(objective, section.two),
    };
    scheduled(day, departures)
}

// The best value and its plan, written; or the first reason to refuse the call, with nothing written.
#[tactic(auto, using(crate::proofs::Promise::refused_answers, crate::proofs::Promise::planned_answers, crate::proofs::Promise::planned_leaves, refusals::proofs::Reasons::none_found))]
fn outcome(section: Section, departures: &mut [u32]) -> Result<i64, Reason>
    ensures answers { outcome_tells result ≡ planner_answers (told section.entry) (length departures.old) }
    ensures leaves { departures.new ≡ planner_leaves (told section.entry) departures.old }
{
    refusals::refusal(section, departures.len())?;
    Ok(planned(section, departures))
}

// Plans a section: sets every departure, in train number order, and answers the best value; or answers the first refusal that applies.
// Its parameters are those that the README names, one by one.
#[tactic(auto, using(crate::proofs::Promise::best_left))]
pub fn plan(
    objective: u32,
    timing: Timing,
    one: &[i32],
    two: &[i32],
    departures: &mut [u32],
) -> Answer
    ensures answers { says result ≡ planner_answers (asked objective timing one.now two.now) (length departures.old) }
    ensures leaves { departures.new ≡ planner_leaves (asked objective timing one.now two.now) departures.old }
    ensures best_left { BestLeft (asked objective timing one.now two.now) result departures.new }
{
    let section = Section {
        objective,
        timing,
        one,
        two,
    };
    refusals::answered(outcome(section, departures))
}
