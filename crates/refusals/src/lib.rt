// What is refused of a call, planner's and judge's alike: the first of refusals 1 to 7 that applies; and how an outcome is told.
// specs/Reasons has what a reason tells, specs/First and specs/Trains what the searches find.
#![tactic(auto)]

ghost use Rattle.std.specs.Prelude.{◌&&◌, ◌||◌, not, ◌≡◌, ◌%◌, ◌<◌, ◌≤◌, eqb, ltb, pos, length};
ghost use Rattle.rules.specs.Line.{good_timing};
ghost use Rattle.rules.specs.Objectives.{aim_of};
ghost use Rattle.rules.specs.Refusals.{known, call_refusals, train_refusals, refusals};
ghost use Rattle.rules.specs.Answers.{refused, says, verdict};
ghost use Rattle.rules.specs.declared.Station.TheVariants.{One as one, Two as two};
ghost use Rattle.rules.specs.Trains.{told, count_at};
ghost use Rattle.refusals.specs.Reasons.{tells, outcome_tells, checked};
ghost use Rattle.refusals.specs.First.{IsFirst};
ghost use Rattle.refusals.specs.Trains.{trains_in, bad_at};

use rules::{Answer, Refusal, Section, Timing};

// Why a call is refused, in the order of the rules' table, with the numbers of the trains that it names.
#[derive(Clone, Copy, Debug, PartialEq, Eq)]
pub enum Reason {
    UnknownObjective,
    BadTiming,
    RaggedList,
    NoTrain,
    CrowdedStation,
    BadTrain(u32),
    DepartureCount,
    LateDeparture(u32),
    Conflict(u32, u32),
}

impl Reason {
    // The answer that tells this reason, by its number in the rules' table.
    fn told(self) -> Answer
        ensures { says result ≡ tells self }
    {
        match self {
            Reason::UnknownObjective => refused(1, 0, 0),
            Reason::BadTiming => refused(2, 0, 0),
            Reason::RaggedList => refused(3, 0, 0),
            Reason::NoTrain => refused(4, 0, 0),
            Reason::CrowdedStation => refused(5, 0, 0),
            Reason::BadTrain(train) => refused(6, train, 0),
            Reason::DepartureCount => refused(7, 0, 0),
            Reason::LateDeparture(train) => refused(8, train, 0),
            Reason::Conflict(train, other) => refused(9, train, other),
        }
    }
}

// The refusal with this number and these places.
#[tactic(auto, unfolding(rules::specs::Answers::says))]
pub fn refused(number: u32, first: u32, second: u32) -> Answer
    ensures { says result ≡ refused number first second }
{
    Answer {
        outcome: Err(Refusal {
            number,
            first,
            second,
        }),
    }
}

// The answer that tells an outcome: the value, or the reason's number and places.
#[tactic(auto, unfolding(rules::specs::Answers::says))]
pub fn answered(outcome: Result<i64, Reason>) -> Answer
    ensures { says result ≡ outcome_tells outcome }
{
    match outcome {
        Ok(value) => Answer { outcome: Ok(value) },
        Err(reason) => reason.told(),
    }
}

// The running time is 2 to 10,000, and the headway at least 1 and below it.
#[tactic(auto, unfolding(rules::specs::Line::good_running, rules::specs::Line::good_headway, rules::specs::Line::good_timing))]
fn good_timing(timing: Timing) -> bool
    ensures { result ≡ good_timing timing }
{
    (2..=10000).contains(&timing.running) && (1..timing.running).contains(&timing.headway)
}

// How many trains a list has. It stands with the objective's number, and not in a struct, since a section has one number and two lists.
#[tactic(auto, using(crate::proofs::Table::numbers_positive), unfolding(crate::specs::Trains::trains_in))]
fn trains_in(objective: u32, list: &[i32]) -> usize
    ensures { result ≡ trains_in objective list.now }
{
    list.len() / costs::numbers(objective)
}

// A list's last train lacks numbers.
#[tactic(auto, using(crate::proofs::Table::numbers_positive))]
fn ragged(objective: u32, list: &[i32]) -> bool
    ensures { result ≡ not (eqb (length list.now % (aim_of objective).numbers) 0) }
{
    list.len() % costs::numbers(objective) != 0
}

// A list has more trains than a station may have.
fn crowded(objective: u32, list: &[i32]) -> bool
    ensures { result ≡ ltb (aim_of objective).most (trains_in objective list.now) }
{
    costs::most(objective) < trains_in(objective, list)
}

// Refusals 1 to 5, which the call's numbers and its lists' lengths settle. The objective is a number here, since that is what refusal 1 is about.
#[tactic(auto, unfolding(rules::specs::Refusals::call_refusals, rules::specs::Refusals::known, rules::specs::Refusals::refuse, rules::specs::Refusals::ragged, rules::specs::Refusals::crowded, rules::specs::Trains::aim, rules::specs::Trains::count_at, crate::specs::Trains::trains_in))]
fn call_refusal(section: Section) -> Result<(), Reason>
    ensures { checked result (pos 0) ≡ verdict (call_refusals (told section.entry)) (pos 0) }
{
    let Section {
        objective,
        timing,
        one,
        two,
    } = section;
    if !(1..=4).contains(&objective) {
        return Err(Reason::UnknownObjective);
    }
    if !good_timing(timing) {
        return Err(Reason::BadTiming);
    }
    if ragged(objective, one) || ragged(objective, two) {
        return Err(Reason::RaggedList);
    }
    if one.is_empty() && two.is_empty() {
        return Err(Reason::NoTrain);
    }
    if crowded(objective, one) || crowded(objective, two) {
        return Err(Reason::CrowdedStation);
    }
    Ok(())
}

// Whether the train after k others of a list breaks its rule.
#[tactic(auto, using(crate::proofs::Table::train_within), unfolding(crate::specs::Trains::bad_at))]
fn is_bad(objective: u32, list: &[i32], k: usize) -> bool
    requires { k < trains_in objective list.now }
    ensures { result ≡ bad_at objective list.now k }
{
    let numbers = costs::numbers(objective);
    !costs::good(objective, &list[k * numbers..k * numbers + numbers])
}

// The first train of a list that breaks its rule.
fn first_bad(objective: u32, list: &[i32]) -> Option<usize>
    ensures { IsFirst (bad_at objective list.now) 0 (trains_in objective list.now) result }
{
    (0..trains_in(objective, list)).find(|&k| is_bad(objective, list, k))
}

// Refusals 6 and 7, which its trains settle, where there are few enough to be named.
// The casts keep a number below 96; `try_from` would have an error that cannot happen.
#[tactic(auto, using(crate::proofs::Parts::misplaced, crate::proofs::Parts::all_well), unfolding(rules::specs::Trains::aim, rules::specs::Trains::count_at, crate::specs::Trains::trains_in))]
fn train_refusal(section: Section, places: usize) -> Result<(), Reason>
    requires { (count_at (told section) one ≤ 48) × (count_at (told section) two ≤ 48) }
    ensures { checked result (pos 0) ≡ verdict (train_refusals (told section.entry) places) (pos 0) }
{
    let ones = trains_in(section.objective, section.one);
    if let Some(bad) = first_bad(section.objective, section.one) {
        return Err(Reason::BadTrain(bad as u32));
    }
    let twos = trains_in(section.objective, section.two);
    if let Some(bad) = first_bad(section.objective, section.two) {
        return Err(Reason::BadTrain((ones + bad) as u32));
    }
    if places != ones + twos {
        return Err(Reason::DepartureCount);
    }
    Ok(())
}

// The first of refusals 1 to 7 that applies, or nothing.
#[tactic(auto, using(crate::proofs::Reasons::stands, crate::proofs::Reasons::none_found, crate::proofs::Parts::few_trains), unfolding(rules::specs::Refusals::refusals))]
pub fn refusal(section: Section, places: usize) -> Result<(), Reason>
    ensures { checked result (pos 0) ≡ verdict (refusals (told section.entry) places) (pos 0) }
{
    call_refusal(section)?;
    train_refusal(section, places)
}
