// The judge: what a recorded schedule is worth, or what is wrong with it.
// Everything but `judge` is private.
#![tactic(auto)]

ghost use Rattle.std.specs.Prelude.{◌≡◌, length};
ghost use Rattle.rules.specs.Answers.{says, judge_answers};
ghost use Rattle.rules.specs.Trains.{asked, told};
ghost use Rattle.refusals.specs.First.{IsFirst};
ghost use Rattle.refusals.specs.Reasons.{outcome_tells};
ghost use Rattle.judge.specs.Recorded.{late};

use refusals::Reason;
use rules::{Answer, Section, Timing};

mod recorded;

use recorded::Recorded;

// The first train whose departure is above 10,000,000.
#[tactic(auto, unfolding(crate::specs::Recorded::late))]
fn first_late(departures: &[u32]) -> Option<usize>
    ensures { IsFirst (late departures.now) 0 (length departures.now) result }
{
    departures
        .iter()
        .position(|&departure| 10000000 < departure)
}

// The value of the departures, or why they are refused.
// The casts keep a number below 96; `try_from` would have an error that cannot happen.
#[tactic(auto, using(crate::proofs::Accepted::counted, crate::proofs::Accepted::judged, crate::proofs::Verdicts::call_refused, crate::proofs::Verdicts::late_refused, crate::proofs::Verdicts::conflict_refused, crate::proofs::Verdicts::nothing_left))]
fn judged(section: Section, departures: &[u32]) -> Result<i64, Reason>
    ensures { outcome_tells result ≡ judge_answers (told section.entry) departures.now }
{
    refusals::refusal(section, departures.len())?;
    if let Some(late) = first_late(departures) {
        return Err(Reason::LateDeparture(late as u32));
    }
    let recorded = Recorded::new(section, departures);
    if let Some((first, second)) = recorded.first_conflict() {
        return Err(Reason::Conflict(first as u32, second as u32));
    }
    Ok(recorded.total())
}

// The value of the recorded departures, in train number order; or the first refusal that applies.
// Its parameters are those that the README names, one by one.
pub fn judge(objective: u32, timing: Timing, one: &[i32], two: &[i32], departures: &[u32]) -> Answer
    ensures { says result ≡ judge_answers (asked objective timing one.now two.now) departures.now }
{
    let section = Section {
        objective,
        timing,
        one,
        two,
    };
    refusals::answered(judged(section, departures))
}
