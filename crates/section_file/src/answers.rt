// The answer to a file's section, planned or judged, put onto the page.
ghost use Rattle.std.specs.Prelude.{◌≡◌, length, map, nat_abs};
ghost use Rattle.section_file.specs.Answer.{plan_lines, judge_lines};
ghost use Rattle.section_file.specs.Printing.{with_more};

use crate::layout::File;
use crate::lines;
use text::page::Page;

// Plans a file's section and puts the answer.
// Nothing is taken from the heap: the departures fit 1,024 places.
#[tactic(auto, using(refusals::proofs::Table::numbers_positive))]
pub fn put_plan(page: &mut Page<8192>, file: &File)
    ensures { page.new ≡ with_more page.old (plan_lines file.now.section) }
{
    let section = &file.section;
    let numbers = costs::numbers(section.objective);
    let count = section.one.len() / numbers + section.two.len() / numbers;
    let mut departures = [0; 1024];
    let departures = &mut departures[..count];
    let answer = planner::plan(
        section.objective,
        section.timing,
        section.one,
        section.two,
        departures,
    );
    lines::put_answer(page, b"planned", section, answer, departures);
}

// Copies recorded departures, of which none is below 0.
// By place: tried as an `iter_mut` under `zip`, of which no clause tells what the loop leaves.
fn copy(recorded: &[i32], departures: &mut [u32])
    requires { length departures.old ≡ length recorded.now }
    ensures { departures.new ≡ map nat_abs recorded.now }
{
    for (k, departure) in recorded.iter().enumerate() {
        departures[k] = departure.unsigned_abs();
    }
}

// Judges the departures that were recorded of a file's section and puts the answer.
// Nothing is taken from the heap: they fit 512 places.
#[tactic(auto, using(crate::proofs::Outcomes::judge_complete), unfolding(crate::specs::Lines::judged))]
pub fn put_judgement(page: &mut Page<8192>, file: &File)
    ensures { page.new ≡ with_more page.old (judge_lines file.now.section file.now.recorded) }
{
    let section = &file.section;
    let mut departures = [0; 512];
    let departures = &mut departures[..file.recorded.len()];
    copy(file.recorded, departures);
    let answer = judge::judge(
        section.objective,
        section.timing,
        section.one,
        section.two,
        departures,
    );
    lines::put_answer(page, b"judged", section, answer, departures);
}
