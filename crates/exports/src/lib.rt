// What a program in C or Rust links: a section file's text to its answer's, the planner and the judge.
// `exports_c` gives each its C name with the same clauses: a crate is a library or a static library, and not both.
#![tactic(auto)]

ghost use Rattle.std.specs.Prelude.{◌≡◌, length, take};
ghost use Rattle.rules.specs.Answers.{says, planner_answers, planner_leaves, judge_answers};
ghost use Rattle.section_file.specs.Answer.{answer};
ghost use Rattle.text.specs.Over.{over};
ghost use Rattle.exports.specs.Told.{called, Tells};

use rules::{Answer, Timing};

// Copies bytes over the start of `out`, as many as it holds.
#[tactic(auto, using(crate::proofs::Copying::copied))]
fn copy_over(bytes: &[u8], out: &mut [u8])
    ensures { out.new ≡ over (take (length out.old) bytes.now) out.old }
{
    let n = out.len().min(bytes.len());
    out[..n].copy_from_slice(&bytes[..n]);
}

// Writes an answer's value and places, and gives its refusal number: each stands alone, as C takes them.
#[tactic(auto, unfolding(rules::specs::Answers::says))]
fn tell(answer: Answer, value: &mut i64, first: &mut u32, second: &mut u32) -> u32
    ensures { Tells result value.new first.new second.new (says answer) }
{
    match answer.outcome {
        Ok(worth) => {
            *value = worth;
            *first = 0;
            *second = 0;
            0
        }
        Err(refusal) => {
            *value = 0;
            *first = refusal.first;
            *second = refusal.second;
            refusal.number
        }
    }
}

// The answer to a text, written over the start of `out`, as much as it holds; gives the whole answer's length.
pub fn pulpmitten_answer_text(text: &[u8], out: &mut [u8]) -> usize
    ensures count { result ≡ length (answer text.now) }
    ensures written { out.new ≡ over (take (length out.old) (answer text.now)) out.old }
{
    let page = section_file::answer_text(text);
    let answer = page.as_bytes();
    copy_over(answer, out);
    answer.len()
}

// Plans a section as `planner::plan` does.
pub fn pulpmitten_plan(
    objective: u32,
    running: u32,
    headway: u32,
    one: &[i32],
    two: &[i32],
    departures: &mut [u32],
    value: &mut i64,
    first: &mut u32,
    second: &mut u32,
) -> u32
    ensures tells { Tells result value.new first.new second.new (planner_answers (called objective running headway one.now two.now) (length departures.old)) }
    ensures leaves { departures.new ≡ planner_leaves (called objective running headway one.now two.now) departures.old }
{
    let timing = Timing { running, headway };
    let answer = planner::plan(objective, timing, one, two, departures);
    tell(answer, value, first, second)
}

// Judges recorded departures as `judge::judge` does.
pub fn pulpmitten_judge(
    objective: u32,
    running: u32,
    headway: u32,
    one: &[i32],
    two: &[i32],
    departures: &[u32],
    value: &mut i64,
    first: &mut u32,
    second: &mut u32,
) -> u32
    ensures { Tells result value.new first.new second.new (judge_answers (called objective running headway one.now two.now) departures.now) }
{
    let timing = Timing { running, headway };
    let answer = judge::judge(objective, timing, one, two, departures);
    tell(answer, value, first, second)
}
