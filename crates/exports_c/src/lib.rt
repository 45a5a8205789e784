// The functions that a program in C or Rust links, as include/pulpmitten.h declares them: each calls the one of `exports` and promises the same.
// Numbers pass as themselves, a slice as a pointer and then a length.
#![tactic(auto)]

ghost use Rattle.std.specs.Prelude.{◌≡◌, length, take};
ghost use Rattle.rules.specs.Answers.{planner_answers, planner_leaves, judge_answers};
ghost use Rattle.section_file.specs.Answer.{answer};
ghost use Rattle.text.specs.Over.{over};
ghost use Rattle.exports.specs.Told.{called, Tells};

// The answer to a text, written over the start of `out`, as much as it holds; gives the whole answer's length.
#[unsafe(no_mangle)]
pub extern "C" fn pulpmitten_answer_text(text: &[u8], out: &mut [u8]) -> usize
    ensures count { result ≡ length (answer text.now) }
    ensures written { out.new ≡ over (take (length out.old) (answer text.now)) out.old }
{
    exports::pulpmitten_answer_text(text, out)
}

// Plans a section as `planner::plan` does.
#[unsafe(no_mangle)]
pub extern "C" fn pulpmitten_plan(
    objective: u32,
    running: u32,
    headway: u32,
    one: &[i32],
    two: &[i32],
    departures: &mut [u32],
    value: &mut i64,
    first: &mut u32,
    second: &mut u32,
) -> u32
    ensures tells { Tells result value.new first.new second.new (planner_answers (called objective running headway one.now two.now) (length departures.old)) }
    ensures leaves { departures.new ≡ planner_leaves (called objective running headway one.now two.now) departures.old }
{
    exports::pulpmitten_plan(
        objective, running, headway, one, two, departures, value, first, second,
    )
}

// Judges recorded departures as `judge::judge` does.
#[unsafe(no_mangle)]
pub extern "C" fn pulpmitten_judge(
    objective: u32,
    running: u32,
    headway: u32,
    one: &[i32],
    two: &[i32],
    departures: &[u32],
    value: &mut i64,
    first: &mut u32,
    second: &mut u32,
) -> u32
    ensures { Tells result value.new first.new second.new (judge_answers (called objective running headway one.now two.now) departures.now) }
{
    exports::pulpmitten_judge(
        objective, running, headway, one, two, departures, value, first, second,
    )
}
