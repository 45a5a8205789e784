// The sections worked by hand on the page, A to M: planned or judged by the proved code, one line a case.
// Each line has the case's letter and the answer, and for a plan its departures in train number order.
#![tactic(auto)]

use rules::{Answer, Refusal, Section, Timing};
use std::io;

// Writes a case's letter and its answer: the value; or `refused`, the number and the two places.
fn print_answer(rt: &impl Print, letter: &str, answer: Answer) -> io::Result<()> {
    match answer.outcome {
        Ok(value) => print!(rt; "{letter} {value}"),
        Err(refusal) => {
            let Refusal {
                number,
                first,
                second,
            } = refusal;
            print!(rt; "{letter} refused {number} {first} {second}")
        }
    }
}

// Plans a case and writes its line.
fn plan(rt: &impl Print, letter: &str, section: Section, departures: &mut [u32]) -> io::Result<()> {
    let answer = planner::plan(
        section.objective,
        section.timing,
        section.one,
        section.two,
        departures,
    );
    print_answer(rt, letter, answer)?;
    print!(rt; ":")?;
    for departure in departures {
        print!(rt; " {departure}")?;
    }
    println!(rt; "")
}

// Judges a case and writes its line.
fn judge(rt: &impl Print, letter: &str, section: Section, departures: &[u32]) -> io::Result<()> {
    let answer = judge::judge(
        section.objective,
        section.timing,
        section.one,
        section.two,
        departures,
    );
    print_answer(rt, letter, answer)?;
    println!(rt; "")
}

// A section whose trains run for 10 seconds and follow one another by 2.
fn section<'a>(objective: u32, one: &'a [i32], two: &'a [i32]) -> Section<'a> {
    let timing = Timing {
        running: 10,
        headway: 2,
    };
    Section {
        objective,
        timing,
        one,
        two,
    }
}

// Objective 2.
fn weighted(rt: &impl Print) -> io::Result<()> {
    plan(rt, "A", section(2, &[5], &[]), &mut [7])?;
    plan(rt, "B", section(2, &[1, 3], &[]), &mut [7; 2])?;
    plan(rt, "C", section(2, &[1], &[1]), &mut [7; 2])?;
    plan(rt, "D", section(2, &[1, 1], &[5]), &mut [7; 3])?;
    plan(rt, "E", section(2, &[1; 4], &[3]), &mut [7; 5])
}

// Objective 1.
fn late(rt: &impl Print) -> io::Result<()> {
    plan(rt, "F", section(1, &[30, 12], &[25]), &mut [7; 3])?;
    plan(rt, "G", section(1, &[0, 100], &[50]), &mut [7; 3])?;
    plan(rt, "H", section(1, &[-5], &[]), &mut [7])
}

// Objective 3.
fn by_rows(rt: &impl Print) -> io::Result<()> {
    let first = [2, 0, 15, 0, 0, 0, 0, 0, 0, 0, 100, 0, 0, 0, 0, 0, 0];
    let second = [2, 0, 15, 0, 0, 0, 0, 0, 0, 0, 40, 0, 0, 0, 0, 0, 0];
    plan(rt, "I", section(3, &first, &second), &mut [7; 2])
}

// Recorded departures, judged by objective 2.
fn recorded(rt: &impl Print) -> io::Result<()> {
    judge(rt, "J", section(2, &[1], &[1]), &[0, 9])?;
    judge(rt, "K", section(2, &[1], &[1]), &[5, 15])?;
    judge(rt, "L", section(2, &[1, 3], &[]), &[2, 0])
}

// A headway as long as the running time.
fn refused(rt: &impl Print) -> io::Result<()> {
    let timing = Timing {
        running: 10,
        headway: 10,
    };
    let slow = Section {
        timing,
        ..section(2, &[1], &[1])
    };
    plan(rt, "M", slow, &mut [7; 2])
}

fn main(rt: HostRuntime) -> io::Result<()> {
    weighted(&rt)?;
    late(&rt)?;
    by_rows(&rt)?;
    recorded(&rt)?;
    refused(&rt)
}
