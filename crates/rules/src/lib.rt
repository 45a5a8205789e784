// The types of the interface: what a caller hands over, and what it gets back.
// What they mean, and every rule of the line, stands in specs/.
#![tactic(auto)]

// A station of the line.
#[derive(Clone, Copy, Debug, PartialEq, Eq)]
pub enum Station {
    One,
    Two,
}

// Seconds between departures: a train's running time from one station to the other, and the headway behind a train of the same station.
#[derive(Clone, Copy, Debug, PartialEq, Eq)]
pub struct Timing {
    pub running: u32,
    pub headway: u32,
}

// What is asked about: the objective's number, which may be any and is refused where it is unknown, the timing, station 1's list and station 2's.
#[derive(Clone, Copy, Debug)]
pub struct Section<'a> {
    pub objective: u32,
    pub timing: Timing,
    pub one: &'a [i32],
    pub two: &'a [i32],
}

// A refusal's number, and the two places that it names, 0 where it names none: as the page numbers them, for `refusals::refused`
// promises of every number. Who finds a refusal says an enum, `refusals::Reason`.
#[derive(Clone, Copy, Debug, PartialEq, Eq)]
pub struct Refusal {
    pub number: u32,
    pub first: u32,
    pub second: u32,
}

// The value of a schedule, or why there is none. A struct, since the page has an answer that carries its outcome.
#[derive(Clone, Copy, Debug, PartialEq, Eq)]
pub struct Answer {
    pub outcome: Result<i64, Refusal>,
}
