// A recorded schedule: which two of its trains are in conflict, and what it is worth.
ghost use Rattle.std.specs.Prelude.{◌≡◌, List, ℕ, ◌+◌, ◌*◌, ◌<◌, ◌≤◌, suc, length, get_or, take, drop};
ghost use Rattle.rules.specs.declared.Station.TheVariants.{One as one};
ghost use Rattle.rules.specs.Objectives.{aim_of};
ghost use Rattle.rules.specs.Trains.{told, count_at, count};
ghost use Rattle.rules.specs.Value.{cost_of, value};
ghost use Rattle.rules.proofs.Trains.{nth};
ghost use Rattle.refusals.specs.First.{IsFirst};
ghost use Rattle.judge.specs.Recorded.{run, clash, IsFirstConflict, Judged};

use rules::{Section, Station};

// The k-th train's figures in a list.
fn figures_in(objective: u32, list: &[i32], k: usize) -> &[i32]
    requires { k * (aim_of objective).numbers + (aim_of objective).numbers ≤ length list.now }
    ensures { result.now ≡ take (aim_of objective).numbers (drop (k * (aim_of objective).numbers) list.now) }
{
    let numbers = costs::numbers(objective);
    &list[k * numbers..k * numbers + numbers]
}

// A section and its trains' departures, in train number order: the first `ones` trains are station 1's.
// `listed` says whether trains of one station leave in list order. There are at most 96 trains in all.
#[derive(Clone, Copy)]
pub struct Recorded<'a> {
    section: Section<'a>,
    listed: bool,
    ones: usize,
    departures: &'a [u32],
    ghost by_order: { listed ≡ (aim_of section.objective).listed },
    ghost by_station: { ones ≡ count_at (told section) one },
    ghost each: { length departures.now ≡ count (told section) },
    ghost few: { length departures.now ≤ 96 },
}

impl<'a> Recorded<'a> {
    // The record of a section whose departures are as many as its trains.
    #[tactic(auto, using(refusals::proofs::Table::numbers_positive), unfolding(rules::specs::Trains::aim, rules::specs::Trains::count_at))]
    pub fn new(section: Section<'a>, departures: &'a [u32]) -> Self
        requires { (length departures.now ≡ count (told section)) × (length departures.now ≤ 96) }
        ensures section { result.section ≡ section.entry }
        ensures departures { result.departures.now ≡ departures.now }
    {
        Recorded {
            section,
            listed: costs::listed(section.objective),
            ones: section.one.len() / costs::numbers(section.objective),
            departures,
        }
    }

    // The station of the train with number k.
    #[tactic(auto, using(crate::proofs::Trains::station_one, crate::proofs::Trains::station_two))]
    fn station(&self, k: usize) -> Station
        ensures { result ≡ (nth (told self.now.section) k).station }
    {
        if k < self.ones {
            Station::One
        } else {
            Station::Two
        }
    }

    // Whether two trains, by their stations and departures, the first with the smaller number, break R1, R2 or, where list order is kept, R3.
    #[tactic(auto, unfolding(crate::specs::Recorded::clash, rules::specs::Safe::keeps, rules::specs::Safe::in_order, rules::specs::Trains::aim))]
    fn clash(&self, station: Station, departure: u32, other: Station, departed: u32) -> bool
        ensures { (ds : List ℕ) (i j : ℕ) → station ≡ (nth (told self.now.section) i).station → departure ≡ get_or ds i 0
            → other ≡ (nth (told self.now.section) j).station → departed ≡ get_or ds j 0
            → result ≡ clash (told self.now.section) ds i j }
    {
        !line::apart(self.section.timing, station, departure, other, departed)
            || self.listed && line::same(station, other) && departed <= departure
    }

    // The first train in conflict with the i-th, of those from one number on and below another.
    // They are all of one station, so that what is asked of the two stations is settled before the first is tried.
    fn conflict_among(&self, i: usize, other: Station, from: usize, end: usize) -> Option<usize>
        requires numbered { (i < length self.now.departures.now) × (end ≤ length self.now.departures.now) }
        requires there { (j : ℕ) → from ≤ j → j < end → other ≡ (nth (told self.now.section) j).station }
        ensures { IsFirst (clash (told self.now.section) self.now.departures.now i) from end result }
    {
        let station = self.station(i);
        let departure = self.departures[i];
        (from..end).find(|&j| self.clash(station, departure, other, self.departures[j]))
    }

    // The first train after the i-th that is in conflict with it: of those of station 1, else of those of station 2.
    fn conflict_after(&self, i: usize) -> Option<usize>
        requires { i < length self.now.departures.now }
        ensures { IsFirst (clash (told self.now.section) self.now.departures.now i) (suc i) (length self.now.departures.now) result }
    {
        let twos = self.ones.max(i + 1);
        if let Some(j) = self.conflict_among(i, Station::One, i + 1, twos) {
            return Some(j);
        }
        self.conflict_among(i, Station::Two, twos, self.departures.len())
    }

    // The first train in conflict with a later one, and the first of those.
    pub fn first_conflict(&self) -> Option<(usize, usize)>
        ensures { IsFirstConflict (told self.now.section) self.now.departures.now result }
    {
        (0..self.departures.len()).find_map(|i| self.conflict_after(i).map(|j| (i, j)))
    }

    // The figures of the train with number k.
    fn figures(&self, k: usize) -> &'a [i32]
        requires { k < count (told self.now.section) }
        ensures { result.now ≡ (nth (told self.now.section) k).figures }
    {
        let objective = self.section.objective;
        if k < self.ones {
            figures_in(objective, self.section.one, k)
        } else {
            figures_in(objective, self.section.two, k - self.ones)
        }
    }

    // The cost of the train with number k. The cast keeps the arrival, which is at most 10,010,000; `try_from` would have an error that cannot happen.
    #[tactic(auto, unfolding(rules::specs::Value::cost_of, rules::specs::Trains::aim))]
    fn cost_of(&self, k: usize) -> i64
        requires judged { Judged (told self.now.section) self.now.departures.now }
        requires numbered { k < count (told self.now.section) }
        ensures { result ≡ cost_of (told self.now.section) (run (told self.now.section) self.now.departures.now k) }
    {
        let arrival = line::arrival(self.section.timing, self.station(k), self.departures[k]);
        costs::cost(self.section.objective, self.figures(k), arrival as u32)
    }

    // What the schedule is worth: its trains' costs, joined from the first train's on. A loop, since a fold would hide that every sum so far is small.
    #[tactic(auto, using(crate::proofs::Totals::starts, crate::proofs::Totals::ends))]
    pub fn total(&self) -> i64
        requires { Judged (told self.now.section) self.now.departures.now }
        ensures { result ≡ value (told self.now.section) self.now.departures.now }
    {
        let mut total = self.cost_of(0);
        for k in 1..self.departures.len() {
            total = costs::joined(self.section.objective, total, self.cost_of(k));
        }
        total
    }
}
