// The best of the rest: what the trains that are left come to at best, from the best of every smaller rest.
// specs/Rests says what the tables hold.
ghost use Rattle.std.specs.Prelude.{◌≡◌};
ghost use Rattle.std.specs.Int.{w64};
ghost use Rattle.std.proofs.Common.{SFits};
ghost use Rattle.planner.specs.Rests.{side, looked_up, Held, day, through, Sends};
ghost use Rattle.planner.specs.Filled.{best_from, CanChoose};

use crate::clock::{Clock, Terms};
use crate::next::Next;
use rules::Station;

// The best from second 0 after station 1's train and after station 2's, and how it rises with the second.
#[derive(Clone, Copy, Debug)]
pub struct Rising {
    pub best: [i64; 2],
    pub rise: i64,
}

// For objectives 1 and 2, by trains left at station 1 and at station 2.
pub type Counts = [[Rising; 49]; 49];

// For objectives 3 and 4: the best after either's train for each number of changes of station so far, which tells the second.
pub type Changes = [[[[i64; 2]; 24]; 13]; 13];

// The tables of best values.
#[derive(Clone, Copy)]
pub struct Rests<'a> {
    pub counts: &'a Counts,
    pub changes: &'a Changes,
}

// Where a pair holds the best after station 1's train, and after station 2's.
fn side(station: Station) -> usize
    ensures { result ≡ side station }
{
    match station {
        Station::One => 0,
        Station::Two => 1,
    }
}

impl<'a> Rests<'a> {
    // The best of the rest once a train has left, as the tables have it.
    #[tactic(auto, unfolding(crate::specs::Rests::entry, crate::specs::Rests::looked_up))]
    fn rest(self, objective: u32, clock: Clock) -> i64
        requires { Held objective clock self.counts.now self.changes.now }
        ensures { result ≡ looked_up objective clock self.entry.counts.now self.entry.changes.now }
    {
        let last = clock.last.unwrap();
        let at = side(last.station);
        if costs::listed(objective) {
            return self.changes[clock.ones][clock.twos][clock.changes][at];
        }
        let Rising { best, rise } = self.counts[clock.ones][clock.twos];
        best[at] + rise * i64::from(last.second)
    }

    // What the day comes to at best from a clock: the value so far with the best of the rest.
    #[tactic(auto, using(costs::proofs::Held::held_fits), unfolding(crate::specs::Rests::day))]
    pub fn day(self, objective: u32, clock: Clock) -> i64
        requires held { Held objective clock self.counts.now self.changes.now }
        requires fits { SFits w64 (day objective clock (looked_up objective clock self.counts.now self.changes.now)) }
        ensures { result ≡ day objective clock (looked_up objective clock self.entry.counts.now self.entry.changes.now) }
    {
        if clock.ones == 0 && clock.twos == 0 {
            return clock.value;
        }
        costs::joined(objective, clock.value, self.rest(objective, clock))
    }

    // What the rest comes to at best if a station's next train leaves first.
    #[tactic(auto, unfolding(crate::specs::Rests::through))]
    fn through(self, terms: Terms, clock: Clock, station: Station, figures: &[i32]) -> i64
        requires { Sends terms clock station figures.now self.counts.now self.changes.now }
        ensures { result ≡ through terms clock station figures.now self.entry.counts.now self.entry.changes.now }
    {
        self.day(terms.objective, clock.alone(terms, station, figures))
    }

    // The best of the rest from a clock.
    #[tactic(auto, unfolding(crate::specs::Rests::best_by, crate::specs::Rests::lesser))]
    pub fn best(self, terms: Terms, clock: Clock, next: Next) -> i64
        requires { CanChoose terms clock next self }
        ensures { result ≡ best_from terms clock next.entry self.entry }
    {
        match (clock.ones, clock.twos) {
            (0, 0) => 0,
            (0, _) => self.through(terms, clock, Station::Two, next.two),
            (_, 0) => self.through(terms, clock, Station::One, next.one),
            _ => self
                .through(terms, clock, Station::One, next.one)
                .min(self.through(terms, clock, Station::Two, next.two)),
        }
    }
}
