// The next trains of a day, where so many are left.
ghost use Rattle.std.specs.Prelude.{◌≡◌, ◌≤◌};
ghost use Rattle.rules.specs.declared.Station.TheVariants.{One as one, Two as two};
ghost use Rattle.planner.specs.Clock.{by_station};
ghost use Rattle.planner.specs.Trains.{next_figures, Queued};
ghost use Rattle.planner.specs.Filled.{next_at};

use crate::clock::Terms;
use crate::day::{Day, Queue};
use rules::Station;

// The figures of the stations' next trains.
// An empty slice and no `Option` where a station has no train left: its figures are not read then.
#[derive(Clone, Copy, Debug)]
pub struct Next<'a> {
    pub one: &'a [i32],
    pub two: &'a [i32],
}

impl<'a> Queue<'a> {
    // The figures of the next train where so many of `count` are left; none where none is. The count is the terms', not the queue's.
    #[tactic(auto, unfolding(crate::specs::Trains::next_figures))]
    fn next(&self, objective: u32, count: usize, left: usize) -> &'a [i32]
        requires { Queued objective self.now.list.now self.now.places count left }
        ensures { result.now ≡ next_figures objective self.now.list.now self.now.places count left }
    {
        if left == 0 {
            return &[];
        }
        let numbers = costs::numbers(objective);
        let at = self.places[count - left] * numbers;
        &self.list[at..at + numbers]
    }
}

impl<'a> Day<'a> {
    // The figures of a station's next train where so many are left; none where none is.
    #[tactic(auto, using(crate::proofs::Placing::first_queued, crate::proofs::Placing::second_queued))]
    pub fn next_train(&self, station: Station, left: usize) -> &'a [i32]
        requires { left ≤ by_station station self.now.terms.ones self.now.terms.twos }
        ensures { result.now ≡ next_at self.now station left }
    {
        let Terms {
            objective,
            ones,
            twos,
            ..
        } = self.terms;
        match station {
            Station::One => self.one.next(objective, ones, left),
            Station::Two => self.two.next(objective, twos, left),
        }
    }

    // The figures of both stations' next trains where so many are left.
    pub fn next_trains(&self, ones: usize, twos: usize) -> Next<'a>
        requires { (ones ≤ self.now.terms.ones) × (twos ≤ self.now.terms.twos) }
        ensures first { result.one.now ≡ next_at self.now one ones }
        ensures second { result.two.now ≡ next_at self.now two twos }
    {
        Next {
            one: self.next_train(Station::One, ones),
            two: self.next_train(Station::Two, twos),
        }
    }
}
