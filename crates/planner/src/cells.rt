// The cells of the tables: for so many trains left at each station, the best of the rest after a train of either.
// `ones` and `twos` stand apart, as the two indices of a table do.
ghost use Rattle.std.specs.Prelude.{◌≡◌, T, ◌<◌, ◌≤◌};
ghost use Rattle.rules.specs.declared.Station.{Station as Place};
ghost use Rattle.rules.specs.Line.{good_timing};
ghost use Rattle.rules.specs.Objectives.{aim_of};
ghost use Rattle.planner.specs.Clock.{cell_clock};
ghost use Rattle.planner.specs.Cells.{slope, Slopes, Pair, seconds, Pairs, gone_of};
ghost use Rattle.planner.specs.Filled.{best_from, CanChoose, rate_from, CanRate, CanChange};

use crate::clock::{Clock, Departure, Terms};
use crate::next::Next;
use crate::rests::{Rests, Rising};
use rules::{Station, Timing};

// How much more a train costs for each second that it is later, under objectives 1 and 2.
#[tactic(auto, unfolding(crate::specs::Cells::slope))]
fn slope(objective: u32, figures: &[i32]) -> i64
    requires { Slopes objective figures.now }
    ensures { result ≡ slope (aim_of objective) figures.now }
{
    costs::cost(objective, figures, 1) - costs::cost(objective, figures, 0)
}

// How much more the rest costs for each second that all of it is later, under objectives 1 and 2.
#[tactic(auto, using(costs::proofs::Held::held_fits), unfolding(crate::specs::Cells::rate, crate::specs::Rests::entry))]
fn rate(objective: u32, next: Next, ones: usize, twos: usize, rests: Rests) -> i64
    requires { CanRate objective next ones twos rests }
    ensures { result ≡ rate_from objective next.entry ones twos rests.entry }
{
    if 0 < ones {
        return costs::joined(
            objective,
            slope(objective, next.one),
            rests.counts[ones - 1][twos].rise,
        );
    }
    if 0 < twos {
        return costs::joined(
            objective,
            slope(objective, next.two),
            rests.counts[ones][twos - 1].rise,
        );
    }
    0
}

// The best of the rest after a departure at a second, if its train was station 1's, and if it was station 2's.
fn pair(
    terms: Terms,
    next: Next,
    second: u32,
    changes: usize,
    ones: usize,
    twos: usize,
    rests: Rests,
) -> [i64; 2]
    requires { (s : Place) → CanChoose terms (cell_clock s second changes ones twos) next rests }
    ensures { Pair (λ s. best_from terms (cell_clock s second changes ones twos) next.entry rests.entry) result }
{
    [Station::One, Station::Two].map(|station| {
        let clock = Clock::of_cell(Departure { station, second }, changes, ones, twos);
        rests.best(terms, clock, next)
    })
}

// A cell of `counts`: the best from second 0 after station 1's train and after station 2's, and how it rises with the second.
// Inlined: the loops of objectives 1 and 2 both call it, and a copy that they share asks for the objective at every turn.
#[inline(always)]
pub fn count_cell(terms: Terms, next: Next, ones: usize, twos: usize, rests: Rests) -> Rising
    requires chooses { (s : Place) → CanChoose terms (cell_clock s 0 0 ones twos) next rests }
    requires rates { CanRate terms.objective next ones twos rests }
    ensures pair { Pair (λ s. best_from terms (cell_clock s 0 0 ones twos) next.entry rests.entry) result.best }
    ensures rises { result.rise ≡ rate_from terms.objective next.entry ones twos rests.entry }
{
    Rising {
        best: pair(terms, next, 0, 0, ones, twos, rests),
        rise: rate(terms.objective, next, ones, twos, rests),
    }
}

// The departure of the last of so many trains, with so many changes of station among them.
// The casts keep a number below 24; `try_from` would have an error that cannot happen.
#[tactic(auto, unfolding(crate::specs::Cells::seconds))]
fn seconds(timing: Timing, changes: usize, gone: usize) -> u32
    requires { T (good_timing timing) × (changes < gone) × (gone ≤ 24) }
    ensures { result ≡ seconds timing changes gone }
{
    let same = gone - 1 - changes;
    changes as u32 * line::gap(timing, Station::One, Station::Two)
        + same as u32 * line::gap(timing, Station::One, Station::One)
}

// A cell of `changes`: for each number of changes among the trains gone, the best after station 1's train and after station 2's.
pub fn change_cell(
    terms: Terms,
    next: Next,
    ones: usize,
    twos: usize,
    rests: Rests,
) -> [[i64; 2]; 24]
    requires { CanChange terms next ones twos rests }
    ensures { Pairs (gone_of terms ones twos) (λ k s. best_from terms (cell_clock s (seconds terms.timing k (gone_of terms ones twos)) k ones twos) next.entry rests.entry) result }
{
    let gone = terms.ones + terms.twos - (ones + twos);
    let mut cell = [[0; 2]; 24];
    for (k, values) in cell[..gone].iter_mut().enumerate() {
        let second = seconds(terms.timing, k, gone);
        *values = pair(terms, next, second, k, ones, twos, rests);
    }
    cell
}
