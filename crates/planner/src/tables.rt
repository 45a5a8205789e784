// The tables of best values: for every number of trains left at station 1 and at station 2, the best of the rest.
ghost use Rattle.std.specs.Prelude.{◌+◌, ◌*◌, ◌≤◌};
ghost use Rattle.planner.specs.Day.{Tables};
ghost use Rattle.planner.specs.Filled.{section_of};

use crate::cells;
use crate::day::Day;
use crate::rests::{Changes, Counts, Rests};

// Fills the cell where so many trains are left, once all before it are filled.
// Two tables, lent apart: a struct of both, tried, is not covered by the borrow checker where its literal holds arrays of arrays.
#[tactic(auto, using(crate::proofs::Placing::ones_most, crate::proofs::Placing::twos_most))]
fn fill_cell<const OBJECTIVE: u32>(
    day: &Day,
    ones: usize,
    twos: usize,
    counts: &mut Counts,
    changes: &mut Changes,
)
    requires within { (ones ≤ day.now.terms.ones) × (twos ≤ day.now.terms.twos) }
    requires tables { Tables (section_of day.now) counts.old changes.old (ones * 49 + twos) }
    ensures { Tables (section_of day.now) counts.new changes.new (ones * 49 + twos + 1) }
{
    let terms = day.terms;
    let next = day.next_trains(ones, twos);
    let rests = Rests { counts, changes };
    if costs::listed(terms.objective) {
        let cell = cells::change_cell(terms, next, ones, twos, rests);
        changes[ones][twos] = cell;
    } else {
        let cell = cells::count_cell(terms, next, ones, twos, rests);
        counts[ones][twos] = cell;
    }
}

// Fills the row where so many trains are left at station 1, once the rows before it are filled.
// OBJECTIVE is not read: each of its values has a loop of its own, which `fill` enters once it knows the objective, so that LLVM tests it at no cell.
fn fill_row<const OBJECTIVE: u32>(
    day: &Day,
    ones: usize,
    counts: &mut Counts,
    changes: &mut Changes,
)
    requires within { ones ≤ day.now.terms.ones }
    requires tables { Tables (section_of day.now) counts.old changes.old (ones * 49) }
    ensures { Tables (section_of day.now) counts.new changes.new ((ones + 1) * 49) }
{
    for twos in 0..=day.terms.twos {
        fill_cell::<OBJECTIVE>(day, ones, twos, counts, changes);
    }
}

// Fills the tables: by a loop for objective 1, one for objective 2, and one for objectives 3 and 4.
pub fn fill(day: &Day, counts: &mut Counts, changes: &mut Changes)
    requires { Tables (section_of day.now) counts.old changes.old 0 }
    ensures { Tables (section_of day.now) counts.new changes.new ((day.now.terms.ones + 1) * 49) }
{
    for ones in 0..=day.terms.ones {
        match day.terms.objective {
            1 => fill_row::<1>(day, ones, counts, changes),
            2 => fill_row::<2>(day, ones, counts, changes),
            _ => fill_row::<3>(day, ones, counts, changes),
        }
    }
}
