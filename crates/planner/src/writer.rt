// Departures written in list order, from times that come in another order.
ghost use Rattle.std.specs.Prelude.{◌-◌, ◌≤◌, length};
ghost use Rattle.planner.specs.Writer.{Covers, InListOrder, BothInListOrder};

use crate::day::Day;
use crate::walk::Timetable;

// Writes one station's departures in list order: the train whose place in the list is places[k] leaves at times[k].
// Both are a station's, and come from the day and its timetable, so no struct holds the two.
fn write(departures: &mut [u32], places: &[usize; 48], times: &[u32; 48])
    requires { Covers (length departures.old) places.now }
    ensures { InListOrder (length departures.old) places.now times.now departures.new }
{
    let count = departures.len();
    for (place, time) in places[..count].iter().zip(times) {
        departures[*place] = *time;
    }
}

// Writes both stations' departures: those of station 1's trains, then those of station 2's, each in list order.
pub fn write_both(departures: &mut [u32], day: &Day, times: &Timetable)
    requires split { day.now.terms.ones ≤ length departures.old }
    requires first_covers { Covers day.now.terms.ones day.now.one.places }
    requires second_covers { Covers (length departures.old - day.now.terms.ones) day.now.two.places }
    ensures { BothInListOrder day.now.terms.ones (length departures.old - day.now.terms.ones) day.now.one.places day.now.two.places times.now.one times.now.two departures.new }
{
    let ones = day.terms.ones;
    write(&mut departures[..ones], &day.one.places, &times.one);
    write(&mut departures[ones..], &day.two.places, &times.two);
}
