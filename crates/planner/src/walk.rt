// The walk through the day, train by train: station 1's whenever the day's value stays the best.
ghost use Rattle.std.specs.Prelude.{◌≡◌, ◌+◌, ◌*◌, ◌<◌};
ghost use Rattle.planner.specs.Clock.{by_station, start};
ghost use Rattle.planner.specs.Day.{goes_on, Running, rest};
ghost use Rattle.planner.specs.Walk.{Counted, goes, Walks};
ghost use Rattle.planner.specs.Filled.{section_of, Filled};

use crate::clock::Clock;
use crate::day::Day;
use crate::rests::Rests;
use rules::Station;

// The departures of each station's trains, as they leave.
// Of fixed memory, with no heap: the times beyond a station's trains are not read.
#[derive(Clone, Copy, Debug)]
pub struct Timetable {
    pub one: [u32; 48],
    pub two: [u32; 48],
}

// A day whose tables are filled, to be walked through.
#[derive(Clone, Copy)]
pub struct Walk<'a> {
    pub day: &'a Day<'a>,
    pub rests: Rests<'a>,
    ghost filled: { Filled day.now rests ((day.now.terms.ones + 1) * 49) },
}

impl<'a> Walk<'a> {
    // The best value of the whole day.
    pub fn goal(self) -> i64
        ensures { result ≡ rest (section_of self.entry.day.now) (start self.entry.day.now.terms.ones self.entry.day.now.terms.twos) }
    {
        let terms = self.day.terms;
        let next = self.day.next_trains(terms.ones, terms.twos);
        self.rests
            .best(terms, Clock::start(terms.ones, terms.twos), next)
    }

    // The clock once a station's next train has left.
    fn goes_on(self, clock: Clock, station: Station) -> Clock
        requires running { Running (section_of self.day.now) clock }
        requires counted { Counted (section_of self.day.now) clock }
        requires left { 0 < by_station station clock.ones clock.twos }
        ensures { result ≡ goes_on (section_of self.entry.day.now) clock station }
    {
        let figures = self.day.next_train(station, clock.left(station));
        clock.next(self.day.terms, station, figures)
    }

    // Whose next train leaves: station 1's if it has one, and station 2 has none or the day still comes to the goal.
    #[tactic(auto, using(crate::proofs::Stepping::goes_two_alone, crate::proofs::Stepping::goes_one_alone))]
    fn goes(self, goal: i64, clock: Clock) -> Station
        requires running { Running (section_of self.day.now) clock }
        requires counted { Counted (section_of self.day.now) clock }
        ensures { result ≡ goes (section_of self.entry.day.now) goal clock }
    {
        if clock.ones == 0 {
            return Station::Two;
        }
        if clock.twos == 0 {
            return Station::One;
        }
        let after = self.goes_on(clock, Station::One);
        if self.rests.day(self.day.terms.objective, after) <= goal {
            Station::One
        } else {
            Station::Two
        }
    }

    // When each station's trains leave, on the way that comes to the goal: while the clock has trains left, which no index counts.
    pub fn times(self, goal: i64) -> Timetable
        ensures { Walks (section_of self.entry.day.now) goal result.one result.two }
    {
        let terms = self.day.terms;
        let mut times = Timetable {
            one: [0; 48],
            two: [0; 48],
        };
        let mut clock = Clock::start(terms.ones, terms.twos);
        while 0 < clock.ones + clock.twos {
            let station = self.goes(goal, clock);
            let second = clock.departs(terms.timing, station);
            match station {
                Station::One => times.one[terms.ones - clock.ones] = second,
                Station::Two => times.two[terms.twos - clock.twos] = second,
            }
            clock = self.goes_on(clock, station);
        }
        times
    }
}
