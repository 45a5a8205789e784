// The running clock of a day, handed on from train to train.
ghost use Rattle.std.specs.Prelude.{◌≡◌, ◌<◌, ◌≤◌};
ghost use Rattle.std.specs.Int.{w64};
ghost use Rattle.std.proofs.Common.{SFits};
ghost use Rattle.planner.specs.Clock.{by_station, departs, changed, Near, alone, next, start, cell_clock};

use rules::{Station, Timing};

// What is planned for: the objective, the timing, and how many trains the stations have.
#[derive(Clone, Copy, Debug)]
pub struct Terms {
    pub objective: u32,
    pub timing: Timing,
    pub ones: usize,
    pub twos: usize,
}

// The station that a train left, and when.
#[derive(Clone, Copy, Debug)]
pub struct Departure {
    pub station: Station,
    pub second: u32,
}

// How far a day has come.
#[derive(Clone, Copy, Debug)]
pub struct Clock {
    // the last departure, once a train has left
    pub last: Option<Departure>,
    // how often the next train was another station's
    pub changes: usize,
    // the trains left at station 1, and at station 2
    pub ones: usize,
    pub twos: usize,
    // the value so far
    pub value: i64,
}

// What sends a train asks that the clock be `Near` the timing, which a clock does not hold, and that the station have a train left.
impl Clock {
    // Before the first train, with so many left.
    #[tactic(auto, unfolding(crate::specs::Clock::start))]
    pub fn start(ones: usize, twos: usize) -> Clock
        ensures { result ≡ start ones twos }
    {
        Clock {
            last: None,
            changes: 0,
            ones,
            twos,
            value: 0,
        }
    }

    // As a cell of the tables has it: after a departure and so many changes of station, with so many trains left and no value yet.
    #[tactic(auto, unfolding(crate::specs::Clock::cell_clock))]
    pub fn of_cell(last: Departure, changes: usize, ones: usize, twos: usize) -> Clock
        ensures { result ≡ cell_clock last.station last.second changes ones twos }
    {
        Clock {
            last: Some(last),
            changes,
            ones,
            twos,
            value: 0,
        }
    }

    // The trains left at a station.
    pub fn left(self, station: Station) -> usize
        ensures { result ≡ by_station station self.ones self.twos }
    {
        match station {
            Station::One => self.ones,
            Station::Two => self.twos,
        }
    }

    // The second at which a station's next train can leave.
    #[tactic(auto, using(rules::proofs::Line::gap_most), unfolding(crate::specs::Clock::departs))]
    pub fn departs(self, timing: Timing, station: Station) -> u32
        requires { Near timing self }
        ensures { result ≡ departs timing self station }
    {
        match self.last {
            None => 0,
            Some(last) => last.second + line::gap(timing, last.station, station),
        }
    }

    // The changes of station once a station's next train has left.
    #[tactic(auto, unfolding(crate::specs::Clock::changed))]
    fn changed(self, station: Station) -> usize
        requires { self.changes ≤ 96 }
        ensures { result ≡ changed self station }
    {
        match self.last {
            None => self.changes,
            Some(last) => self.changes + usize::from(!line::same(last.station, station)),
        }
    }

    // The clock once a station's next train has left, as early as it can; the value is that of this train alone.
    #[tactic(auto, using(crate::proofs::Near::arrives_by), unfolding(crate::specs::Clock::alone))]
    pub fn alone(self, terms: Terms, station: Station, figures: &[i32]) -> Clock
        requires near { Near terms.timing self }
        requires left { 0 < by_station station self.ones self.twos }
        ensures { result ≡ alone terms self station figures.now }
    {
        let timing = terms.timing;
        let second = self.departs(timing, station);
        // a day is short enough for 32 bits: a `try_from` would have an error that cannot happen
        let arrival = line::arrival(timing, station, second) as u32;
        let (ones, twos) = match station {
            Station::One => (self.ones - 1, self.twos),
            Station::Two => (self.ones, self.twos - 1),
        };
        Clock {
            last: Some(Departure { station, second }),
            changes: self.changed(station),
            ones,
            twos,
            value: costs::cost(terms.objective, figures, arrival),
        }
    }

    // The next clock: a station's next train has left, and its cost is joined to the value so far.
    #[tactic(auto, using(costs::proofs::Held::held_fits), unfolding(crate::specs::Clock::next))]
    pub fn next(self, terms: Terms, station: Station, figures: &[i32]) -> Clock
        requires near { Near terms.timing self }
        requires left { 0 < by_station station self.ones self.twos }
        requires fits { SFits w64 (next terms self station figures.now).value }
        ensures { result ≡ next terms self station figures.now }
    {
        let clock = self.alone(terms, station, figures);
        match self.last {
            None => clock,
            Some(_) => Clock {
                value: costs::joined(terms.objective, self.value, clock.value),
                ..clock
            },
        }
    }
}
