// Random sections of at most 6 trains, with many ties.
ghost use Rattle.std.specs.Prelude.{◌<◌, ◌≤◌};

use crate::lists::List;
use crate::objective::Objective;
use crate::random::Random;
use crate::trains::{Figures, Train};
use rules::{Station, Timing};
use std::array;

// A section has the first ones of 6 trains that are drawn, in number order, and both stations' lists as the planner and the judge read them.
#[derive(Drop)]
pub struct Section {
    pub objective: Objective,
    pub timing: Timing,
    pub drawn: [Train; 6],
    pub count: usize,
    pub one: List,
    pub two: List,
    ghost at_most_six: { (0 < count) × (count ≤ 6) },
}

// Six trains, of which so many leave from station 1. In every second section few figures differ.
fn draw_trains(objective: Objective, ones: u32, random: &mut Random) -> [Train; 6] {
    let few = random.below(2) == 0;
    array::from_fn(
        |number: usize|
            requires { number < 6 }
        {
            let number = number as u32;
            let station = if number < ones {
                Station::One
            } else {
                Station::Two
            };
            let figures = Figures::draw(objective, few, random);
            Train {
                number,
                station,
                figures,
            }
        },
    )
}

// A station's list.
fn list(trains: &[Train], station: Station) -> List {
    let mut list = List::new();
    for train in trains.iter().filter(|train| train.station == station) {
        train.figures.put(&mut list);
    }
    list
}

impl Section {
    // A section of 1 to 6 trains. Either station may be empty.
    pub fn draw(objective: Objective, random: &mut Random) -> Section {
        let running = 2 + random.below(19);
        let headway = 1 + random.below(running - 1);
        let trains = 1 + random.below(6);
        let ones = random.below(trains + 1);
        let drawn = draw_trains(objective, ones, random);
        let count = trains as usize;
        let one = list(&drawn[..count], Station::One);
        let two = list(&drawn[..count], Station::Two);
        Section {
            objective,
            timing: Timing { running, headway },
            drawn,
            count,
            one,
            two,
        }
    }

    // The section's trains.
    pub fn trains(&self) -> &[Train] {
        &self.drawn[..self.count]
    }
}
