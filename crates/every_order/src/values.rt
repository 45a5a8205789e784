// What a schedule is worth. All numbers here are far below a thousand million.
ghost use Rattle.std.specs.Prelude.{◌≤◌};
ghost use Rattle.std.specs.Int.Signed.{mag};

use crate::objective::Objective;
use crate::schedules::Departures;
use crate::sections::Section;

// A number, held to a thousand million either way, so that no sum or product of two wraps.
pub fn held(x: i64) -> i64
    ensures { mag result ≤ 1000000000 }
{
    x.clamp(-1000000000, 1000000000)
}

impl Section {
    // What the trains' departures are worth: the sum of their costs under objectives 2 and 3, the largest under 1 and 4.
    pub fn value(&self, departures: &Departures) -> i64 {
        let running = self.timing.running;
        let costs = self.trains().iter().zip(departures).map(|(train, departure)| train
            .figures
            .cost(departure.saturating_add(running)));
        match self.objective {
            Objective::WeightedSum | Objective::SumOfCosts => {
                costs.fold(0, |sum, cost| held(sum) + held(cost))
            }
            Objective::LargestDelay | Objective::LargestCost => costs.max().unwrap_or(0),
        }
    }
}
