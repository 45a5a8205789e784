// The best of many schedules.
use crate::schedules::Departures;
use crate::sections::Section;

// A schedule's value and departures.
#[derive(Clone, Copy)]
pub struct Best {
    pub value: i64,
    pub departures: Departures,
}

impl Section {
    // The first safe schedule with the least value, of those with numbers below a count.
    pub fn first_best<F: Fn(u32) -> Departures>(&self, count: u32, schedule: F) -> Option<Best>
        requires { F.IsAlwaysCallable schedule }
    {
        let mut best: Option<Best> = None;
        for number in 0..count {
            let departures = schedule(number);
            let value = self.value(&departures);
            let better = best.is_none_or(|best| value < best.value);
            if better && self.conflict(&departures).is_none() {
                best = Some(Best { value, departures });
            }
        }
        best
    }
}
