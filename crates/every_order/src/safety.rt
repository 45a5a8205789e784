// The rules of a safe schedule, tried on every pair of trains.
use crate::schedules::Departures;
use crate::sections::Section;
use crate::trains::Train;

impl Section {
    // The seconds that two trains' departures must differ by.
    pub fn gap(&self, train: &Train, other: &Train) -> u32 {
        if train.station == other.station {
            self.timing.headway
        } else {
            self.timing.running
        }
    }

    // Whether a train and one with a greater number break a rule: R1 or R2 by too small a gap, R3 by leaving the wrong way round.
    fn breaks(&self, first: &Train, departure: u32, second: &Train, departed: u32) -> bool {
        let too_near = departure.abs_diff(departed) < self.gap(first, second);
        let ordered = self.objective.has_rows() && first.station == second.station;
        too_near || (ordered && departed <= departure)
    }

    // The numbers of the first pair of trains that break a rule, where there is one.
    pub fn conflict(&self, departures: &Departures) -> Option<(u32, u32)> {
        for (first, departure) in self.trains().iter().zip(departures) {
            let second = self.trains().iter().zip(departures).find(|(second, departed)| {
                first.number < second.number && self.breaks(first, *departure, second, **departed)
            });
            if let Some((second, _)) = second {
                return Some((first.number, second.number));
            }
        }
        None
    }
}
