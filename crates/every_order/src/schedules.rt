// The schedule of an order. Departures stay below some hundred seconds, so no sum saturates.
use crate::orders::Order;
use crate::sections::Section;
use crate::trains::Train;

// When each train leaves, by number; 0 for a train that the section does not have.
pub type Departures = [u32; 6];

impl Section {
    // The first second at which a train may leave, by every train before it.
    fn earliest(&self, before: &[&Train], departures: &Departures, train: &Train) -> u32 {
        before
            .iter()
            .map(|other| departures[other.number as usize].saturating_add(self.gap(other, train)))
            .max()
            .unwrap_or(0)
    }

    // The departures where each train of an order waits so many seconds longer than it must.
    pub fn scheduled(&self, order: &Order, waits: &[u32; 6]) -> Departures {
        let mut departures = [0; 6];
        for (place, wait) in waits[..self.count].iter().enumerate() {
            let train = order[place];
            let free = self.earliest(&order[..place], &departures, train);
            departures[train.number as usize] = free.saturating_add(*wait);
        }
        departures
    }

    // The departures where no train waits longer than it must.
    pub fn prompt(&self, order: &Order) -> Departures {
        self.scheduled(order, &[0; 6])
    }
}
