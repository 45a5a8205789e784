// The day to be planned: its terms, and each station's trains in their order.
ghost use Rattle.std.specs.Prelude.{◌≡◌, ◌≤◌};
ghost use Rattle.refusals.specs.Trains.{trains_in};
ghost use Rattle.planner.specs.Order.{InOrder};
ghost use Rattle.planner.specs.Planning.{Planning};
ghost use Rattle.planner.specs.OneProof.{planning_prop};

use crate::clock::Terms;
use crate::order;

// A station's list, and the places there of its trains in the order in which they leave.
// Of fixed memory, with no heap: the places beyond the station's trains are not read.
#[derive(Debug, Drop)]
pub struct Queue<'a> {
    pub list: &'a [i32],
    pub places: [usize; 48],
}

impl<'a> Queue<'a> {
    // The queue of a list, in its station's order.
    pub fn of(objective: u32, list: &'a [i32]) -> Queue<'a>
        requires { trains_in objective list.now ≤ 48 }
        ensures list { result.list.now ≡ list.now }
        ensures order { InOrder objective list.now result.places }
    {
        Queue {
            list,
            places: order::order(objective, list),
        }
    }
}

// A section that is not refused, with its stations in order.
#[derive(Debug, Drop)]
pub struct Day<'a> {
    pub terms: Terms,
    pub one: Queue<'a>,
    pub two: Queue<'a>,
    ghost planned: { Planning terms one.list.now two.list.now one.places two.places } by { Prim.hlevel planning_prop },
}
