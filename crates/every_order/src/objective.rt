// The objectives, with the numbers that the planner and the judge know them by.

#[derive(Clone, Copy, Debug, PartialEq, Eq)]
pub enum Objective {
    LargestDelay = 1,
    WeightedSum = 2,
    SumOfCosts = 3,
    LargestCost = 4,
}

impl Objective {
    pub const ALL: [Objective; 4] = [
        Objective::LargestDelay,
        Objective::WeightedSum,
        Objective::SumOfCosts,
        Objective::LargestCost,
    ];

    // Whether trains have rows, and those of one station leave in list order.
    pub fn has_rows(self) -> bool {
        matches!(self, Objective::SumOfCosts | Objective::LargestCost)
    }
}
