// Rows: costs by steps.
ghost use Rattle.std.specs.Prelude.{◌≤◌, length};

use crate::random::Random;

// From its start on, an arrival pays a step's cost, until the next step starts.
#[derive(Clone, Copy)]
struct Step {
    start: i32,
    cost: i32,
}

// A row has the first ones of 3 steps that are drawn.
#[derive(Clone, Copy)]
pub struct Row {
    drawn: [Step; 3],
    count: usize,
    ghost at_most_three: { count ≤ 3 },
}

impl Row {
    // A row of 1 to 3 steps. Its starts are near the arrivals of a few trains, so that some arrive at the very second of a step.
    pub fn draw(random: &mut Random) -> Row {
        let count = 1 + random.below(3) as usize;
        let second = 1 + random.below(60) as i32;
        let third = second + 1 + random.below(60) as i32;
        let cost = random.below(4) as i32;
        let more = cost + random.below(20) as i32;
        let most = more + random.below(20) as i32;
        let drawn = [
            Step { start: 0, cost },
            Step {
                start: second,
                cost: more,
            },
            Step {
                start: third,
                cost: most,
            },
        ];
        Row { drawn, count }
    }

    // The row's steps.
    fn steps(&self) -> &[Step]
        ensures { length result.now ≤ 3 }
    {
        &self.drawn[..self.count]
    }

    // The row's 17 numbers: the step count, eight starts and eight costs.
    pub fn numbers(&self) -> [i32; 17] {
        let mut numbers = [0; 17];
        numbers[0] = self.count as i32;
        for (k, step) in self.steps().iter().enumerate() {
            numbers[1 + k] = step.start;
            numbers[9 + k] = step.cost;
        }
        numbers
    }

    // The cost of the last step that has started by an arrival.
    pub fn cost(&self, arrival: u32) -> i64 {
        self.steps()
            .iter()
            .rev()
            .find(|step| i64::from(step.start) <= i64::from(arrival))
            .map_or(0, |step| i64::from(step.cost))
    }
}
