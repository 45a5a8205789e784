// The objectives' table as code: numbers a train, most trains a station, list order kept or not, the rule of a good train, its cost, and how costs join.
// Figures are a train's numbers in its list. Every public function is a column of the rules' table.
#![tactic(auto)]

ghost use Rattle.std.specs.Prelude.{◌&&◌, ◌≡◌, ◌<◌, ◌+◌, min, pos};
ghost use Rattle.rules.specs.Figures.{figure, within, is_zero, step_count, good_row, row_cost};
ghost use Rattle.rules.specs.Objectives.{aim_of};
ghost use Rattle.costs.specs.Aims.{row_of};
ghost use Rattle.costs.specs.Steps.{climbs, good_step};
ghost use Rattle.costs.specs.Held.{held};

// A row of the table.
#[derive(Clone, Copy, Debug, PartialEq, Eq)]
enum Aim {
    Lateness,
    Weighted,
    Summed,
    Largest,
}

impl Aim {
    // The row of an objective's number. The rules give every number one (docs/DECISIONS.md, 4), so the public functions take numbers: an enum has fewer.
    #[tactic(auto, unfolding(rules::specs::Objectives::aim_of))]
    fn of(objective: u32) -> Aim
        ensures { aim_of objective ≡ row_of result }
    {
        match objective {
            1 => Aim::Lateness,
            2 => Aim::Weighted,
            3 => Aim::Summed,
            _ => Aim::Largest,
        }
    }
}

// Whether trains of one station leave in list order, as those with rows do.
#[tactic(auto, unfolding(rules::specs::Objectives::lateness, rules::specs::Objectives::weighted, rules::specs::Objectives::by_rows))]
pub fn listed(objective: u32) -> bool
    ensures { result ≡ (aim_of objective).listed }
{
    matches!(Aim::of(objective), Aim::Summed | Aim::Largest)
}

// The numbers a train.
#[tactic(auto, using(crate::proofs::Table::numbers_listed))]
pub fn numbers(objective: u32) -> usize
    ensures { result ≡ (aim_of objective).numbers }
{
    if listed(objective) { 17 } else { 1 }
}

// The most trains a station.
#[tactic(auto, using(crate::proofs::Table::most_listed))]
pub fn most(objective: u32) -> usize
    ensures { result ≡ (aim_of objective).most }
{
    if listed(objective) { 12 } else { 48 }
}

// The figure at a place, and 0 past the end.
#[tactic(auto, unfolding(rules::specs::Figures::figure))]
fn figure(x: &[i32], k: usize) -> i32
    ensures { result ≡ figure x.now k }
{
    x.get(k).copied().unwrap_or(0)
}

// Whether a number is from the least to the most, as the rules say it. Tried in place, `contains` left goals open.
#[tactic(auto, unfolding(rules::specs::Figures::within))]
fn within(least: i32, most: i32, z: i32) -> bool
    ensures { result ≡ within least most z }
{
    (least..=most).contains(&z)
}

// A train's figures as a row: the step count, eight starts, eight costs, read where they stand in the list.
// So a method of one step asks for a number below 8.
#[derive(Clone, Copy, Debug)]
struct Row<'a>(&'a [i32]);

impl<'a> Row<'a> {
    // How many steps are used, by the step count. The cast keeps what the clamp leaves, 0 to 8.
    fn used(self) -> usize
        ensures { result ≡ min (step_count (figure self.entry.0.now 0)) 8 }
    {
        figure(self.0, 0).clamp(0, 8) as usize
    }

    // The start of the step after k others: an arrival from it on pays the step's cost.
    fn start(self, k: usize) -> i32
        requires { k < 8 }
        ensures { result ≡ figure self.entry.0.now (1 + k) }
    {
        figure(self.0, 1 + k)
    }

    // The cost of the step after k others.
    fn cost(self, k: usize) -> i32
        requires { k < 8 }
        ensures { result ≡ figure self.entry.0.now (9 + k) }
    {
        figure(self.0, 9 + k)
    }

    // Whether the step after k others, given by its start and cost, starts after the one before it and costs no less; the first has none before it.
    fn climbs(self, k: usize, start: i32, cost: i32) -> bool
        requires { (k < 8) × (start ≡ figure self.0.now (1 + k)) × (cost ≡ figure self.0.now (9 + k)) }
        ensures { result ≡ climbs self.entry.0.now k }
    {
        k == 0 || (self.start(k - 1) < start && self.cost(k - 1) <= cost)
    }

    // Whether the step after k others keeps the rule: a used one is within bounds and climbs, any other is 0.
    #[tactic(auto, using(crate::proofs::Ranges::zero_bits))]
    fn is_good_step(self, used: usize, k: usize) -> bool
        requires { k < 8 }
        ensures { result ≡ good_step self.entry.0.now used k }
    {
        let start = self.start(k);
        let cost = self.cost(k);
        if k < used {
            start <= 1000000 && within(0, 1000000, cost) && self.climbs(k, start, cost)
        } else {
            (start == 0) & (cost == 0)
        }
    }

    // Whether a row begins well: with a step count of 1 to 8 and a first step that starts at 0.
    #[tactic(auto, using(crate::proofs::Ranges::zero_bits))]
    fn begins(self) -> bool
        ensures { result ≡ (within (pos 1) (pos 8) (figure self.entry.0.now 0) && is_zero (figure self.entry.0.now 1)) }
    {
        within(1, 8, figure(self.0, 0)) & (self.start(0) == 0)
    }

    // The rule of a row: its step count, its first start and its eight steps.
    fn is_good(self) -> bool
        ensures { result ≡ good_row self.entry.0.now }
    {
        let used = self.used();
        self.begins() && (0..8).all(|k| self.is_good_step(used, k))
    }

    // The cost of the last used step whose start is not after the arrival.
    // A loop: tried as a chain, `find` over the range turned round, whose proof did not close.
    #[tactic(auto, using(crate::proofs::Rows::row_cost_so_far, crate::proofs::Rows::so_far_more), unfolding(crate::proofs::Rows::so_far))]
    fn cost_at(self, arrival: u32) -> i32
        ensures { result ≡ row_cost self.entry.0.now arrival }
    {
        for k in (0..self.used()).rev() {
            if i64::from(self.start(k)) <= i64::from(arrival) {
                return self.cost(k);
            }
        }
        0
    }
}

// Whether a train's figures keep their rule. Rows are told by `listed`, a test that a search over trains makes once, and not for each train.
#[tactic(auto, using(crate::proofs::Table::good_listed), unfolding(rules::specs::Objectives::lateness, rules::specs::Objectives::weighted, rules::specs::Objectives::by_rows))]
pub fn good(objective: u32, figures: &[i32]) -> bool
    ensures { result ≡ (aim_of objective).good figures.now }
{
    if listed(objective) {
        return Row(figures).is_good();
    }
    let (least, most) = match Aim::of(objective) {
        Aim::Lateness => (-1000000, 1000000),
        _ => (0, 10000),
    };
    within(least, most, figure(figures, 0))
}

// What a train costs that arrives at a second.
#[tactic(auto, unfolding(rules::specs::Objectives::lateness, rules::specs::Objectives::weighted, rules::specs::Objectives::by_rows))]
pub fn cost(objective: u32, figures: &[i32], arrival: u32) -> i64
    ensures { result ≡ (aim_of objective).cost figures.now arrival }
{
    match Aim::of(objective) {
        Aim::Lateness => i64::from(arrival) - i64::from(figure(figures, 0)),
        Aim::Weighted => i64::from(figure(figures, 0)) * i64::from(arrival),
        Aim::Summed | Aim::Largest => i64::from(Row(figures).cost_at(arrival)),
    }
}

// Two costs as one: their sum, held to 64 bits, or the larger.
#[tactic(auto, unfolding(rules::specs::Objectives::lateness, rules::specs::Objectives::weighted, rules::specs::Objectives::by_rows, rules::specs::Objectives::larger))]
pub fn joined(objective: u32, a: i64, b: i64) -> i64
    ensures { result ≡ held ((aim_of objective).joined a b) }
{
    match Aim::of(objective) {
        Aim::Weighted | Aim::Summed => a.saturating_add(b),
        Aim::Lateness | Aim::Largest => a.max(b),
    }
}
