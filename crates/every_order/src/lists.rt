// The numbers of a station's list, in memory that has room for 6 rows.
ghost use Rattle.std.specs.Prelude.{◌≤◌};

#[derive(Clone, Copy)]
pub struct List {
    numbers: [i32; 102],
    count: usize,
    ghost within: { count ≤ 102 },
}

impl List {
    // With no train's numbers.
    pub fn new() -> List {
        List {
            numbers: [0; 102],
            count: 0,
        }
    }

    // Puts a train's numbers, for which there is room: no station has more than 6 trains.
    pub fn put(&mut self, numbers: &[i32]) {
        let room = self.numbers.len() - self.count;
        let more = room.min(numbers.len());
        self.numbers[self.count..self.count + more].copy_from_slice(&numbers[..more]);
        self.count += more;
    }

    // The numbers as the planner and the judge read them.
    pub fn as_slice(&self) -> &[i32] {
        &self.numbers[..self.count]
    }
}
