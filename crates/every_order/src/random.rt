// Random numbers, the same in every run: a state of 64 bits, mixed by shifts.
ghost use Rattle.std.specs.Prelude.{◌<◌};

#[derive(Drop)]
pub struct Random {
    state: u64,
}

impl Random {
    pub fn new() -> Self {
        Random {
            state: 88172645463325252,
        }
    }

    // A number from 0 to n - 1. No number drawn, counted or listed in this program is above 719, so that its casts keep them.
    pub fn below(&mut self, n: u32) -> u32
        requires { 0 < n }
        ensures { result < n }
    {
        self.state ^= self.state << 13;
        self.state ^= self.state >> 7;
        self.state ^= self.state << 17;
        let drawn = (self.state / 65536 % 4294967296) as u32;
        drawn % n
    }
}
