//! Pseudorandom numbers, the same in each run and for each pointer that is measured.
ghost use Rattle.std.specs.Prelude.{◌<◌};

/// A linear congruential generator. The upper half of its state is the better one.
#[derive(Clone, Copy)]
pub struct Random {
    pub state: u64,
}

impl Random {
    /// Creates a generator with a fixed seed.
    pub fn new() -> Random {
        Random { state: 1 }
    }

    /// Moves to the next state and returns it.
    pub fn next(&mut self) -> u64 {
        self.state = self
            .state
            .wrapping_mul(6364136223846793005)
            .wrapping_add(1442695040888963407);
        self.state
    }

    /// Returns a number below `bound`, from the current state.
    pub fn pick(&self, bound: usize) -> usize
        requires { 0 < bound }
        ensures { result < bound }
    {
        (self.state >> 33) as usize % bound
    }

    /// Returns a number below `bound`, from the next state.
    pub fn below(&mut self, bound: usize) -> usize
        requires { 0 < bound }
        ensures { result < bound }
    {
        let _next = self.next();
        self.pick(bound)
    }
}

/// Shuffles the items, always in the same way.
pub fn shuffle<T: Drop>(items: &mut [T]) {
    let mut random = Random::new();
    for i in 1..items.len() {
        let other = random.below(i + 1);
        items.swap(i, other);
    }
}
