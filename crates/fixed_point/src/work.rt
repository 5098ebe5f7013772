//! How much was done: multiplications, about. A count and no clock, so that runs repeat exactly.

/// A count of multiplications, which stays at `2^64 - 1` once it is there.
#[derive(Clone, Copy, Debug)]
pub struct Work {
    done: u64,
}

impl Work {
    /// Nothing was done yet.
    pub fn new() -> Self {
        Work { done: 0 }
    }

    /// How many multiplications were counted, from 0 to `2^64 - 1`.
    pub fn done(self) -> u64 {
        self.done
    }

    /// Counts so many more.
    pub fn count(&mut self, more: usize) {
        self.done = self.done.saturating_add(more as u64);
    }

    /// Counts so many times so many more.
    pub fn count_product(&mut self, left: usize, right: usize) {
        self.count(left.saturating_mul(right));
    }
}
