//! Random numbers that are the same in each run.

/// A linear congruential generator.
#[derive(Drop)]
pub struct Random(u32);

impl Random {
    /// Creates a generator whose first number is the one after a seed.
    pub fn new(seed: u32) -> Self {
        Self(seed)
    }

    /// Returns the next number, of 32 bits.
    pub fn next(&mut self) -> u32 {
        self.0 = self.0.wrapping_mul(1_664_525).wrapping_add(1_013_904_223);
        self.0
    }

    /// Returns a random number below a bound, or 0 if the bound is 0.
    ///
    /// It takes the upper bits, because the lower ones repeat soon.
    pub fn below(&mut self, bound: usize) -> usize {
        ((self.next() >> 8) as usize)
            .checked_rem(bound)
            .unwrap_or(0)
    }
}
