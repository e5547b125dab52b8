//! Numbers by chance, which are the same for the same seed.

/// Numbers by a linear congruence.
#[derive(Drop)]
pub(crate) struct Lots {
    last: u64,
}

impl Lots {
    /// The numbers of a seed.
    pub(crate) fn of_seed(seed: u64) -> Lots {
        Lots { last: seed }
    }

    /// The next number, of 31 bits.
    pub(crate) fn draw(&mut self) -> u64 {
        self.last = self
            .last
            .wrapping_mul(6_364_136_223_846_793_005)
            .wrapping_add(1_442_695_040_888_963_407);
        self.last >> 33
    }
}
