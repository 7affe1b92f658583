use bats_model::Bytes;
use std::alloc::{AllocError, Global};

/// A fixed sequence of bytes without a pattern, by a linear congruence.
#[derive(Drop)]
pub struct Draws {
    state: u32,
}

impl Draws {
    /// The sequence with this start.
    pub fn new(state: u32) -> Draws {
        Draws { state }
    }

    fn byte(&mut self) -> u8 {
        self.state = self
            .state
            .wrapping_mul(1_664_525)
            .wrapping_add(1_013_904_223);
        (self.state >> 24) as u8
    }

    /// The next `size` bytes.
    pub fn bytes(&mut self, alloc: Global, size: usize) -> Result<Bytes, AllocError> {
        let mut bytes = Bytes::new(alloc);
        for _ in 0..size {
            bytes.push(self.byte())?;
        }
        Ok(bytes)
    }
}
