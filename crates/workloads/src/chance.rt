use rand_core::utils::NextWord;
use rand_pcg::Pcg32;
use std::alloc::{AllocError, Global};

/// Numbers by chance, the same for the same seed.
#[derive(Drop)]
pub struct Chance {
    generator: Pcg32,
}

impl Chance {
    pub fn new(seed: u32) -> Chance {
        Chance {
            generator: Pcg32::new(u64::from(seed), 54),
        }
    }

    /// 32 bits by chance.
    pub fn word(&mut self) -> u32 {
        self.generator.next_word()
    }

    /// A number below the limit; 0 where that is 0.
    pub fn below(&mut self, limit: u32) -> u32 {
        self.word().checked_rem(limit).unwrap_or(0)
    }

    /// The numbers below the limit in some order.
    pub fn shuffled(&mut self, alloc: Global, limit: u32) -> Result<Vec<u32>, AllocError> {
        let mut numbers: Vec<u32> = Vec::new(alloc);
        for n in 0..limit {
            numbers.push(n)?;
        }
        let len = numbers.len();
        for at in 0..len {
            let other = self.below(limit) as usize;
            if at < len && other < len {
                numbers.as_mut_slice().swap(at, other);
            }
        }
        Ok(numbers)
    }
}
