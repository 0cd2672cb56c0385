//! Random numbers of a seed.

use rand_core::utils::NextWord;
use rand_pcg::Pcg32;

#[derive(Drop)]
pub(crate) struct Dice {
    generator: Pcg32,
}

impl Dice {
    pub(crate) fn new(seed: u64) -> Self {
        Dice {
            generator: Pcg32::new(seed, 54),
        }
    }

    /// A number below this one, which isn't 0.
    pub(crate) fn below(&mut self, end: u32) -> u32 {
        self.generator.next_word() % end.max(1)
    }

    /// True in `of_hundred` of 100 cases.
    pub(crate) fn is_in(&mut self, of_hundred: u32) -> bool {
        self.below(100) < of_hundred
    }

    /// One of these words; there is at least one.
    pub(crate) fn one_of(&mut self, words: &[u32]) -> u32 {
        let count = u32::try_from(words.len()).unwrap_or(1);
        words.get(self.below(count) as usize).copied().unwrap_or(0)
    }
}
