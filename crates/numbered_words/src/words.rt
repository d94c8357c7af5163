ghost use Rattle.std.specs.Prelude.{◌≡◌, length};
ghost use Rattle.rand_core.specs.Steps.{stream_of};
ghost use Rattle.numbered_words.specs.Numbered.{fill_from_words, next_word, word_steps};

use rand_core::utils::NextWord;
use rand_core::{Rng, SeedableRng};
use rand_xoshiro::SplitMix64;
use std::marker::Model;

/// The words of a number, from some place on. A contract sees its state, which begins with the number.
#[derive(Drop)]
pub struct Words {
    generator: SplitMix64,
}

impl Model for Words {
    ghost use Rattle.std.specs.Prelude.{ℕ};

    ghost Value = { ℕ };

    ghost view = { λ words. words.generator };
}

impl Words {
    /// The words of a number.
    pub fn new(number: u64) -> Words
        ensures { result ≡ number }
    {
        Words {
            generator: SplitMix64::seed_from_u64(number),
        }
    }

    /// The next word.
    pub fn word(&mut self) -> u64
        ensures { (result, self.new) ≡ next_word self.old }
    {
        self.generator.next_word()
    }
}

impl Rng for Words {
    ghost stream = { stream_of word_steps };

    /// The high half of a word.
    fn next_u32(&mut self) -> u32 {
        (self.word() >> 32) as u32
    }

    fn next_u64(&mut self) -> u64 {
        self.word()
    }

    /// Words with the high byte first. What the last one has over is dropped.
    fn fill_bytes(&mut self, dst: &mut [u8]) {
        fill_words(self, dst)
    }
}

/// Fills a buffer with words, each with the high byte first. What the last one has over is dropped.
fn fill_words(words: &mut Words, dst: &mut [u8])
    ensures { (dst.new, words.new) ≡ fill_from_words (length dst.old) words.old }
{
    let whole = dst.len() / 8;
    'words: for i in 0..whole {
        let word = words.word();
        dst[8 * i..8 * i + 8].copy_from_slice(&word.to_be_bytes());
    }
    let over = dst.len() % 8;
    if over > 0 {
        let last = words.word().to_be_bytes();
        dst[8 * whole..].copy_from_slice(&last[..over]);
    }
}
