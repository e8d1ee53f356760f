//! The numbers that are drawn.

ghost use Rattle.std.specs.Prelude.{◌≡◌};
ghost use Rattle.yew_make.specs.Draws.{first_state, next_state, word_of, weight_of};

use rand_core::utils::NextWord;
use rand_pcg::Lcg64Xsh32;
use std::marker::Model;

/// The stream of the generator.
const STREAM: u64 = 54;

/// The words of a seed that are not drawn yet: contracts see the state that the next one is taken from.
#[derive(Drop)]
pub struct Draws {
    generator: Lcg64Xsh32,
}

impl Model for Draws {
    ghost use Rattle.std.specs.Prelude.{◌≡◌, ℕ};
    ghost use Rattle.yew_make.specs.Draws.{increment};

    ghost Value = { ℕ };

    ghost view = { λ a. a.generator.state };

    ghost invariant = { λ a. a.generator.increment ≡ increment };
}

impl Draws {
    /// All words of a seed.
    pub fn new(seed: u64) -> Draws
        ensures { result ≡ first_state seed }
    {
        Draws {
            generator: Lcg64Xsh32::new(seed, STREAM),
        }
    }

    /// Draws the next word.
    #[inline]
    pub fn word(&mut self) -> u32
        ensures word { result ≡ word_of self.old }
        ensures next { self.new ≡ next_state self.old }
    {
        self.generator.next_word()
    }

    /// Draws a weight, from 1 to 1000, of one word.
    #[inline]
    pub fn weight(&mut self) -> u32
        ensures weight { result ≡ weight_of (word_of self.old) }
        ensures next { self.new ≡ next_state self.old }
    {
        1 + self.word() % 1000
    }
}
