//! What a plan tells of itself: its numbers of positions and codes, and each position's modulus, start and degree.
ghost use Rattle.std.specs.Prelude.{◌≡◌, ℕ, ◌+◌, ◌<◌, ◌≤◌, length};
ghost use Rattle.plan.specs.Held.{scheme};
ghost use Rattle.plan.specs.Limits.{modulus_codes};
ghost use Rattle.plan.specs.Schemes.{positions, modulus, degree, divisor, start, message_length, word_length};

use crate::plans::Plan;
use field::Field;

impl<F: Field> Plan<F> {
    /// How many positions a word has.
    pub fn positions(&self) -> usize
        ensures { result ≡ positions (scheme self.now) }
    {
        self.positions
    }

    /// k, how many positions carry the message by themselves.
    pub fn carriers(&self) -> usize
        ensures { result ≡ (scheme self.now).carriers }
    {
        self.carriers
    }

    /// Where position i of a word starts; the word's length for any i past the positions.
    pub fn start(&self, i: usize) -> usize
        ensures { result ≡ start (scheme self.now) i }
    {
        self.starts[i.min(self.positions)]
    }

    /// The degree of modulus i, and so the codes that position i has in a word; 0 past the positions.
    pub fn degree(&self, i: usize) -> usize
        ensures { result ≡ degree (scheme self.now) i }
    {
        if i < self.positions {
            self.starts[i + 1] - self.starts[i]
        } else {
            0
        }
    }

    /// N, the codes of a word.
    pub fn word_length(&self) -> usize
        ensures { result ≡ word_length (scheme self.now) }
    {
        self.starts[self.positions]
    }

    /// K, the codes of a message.
    pub fn message_length(&self) -> usize
        ensures { result ≡ message_length (scheme self.now) }
    {
        self.starts[self.carriers]
    }

    /// The codes of modulus i as they were handed in; none past the positions.
    pub fn modulus(&self, i: usize) -> &[u16]
        ensures value { result.now ≡ modulus (scheme self.now) i }
        ensures long { i < positions (scheme self.now) → length result.now ≡ modulus_codes }
    {
        if i < self.positions {
            &self.moduli[i]
        } else {
            &[]
        }
    }

    /// The codes of modulus i up to its leading one, by which a message is divided; none past the positions.
    pub fn divisor(&self, i: usize) -> &[u16]
        ensures value { result.now ≡ divisor (scheme self.now) i }
        ensures short { length result.now ≤ modulus_codes }
    {
        if i < self.positions {
            &self.modulus(i)[0..self.degree(i) + 1]
        } else {
            &[]
        }
    }
}
