//! Encoding a message as its remainder word.
ghost use Rattle.std.specs.Prelude.{◌≡◌, true, length, is_ok};
ghost use Rattle.plan.specs.Held.{scheme};
ghost use Rattle.plan.specs.Limits.{modulus_codes};
ghost use Rattle.plan.specs.Refusals.{Encoded, HoldsRemainders};
ghost use Rattle.plan.specs.Schemes.{residue, word, word_length};
ghost use Rattle.plan.specs.Tables.{table_of};

use crate::codes::first_no_code;
use crate::faults::EncodeFault;
use crate::limits::MODULUS_CODES;
use crate::plans::Plan;
use field::Field;
use poly::reduce;

impl<F: Field> Plan<F> {
    /// Fills the buffer with the word of the message: at each position the remainder by its modulus. A
    /// refusal leaves the buffer as it was.
    pub fn encode(&self, message: &[u16], buffer: &mut [u16]) -> Result<(), EncodeFault>
        ensures answer { Encoded (scheme self.now) message.now buffer.old buffer.new result }
        ensures remainders { is_ok result ≡ true → HoldsRemainders (scheme self.now) message.now buffer.new }
    {
        if message.len() != self.message_length() {
            return Err(EncodeFault::MessageLength(self.message_length()));
        }
        if buffer.len() != self.word_length() {
            return Err(EncodeFault::WordLength(self.word_length()));
        }
        if let Some(i) = first_no_code::<F>(message) {
            return Err(EncodeFault::NoCode(i));
        }
        self.fill(message, buffer);
        Ok(())
    }

    /// What position i holds in the word of the message, the remainder by its modulus, in a table that has
    /// zeros after it; all zeros past the positions. A table, for nothing is allocated.
    pub fn residue(&self, i: usize, message: &[u16]) -> [u16; MODULUS_CODES]
        ensures { result ≡ table_of modulus_codes 0 (residue (scheme self.now) message.now i) }
    {
        let mut table = [0; MODULUS_CODES];
        let degree = self.degree(i);
        if degree > 0 {
            reduce::<F>(message, self.divisor(i), &mut table[0..degree]);
        }
        table
    }

    // The word, whatever the message: each residue is computed in its own part of the buffer.
    fn fill(&self, message: &[u16], buffer: &mut [u16])
        requires { length buffer.old ≡ word_length (scheme self.now) }
        ensures { buffer.new ≡ word (scheme self.now) message.now }
    {
        for i in 0..self.positions() {
            let from = self.start(i);
            let end = self.start(i + 1);
            reduce::<F>(message, self.divisor(i), &mut buffer[from..end]);
        }
    }
}
