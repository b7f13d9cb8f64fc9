//! The candidate: the only polynomial below K that can be the message within the allowance of what is joined.
ghost use Rattle.std.specs.Prelude.{◌≤◌};
ghost use Rattle.algebra.specs.Polynomial.{coefficients};
ghost use Rattle.algebra.specs.Theorems.{Stopped};
ghost use Rattle.reader.specs.Finding.{Searched};

use crate::answers::MESSAGE_TABLE;
use crate::joining::Joined;
use field::Field;
use poly::{CAPACITY, Euclid, divide};

impl<F: Field> Joined<F> {
    /// Euclid's extended algorithm on M and Y, to the first remainder of degree below (D + K)/2; Y itself is the first.
    fn half_way(&self, message_length: usize) -> Euclid
        requires { message_length ≤ self.now.degree }
        ensures { Stopped F.Field.arithmetic self.now.degree message_length (coefficients self.now.product) (coefficients self.now.value) (coefficients result.current) (coefficients result.t_current) }
    {
        let bound = self.degree + message_length;
        let mut euclid = Euclid::start(&self.product, &self.value);
        // A remainder of n codes has the degree n - 1.
        euclid.descend::<F>(bound.div_ceil(2));
        euclid
    }

    /// The quotient of the remainder where the algorithm is stopped by its factor, if it has no rest and is below K.
    pub(crate) fn candidate(&self, message_length: usize) -> Option<[u16; MESSAGE_TABLE]>
        requires { message_length ≤ self.now.degree }
        ensures { Searched F.Field.arithmetic self.now.degree message_length (coefficients self.now.product) (coefficients self.now.value) result }
    {
        let euclid = self.half_way(message_length);
        let mut remainder = euclid.current;
        let mut quotient = [0; CAPACITY];
        let (degree, rest) = divide::<F>(&mut remainder, &euclid.t_current, &mut quotient);
        if rest >= 0 || degree >= message_length as i32 {
            return None;
        }
        let mut message = [0; MESSAGE_TABLE];
        message.copy_from_slice(&quotient[0..MESSAGE_TABLE]);
        Some(message)
    }
}
