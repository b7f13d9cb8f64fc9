//! The search for a law that is broken: at all codes, then at all pairs, then at all triples.
ghost use Rattle.std.specs.Prelude.{◌<◌, MatchBool, MatchResult};
ghost use Rattle.small_field.specs.Candidates.{Breaks, Decided, HasInverse, LacksInverse};
ghost use Rattle.small_field.specs.Stages.{AllHold, CodeHolds, CodesHold, PairHolds, PairsHold, PairsHoldOf};
ghost use Rattle.small_field.specs.Stages.{TripleHolds, TriplesHold, TriplesHoldFrom, TriplesHoldOf};

use crate::broken::Broken;
use crate::tables::Tables;

// A field has two elements at least, and at most this many.
const LARGEST_ORDER: u16 = 32768;

impl<'a> Tables<'a> {
    /// Whether the operations are those of a field; if not, a law that they break, and codes at which they
    /// break it. The search goes through the codes, then the pairs, then the triples, and stops at the first
    /// that it meets.
    pub fn broken_law(&self) -> Result<(), Broken>
        ensures { Decided self.now result }
    {
        self.search()
    }

    fn search(&self) -> Result<(), Broken>
        ensures { MatchResult result (λ _. AllHold self.now) (Breaks self.now) }
    {
        if self.order < 2 || self.order > LARGEST_ORDER {
            return Err(Broken::Order);
        }
        self.at_codes()?;
        self.at_pairs()?;
        self.at_triples()
    }

    // Whether some code times a is 1.
    fn has_inverse(&self, a: u16) -> bool
        ensures { MatchBool result (HasInverse self.now a) (LacksInverse self.now a) }
    {
        for b in 0..self.order {
            if self.product(a, b) == 1 {
                return true;
            }
        }
        false
    }

    fn at_code(&self, a: u16) -> Result<(), Broken>
        requires { a < self.now.order }
        ensures { MatchResult result (λ _. CodeHolds self.now a) (Breaks self.now) }
    {
        if self.negative(a) >= self.order {
            return Err(Broken::NegativeNoCode(a));
        }
        if self.sum(a, 0) != a {
            return Err(Broken::SumWithZero(a));
        }
        if self.sum(a, self.negative(a)) != 0 {
            return Err(Broken::SumWithNegative(a));
        }
        if self.product(a, 1) != a {
            return Err(Broken::ProductWithOne(a));
        }
        if self.product(0, a) != 0 {
            return Err(Broken::ProductWithZero(a));
        }
        if a > 0 && !self.has_inverse(a) {
            return Err(Broken::NoInverse(a));
        }
        Ok(())
    }

    fn at_codes(&self) -> Result<(), Broken>
        ensures { MatchResult result (λ _. CodesHold self.now) (Breaks self.now) }
    {
        for a in 0..self.order {
            self.at_code(a)?;
        }
        Ok(())
    }

    fn at_pair(&self, a: u16, b: u16) -> Result<(), Broken>
        requires a { a < self.now.order }
        requires b { b < self.now.order }
        ensures { MatchResult result (λ _. PairHolds self.now a b) (Breaks self.now) }
    {
        if self.sum(a, b) >= self.order {
            return Err(Broken::SumNoCode(a, b));
        }
        if self.product(a, b) >= self.order {
            return Err(Broken::ProductNoCode(a, b));
        }
        if self.sum(a, b) != self.sum(b, a) {
            return Err(Broken::SumTurned(a, b));
        }
        if self.product(a, b) != self.product(b, a) {
            return Err(Broken::ProductTurned(a, b));
        }
        Ok(())
    }

    // The pairs that begin with a.
    fn at_pairs_of(&self, a: u16) -> Result<(), Broken>
        requires { a < self.now.order }
        ensures { MatchResult result (λ _. PairsHoldOf self.now a) (Breaks self.now) }
    {
        for b in 0..self.order {
            self.at_pair(a, b)?;
        }
        Ok(())
    }

    fn at_pairs(&self) -> Result<(), Broken>
        ensures { MatchResult result (λ _. PairsHold self.now) (Breaks self.now) }
    {
        for a in 0..self.order {
            self.at_pairs_of(a)?;
        }
        Ok(())
    }

    fn at_triple(&self, a: u16, b: u16, c: u16) -> Result<(), Broken>
        requires a { a < self.now.order }
        requires b { b < self.now.order }
        requires c { c < self.now.order }
        ensures { MatchResult result (λ _. TripleHolds self.now a b c) (Breaks self.now) }
    {
        if self.sum(self.sum(a, b), c) != self.sum(a, self.sum(b, c)) {
            return Err(Broken::SumRegrouped(a, b, c));
        }
        if self.product(self.product(a, b), c) != self.product(a, self.product(b, c)) {
            return Err(Broken::ProductRegrouped(a, b, c));
        }
        if self.product(a, self.sum(b, c)) != self.sum(self.product(a, b), self.product(a, c)) {
            return Err(Broken::Distribution(a, b, c));
        }
        Ok(())
    }

    // The triples that begin with a and b.
    fn at_triples_of(&self, a: u16, b: u16) -> Result<(), Broken>
        requires a { a < self.now.order }
        requires b { b < self.now.order }
        ensures { MatchResult result (λ _. TriplesHoldOf self.now a b) (Breaks self.now) }
    {
        for c in 0..self.order {
            self.at_triple(a, b, c)?;
        }
        Ok(())
    }

    // The triples that begin with a.
    fn at_triples_from(&self, a: u16) -> Result<(), Broken>
        requires { a < self.now.order }
        ensures { MatchResult result (λ _. TriplesHoldFrom self.now a) (Breaks self.now) }
    {
        for b in 0..self.order {
            self.at_triples_of(a, b)?;
        }
        Ok(())
    }

    fn at_triples(&self) -> Result<(), Broken>
        ensures { MatchResult result (λ _. TriplesHold self.now) (Breaks self.now) }
    {
        for a in 0..self.order {
            self.at_triples_from(a)?;
        }
        Ok(())
    }
}
