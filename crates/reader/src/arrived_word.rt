//! What has arrived of a word that is kept with a flag for each position.
ghost use Rattle.std.specs.Prelude.{◌≡◌, ◌<◌};
ghost use Rattle.plan.specs.Accounts.{margin, missing, wrong};
ghost use Rattle.plan.specs.Held.{scheme};
ghost use Rattle.plan.specs.Limits.{most_positions};
ghost use Rattle.reader.specs.Arrivals.{account_of_word, part};

use crate::tally::{Residues, Tally};
use field::Field;
use plan::{MOST_POSITIONS, MOST_TOTAL, Plan};

/// A plan, a word under it in a table, and a flag for each position that tells whether it has arrived, as a
/// slot keeps them. It is measured as it stands: no table of residues is made.
#[derive_where(Clone, Copy)]
pub struct ArrivedWord<'a, F: Field> {
    pub plan: &'a Plan<F>,
    pub word: &'a [u16; MOST_TOTAL],
    pub present: &'a [bool; MOST_POSITIONS],
}

impl<'a, F: Field> ArrivedWord<'a, F> {
    // What the word holds for position i.
    fn part(&self, i: usize) -> &'a [u16]
        requires { i < most_positions }
        ensures { result.now ≡ part (scheme self.now.plan.now) self.now.word.now i }
    {
        let word = self.word;
        &word[self.plan.start(i)..self.plan.start(i + 1)]
    }

    fn tally(&self) -> Tally<'_, F, Self>
        ensures plan { result.plan.now ≡ self.now.plan.now }
        ensures source { result.source.now ≡ self.now }
    {
        Tally {
            plan: self.plan,
            source: self,
        }
    }

    /// R, the degrees of the missing positions.
    pub fn missing_degrees(&self) -> usize
        ensures { result ≡ missing (scheme self.now.plan.now) (account_of_word self.now) }
    {
        self.tally().missing_degrees()
    }

    /// e, the degrees of the present positions whose residue differs from the message's.
    pub fn wrong_degrees(&self, message: &[u16]) -> usize
        ensures { result ≡ wrong (scheme self.now.plan.now) (account_of_word self.now) message.now }
    {
        self.tally().wrong_degrees(message)
    }

    /// The margin N − K − R − 2e of the message; below 0 where the message lies outside the allowance.
    pub fn measure(&self, message: &[u16]) -> i32
        ensures { result ≡ margin (scheme self.now.plan.now) (account_of_word self.now) message.now }
    {
        self.tally().measure(message)
    }
}

impl<F: Field> Residues for ArrivedWord<'_, F> {
    ghost account = { account_of_word };

    fn at(&self, i: usize) -> Option<&[u16]> {
        let present = self.present;
        if present.get(i).copied().unwrap_or(false) {
            Some(self.part(i))
        } else {
            None
        }
    }
}
