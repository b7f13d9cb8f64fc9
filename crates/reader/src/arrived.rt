//! What has arrived of a word.
ghost use Rattle.std.specs.Prelude.{◌≡◌, ◌+◌};
ghost use Rattle.std.specs.Option.{option_copied};
ghost use Rattle.plan.specs.Accounts.{margin, missing, wrong};
ghost use Rattle.plan.specs.Held.{scheme};
ghost use Rattle.plan.specs.Schemes.{message_length, word_length};
ghost use Rattle.reader.specs.Arrivals.{account_of, part, received};

use crate::tally::{Residues, Tally};
use field::Field;
use plan::{MOST_POSITIONS, Plan};
use std::array;

/// A plan, and what has arrived of a word under it: position after position a residue, or `None` where it is
/// missing. A position past the end of the residues is missing too. Any residue may have any length and hold
/// any numbers.
#[derive_where(Clone, Copy)]
pub struct Arrived<'a, F: Field> {
    pub plan: &'a Plan<F>,
    pub residues: &'a [Option<&'a [u16]>],
}

impl<'a, F: Field> Arrived<'a, F> {
    /// The residue of position i.
    pub(crate) fn residue(&self, i: usize) -> Option<&'a [u16]>
        ensures { option_copied result ≡ account_of self.now.residues.now i }
    {
        self.residues.get(i).copied().flatten()
    }

    pub(crate) fn tally(&self) -> Tally<'_, F, Self>
        ensures plan { result.plan.now ≡ self.now.plan.now }
        ensures source { result.source.now ≡ self.now }
    {
        Tally {
            plan: self.plan,
            source: self,
        }
    }

    /// R, the degrees of the missing positions.
    pub fn missing_degrees(&self) -> usize
        ensures { result ≡ missing (scheme self.now.plan.now) (account_of self.now.residues.now) }
    {
        self.tally().missing_degrees()
    }

    /// e, the degrees of the present positions whose residue differs from the message's.
    pub fn wrong_degrees(&self, message: &[u16]) -> usize
        ensures { result ≡ wrong (scheme self.now.plan.now) (account_of self.now.residues.now) message.now }
    {
        self.tally().wrong_degrees(message)
    }

    /// The margin N − K − R − 2e of the message; below 0 where the message lies outside the allowance.
    pub fn measure(&self, message: &[u16]) -> i32
        ensures { result ≡ margin (scheme self.now.plan.now) (account_of self.now.residues.now) message.now }
    {
        self.tally().measure(message)
    }

    /// N − K, the codes of a word past those of a message.
    pub(crate) fn redundancy(&self) -> usize
        ensures { result + message_length (scheme self.now.plan.now) ≡ word_length (scheme self.now.plan.now) }
    {
        self.tally().redundancy()
    }
}

impl<F: Field> Residues for Arrived<'_, F> {
    ghost account = { λ arrived. account_of arrived.residues.now };

    fn at(&self, i: usize) -> Option<&[u16]> {
        self.residue(i)
    }
}

// What the word holds for position i.
fn part_of<'a, F: Field>(plan: &Plan<F>, word: &'a [u16], i: usize) -> &'a [u16]
    ensures { result.now ≡ part (scheme plan.now) word.now i }
{
    let rest = &word[plan.start(i).min(word.len())..];
    &rest[0..plan.degree(i).min(rest.len())]
}

/// The residues of the positions that are present, `None` for the others. Flags come in, as a slot keeps
/// them, and a table goes out, for nothing is allocated. Of a word that ends early the last residues are
/// short, and so wrong for every message.
pub fn received<'a, F: Field>(
    plan: &Plan<F>,
    word: &'a [u16],
    present: &[bool; MOST_POSITIONS],
) -> [Option<&'a [u16]>; MOST_POSITIONS]
    ensures { account_of result ≡ received (scheme plan.now) word.now present.now }
{
    array::from_fn(|i| {
        if present[i] {
            Some(part_of(plan, word, i))
        } else {
            None
        }
    })
}
