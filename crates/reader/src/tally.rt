//! What has arrived for and against a message: the degrees of the missing positions, the degrees of those
//! that the message does not explain, and the margin.
ghost use Rattle.std.specs.Prelude.{◌≡◌, ℕ, ◌+◌, ◌*◌, ◌≤◌, pos, ◌-ℤ◌};
ghost use Rattle.std.specs.Option.{option_copied};
ghost use Rattle.plan.specs.Accounts.{Account, charge, lost, margin, missing, same, wrong};
ghost use Rattle.plan.specs.Held.{scheme};
ghost use Rattle.plan.specs.Limits.{most_total};
ghost use Rattle.plan.specs.Schemes.{message_length, residue, word_length};

use field::Field;
use plan::Plan;

/// Where the residues of the positions are found.
pub(crate) trait Residues {
    // The account that they give.
    ghost account: { Self → Account };

    /// The residue of position i, or `None` where it is missing.
    fn at(&self, i: usize) -> Option<&[u16]>
        ensures { option_copied result ≡ account self.now i };
}

/// A plan, and where the residues are found.
#[derive(Drop)]
pub(crate) struct Tally<'a, F: Field, R: Residues> {
    pub(crate) plan: &'a Plan<F>,
    pub(crate) source: &'a R,
}

impl<F: Field, R: Residues> Tally<'_, F, R> {
    // What position i loses by being missing: its degree.
    fn lost_at(&self, i: usize) -> usize
        ensures { result ≡ lost (scheme self.now.plan.now) i (R.Residues.account self.now.source.now i) }
    {
        if self.source.at(i).is_none() {
            self.plan.degree(i)
        } else {
            0
        }
    }

    /// R, the degrees of the missing positions.
    pub(crate) fn missing_degrees(&self) -> usize
        ensures { result ≡ missing (scheme self.now.plan.now) (R.Residues.account self.now.source.now) }
    {
        (0..self.plan.positions()).map(|i| self.lost_at(i)).sum()
    }

    // Whether the part is what position i of the message's word holds.
    fn is_residue(&self, i: usize, message: &[u16], part: &[u16]) -> bool
        ensures { result ≡ same part.now (residue (scheme self.now.plan.now) message.now i) }
    {
        let right = self.plan.residue(i, message);
        part == &right[0..self.plan.degree(i)]
    }

    // What position i costs the message: its degree where the residue is present and differs from the
    // message's, else nothing.
    fn charge_at(&self, i: usize, message: &[u16]) -> usize
        ensures { result ≡ charge (scheme self.now.plan.now) message.now i (R.Residues.account self.now.source.now i) }
    {
        match self.source.at(i) {
            Some(part) if !self.is_residue(i, message, part) => self.plan.degree(i),
            _ => 0,
        }
    }

    /// e, the degrees of the present positions whose residue differs from the message's.
    pub(crate) fn wrong_degrees(&self, message: &[u16]) -> usize
        ensures { result ≡ wrong (scheme self.now.plan.now) (R.Residues.account self.now.source.now) message.now }
    {
        (0..self.plan.positions())
            .map(|i| self.charge_at(i, message))
            .sum()
    }

    /// The margin N − K − R − 2e of the message; below 0 where the message lies outside the allowance.
    pub(crate) fn measure(&self, message: &[u16]) -> i32
        ensures { result ≡ margin (scheme self.now.plan.now) (R.Residues.account self.now.source.now) message.now }
    {
        margin_of(
            self.redundancy(),
            self.missing_degrees(),
            self.wrong_degrees(message),
        )
    }

    /// N − K, the codes of a word past those of a message.
    pub(crate) fn redundancy(&self) -> usize
        ensures { result + message_length (scheme self.now.plan.now) ≡ word_length (scheme self.now.plan.now) }
    {
        self.plan.word_length() - self.plan.message_length()
    }
}

/// The margin of figures as small as a plan's: the redundancy N − K less R and 2e.
pub(crate) fn margin_of(redundancy: usize, erasures: usize, errors: usize) -> i32
    requires redundancy { redundancy ≤ most_total }
    requires erasures { erasures ≤ most_total }
    requires errors { errors ≤ most_total }
    ensures { result ≡ pos redundancy -ℤ pos erasures -ℤ pos (2 * errors) }
{
    let spent = erasures + 2 * errors;
    redundancy as i32 - spent as i32
}
