//! What holds of every account under every lawful scheme. The functions do nothing: each asks for a theorem.
ghost use Rattle.plan.specs.Accounts.{MarginsApart, MisfitIsWrong, OneWithin, OwnWordWithin};
ghost use Rattle.plan.specs.Words.{WordHoldsRemainders};

/// Position by position, a word holds the one remainder of its message by the modulus: message = quotient ·
/// modulus + remainder.
pub fn word_holds_remainders()
    ensures { WordHoldsRemainders }
{}

/// Every message lies within the allowance of its own word.
pub fn own_word_within()
    ensures { OwnWordWithin }
{}

/// A residue that holds a number of q or more, or is of another length than its position, is wrong for every message.
pub fn misfit_is_wrong()
    ensures { MisfitIsWrong }
{}

/// At most one message lies within the allowance of an account.
pub fn one_message_within()
    ensures { OneWithin }
{}

/// The margins of two different messages sum to -2 or less, whatever the account.
pub fn margins_apart()
    ensures { MarginsApart }
{}
