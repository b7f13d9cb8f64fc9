//! What holds of every sheet and of every answer to one. The functions do nothing: each asks for a theorem.
ghost use Rattle.std.specs.Prelude.{◌↔◌, ℕ, List};
ghost use Rattle.sheet.specs.Grammar.{Content, OneContent};
ghost use Rattle.sheet.specs.Laws.{HasCodes, LawfulOrGround, OneAnswer};
ghost use Rattle.sheet.specs.Refusals.{AllValued};

/// A sheet has one content.
pub fn one_content()
    ensures { OneContent }
{}

/// A lawful sheet meets none of the grounds 1 to 3, and it cannot be that bytes meet none of them and are not lawful.
pub fn lawful_or_ground()
    ensures { (bytes : List ℕ) → LawfulOrGround bytes }
{}

/// Every modulus has a value exactly when there are codes of all.
pub fn valued_by_codes()
    ensures { (content : Content) → AllValued content ↔ HasCodes content }
{}

/// To the same bytes there is one answer: a lawful sheet is not refused, and of two grounds or places one
/// alone is told.
pub fn one_answer()
    ensures { OneAnswer }
{}
