//! What holds of every line. The function does nothing: it asks for a theorem.
ghost use Rattle.expression.specs.Grammar.{OneExpression};

/// A line has one expression, so what it is worth is a matter of the line alone.
pub fn one_expression()
    ensures { OneExpression }
{}
