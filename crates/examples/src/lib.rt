//! The worked examples of all layers, as one theorem about the definitions, and tests of fields, plans, the
//! reader and memories.
#![tactic(auto)]

ghost use Rattle.examples.specs.Worked.{WorkedExamples};

#[cfg(test)]
mod field_tests;
#[cfg(test)]
mod memory_tests;
mod moduli;
#[cfg(test)]
mod plan_tests;
#[cfg(test)]
mod reader_tests;

pub use moduli::FOUR_OVER_BITS;

/// Its contract is the list of worked examples, each a statement about the definitions that the contracts cite.
pub fn worked_examples_hold()
    ensures { WorkedExamples }
{}
