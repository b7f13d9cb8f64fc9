//! A field of few elements is shown by one test, which the checker computes: its laws at all codes, pairs and
//! triples of codes. The test is in specs/. What fails it is told by `Tables::broken_law`: which law, and at
//! which codes.
#![tactic(auto)]

ghost use Rattle.small_field.specs.Tested.{ExactlyFieldsPass};

mod broken;
mod searching;
mod tables;

pub use broken::Broken;
pub use tables::Tables;

/// A sum, a negative and a product pass the test exactly where they are those of a field. The function does
/// nothing: it asks for the theorem.
pub fn exactly_fields_pass()
    ensures { ExactlyFieldsPass }
{}
