//! Expressions for moduli: how they are written, what they are worth over a field, and how they are read from a sheet.
#![tactic(auto)]

mod cursors;
mod limits;
mod lines;
mod names;
mod parsed;
mod parts;
mod readers;
mod scopes;
mod signs;
mod theorems;
mod tokens;
mod values;

pub use cursors::Cursor;
pub use lines::{modulus_line, modulus_line_at};
pub use names::FieldName;
pub use parsed::{Parsed, Stop};
pub use parts::Part;
pub use signs::Sign;
pub use theorems::one_expression;
pub use tokens::{Token, digits_end, numeral_of, sign_at};
