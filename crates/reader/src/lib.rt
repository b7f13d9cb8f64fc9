//! The reader: the one message within the allowance of what has arrived, past wrong and missing positions.
#![tactic(auto)]

mod answers;
mod arrived;
mod arrived_word;
mod congruence;
mod finding;
mod gathering;
mod joining;
mod reading;
mod tally;

pub use answers::{MESSAGE_TABLE, ReaderFault, Reading};
pub use arrived::{Arrived, received};
pub use arrived_word::ArrivedWord;
