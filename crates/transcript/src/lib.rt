//! What came of a sheet: the sheet is read, its calls are run on a rack, and each call has a line that says
//! how it ended.
#![tactic(auto)]

mod ended;
mod ends;
mod entries;
mod limits;
mod lines;
mod rooms;
mod running;
mod sheets;
mod streams;
mod texts;
mod theorems;
mod transcripts;

pub use ended::Ended;
pub use ends::{Sink, Source};
pub use limits::LONGEST_TEXT;
pub use rooms::{Room, TextRoom};
pub use running::SLOTS;
pub use sheets::transcript_of;
pub use streams::{MOST_READ, RunError, run};
pub use theorems::one_text;
pub use transcripts::{Calls, Transcript};
