//! The sheet, on which a laboratory writes its plan and its calls: exactly the lawful ones are read.
#![tactic(auto)]

mod call_lines;
mod call_names;
mod counts;
mod faults;
mod field_lines;
mod limits;
mod moduli;
mod numbers;
mod reading;
mod rooms;
mod sections;
mod sheets;
mod signs;
mod theorems;
mod words;

pub use faults::SheetFault;
pub use limits::{LONGEST_SHEET, MOST_CALLS};
pub use reading::read_sheet;
pub use rooms::Room;
pub use sheets::Sheet;
pub use theorems::{lawful_or_ground, one_answer, one_content, valued_by_codes};
