//! Lists of calls, run on racks straight from their making: here stands the promise about every arrangement of calls.
#![tactic(auto)]

mod entry;
mod faults;
mod loading;
mod running;
mod theorems;

pub use entry::Entry;
pub use faults::{LoadFault, PairFault};
pub use loading::{Loading, NotPaired, load, load_pair, load_under};
pub use running::run;
pub use theorems::{one_end, what_kept_says};
