//! Nothing but tests, of the rack and of lists of calls. They need crates above the rack, and stand apart
//! from these since a crate with tests is proved twice.
#![tactic(auto)]

#[cfg(test)]
mod call_tests;
#[cfg(test)]
mod list_tests;
