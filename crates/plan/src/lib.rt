//! Plans: a field, k and pairwise coprime moduli; and the encoding of a message as its remainder word.
#![tactic(auto)]

mod codes;
mod drafts;
mod encoding;
mod faults;
mod figures;
mod limits;
mod making;
mod plans;
mod theorems;

pub use codes::first_no_code;
pub use faults::{EncodeFault, PlanFault};
pub use limits::{MODULUS_CODES, MOST_POSITIONS, MOST_TOTAL};
pub use plans::Plan;
pub use theorems::{
    margins_apart, misfit_is_wrong, one_message_within, own_word_within, word_holds_remainders,
};
