//! The rack: slots that gather words for two channels over any memory, and the six calls on them.
#![tactic(auto)]

mod call;
mod calls;
mod cells;
mod channel;
mod checks;
mod dispatch;
mod faults;
mod limits;
mod making;
mod records;
mod table;
mod theorems;

pub use call::{Answer, Call, Found};
pub use channel::Channel;
pub use faults::{FitFault, RackFault, SlotFault};
pub use limits::MOST_SLOTS;
pub use table::Rack;
pub use theorems::{
    calls_alter_their_own, one_answer, open_slots_can_be_read, racks_read_their_own,
    residues_are_the_channels_own,
};
