//! The rack's parts: a plan, a memory, and the table of slot records.
ghost use Rattle.plan.specs.Held.{scheme};
ghost use Rattle.rack.specs.States.{IsRack, held_by};

use crate::records::Slots;
use field::Field;
use memory::Memory;
use plan::Plan;

/// Slots that gather the words for two channels. Slot s has the cells s × N to s × N + N − 1 of the memory, N
/// being the codes of a word. Every rack that exists is whole: its plan is lawful, its memory has room for
/// its slots, and its tables are as long as they should be. It has no model, since `into_memory` gives the
/// memory itself back, and a state has only its cells.
#[derive(Drop)]
pub struct Rack<F: Field, M: Memory> {
    pub(crate) plan: Plan<F>,
    pub(crate) memory: M,
    pub(crate) slots: Slots,
    pub ghost whole: { IsRack (held_by (scheme plan) slots (M.Memory.cells memory) (M.Memory.top memory)) },
}
