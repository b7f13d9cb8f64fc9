//! Making a rack, and taking it apart again.
ghost use Rattle.std.specs.Prelude.{◌≡◌, Decides, MatchResult};
ghost use Rattle.plan.specs.Held.{scheme};
ghost use Rattle.rack.specs.Making.{Made};
ghost use Rattle.rack.specs.Racks.{state};
ghost use Rattle.rack.specs.States.{Fits};

use crate::faults::FitFault;
use crate::limits::MOST_SLOTS;
use crate::records::{SlotRecord, Slots};
use crate::table::Rack;
use field::Field;
use memory::{Memory, Returned};
use plan::Plan;

// Whether the number of slots is in its range, and the memory has room for them in cells that hold every code.
fn fits<F: Field, M: Memory>(plan: &Plan<F>, memory: &M, slots: usize) -> bool
    ensures { Decides result (Fits (scheme plan.now) slots (M.Memory.cells memory.now) (M.Memory.top memory.now)) }
{
    (1..=MOST_SLOTS).contains(&slots)
        && memory.len() >= slots * plan.word_length()
        && usize::from(F::ORDER) <= usize::from(memory.top_value()) + 1
}

impl<F: Field, M: Memory> Rack<F, M> {
    /// A rack of so many slots, all closed. The memory must have a cell for each code of each slot, wide
    /// enough for every code.
    pub fn new(plan: Plan<F>, memory: M, slots: usize) -> Result<Rack<F, M>, Returned<M, FitFault>>
        ensures { MatchResult result (λ rack. Made (scheme plan) slots (M.Memory.cells memory) (M.Memory.top memory) (state rack) × (rack.memory ≡ memory) × (rack.plan ≡ plan)) (λ no. (Fits (scheme plan) slots (M.Memory.cells memory) (M.Memory.top memory) → ⊥) × (no.memory ≡ memory)) }
    {
        if !fits(&plan, &memory, slots) {
            return Err(Returned {
                memory,
                fault: FitFault,
            });
        }
        let slots = Slots {
            count: slots,
            records: [SlotRecord::closed(); MOST_SLOTS],
        };
        Ok(Rack {
            plan,
            memory,
            slots,
        })
    }

    /// Takes the rack apart, and gives its memory back.
    pub fn into_memory(self) -> M
        ensures { result ≡ self.memory }
    {
        let Rack { memory, .. } = self;
        memory
    }
}
