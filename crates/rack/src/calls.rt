//! The six calls. Each checks what it is given first, and changes one record at most.
//!
//! A call is named with its channel and its slot as plain numbers. Any two may come, and each has a check of
//! its own, so a struct of them would be taken apart at once.
ghost use Rattle.std.specs.Prelude.{◌≡◌, ◌<◌};
ghost use Rattle.memory.specs.Meaning.{Sets};
ghost use Rattle.plan.specs.Held.{scheme};
ghost use Rattle.rack.specs.Ledger.{closes, measures, opens, puts, reads, strikes};
ghost use Rattle.rack.specs.Racks.{CallOn, done, found, margin_told, state};
ghost use Rattle.rack.specs.Reads.{SlotRead, WordOf};
ghost use Rattle.rack.specs.States.{account_of};

use crate::call::Found;
use crate::cells::{load, store};
use crate::checks::{check_length, check_message, check_position, check_residue};
use crate::faults::{RackFault, SlotFault};
use crate::table::Rack;
use field::Field;
use memory::Memory;
use plan::MOST_TOTAL;
use reader::{Arrived, ArrivedWord, Reading, received};

impl<F: Field, M: Memory> Rack<F, M> {
    /// The slot becomes the channel's, every position missing.
    pub fn open(&mut self, channel: usize, slot: usize) -> Result<(), RackFault>
        ensures { CallOn self.old (opens channel slot) (done result) self.new (opens channel slot) }
    {
        let opener = self.slots.may_open(channel, slot)?;
        self.slots.records[slot].open(opener);
        Ok(())
    }

    /// The position's cells hold the residue, every other cell is as before, and the position is present.
    pub fn put(
        &mut self,
        channel: usize,
        slot: usize,
        position: usize,
        residue: &[u16],
    ) -> Result<(), RackFault>
        ensures { CallOn self.old (puts channel slot position residue.now) (done result) self.new (puts channel slot position residue.now) }
    {
        self.slots.may_use(channel, slot)?;
        check_residue(&self.plan, slot, position, residue)?;
        let at = slot * self.plan.word_length() + self.plan.start(position);
        store(&mut self.memory, at, residue);
        self.slots.records[slot].mark(position, true);
        Ok(())
    }

    /// The position is missing, also when it was so already.
    pub fn strike(&mut self, channel: usize, slot: usize, position: usize) -> Result<(), RackFault>
        ensures { CallOn self.old (strikes channel slot position) (done result) self.new (strikes channel slot position) }
    {
        self.slots.may_use(channel, slot)?;
        check_position(&self.plan, slot, position)?;
        self.slots.records[slot].mark(position, false);
        Ok(())
    }

    /// Fills the buffer with the message within the allowance of what the slot's record and cells say, and
    /// answers its margin and e.
    pub fn read(&self, channel: usize, slot: usize, buffer: &mut [u16]) -> Result<Found, RackFault>
        ensures { CallOn self.now (reads channel slot buffer.old) (found result) self.now (reads channel slot buffer.new) }
    {
        self.slots.may_use(channel, slot)?;
        check_length(slot, self.plan.message_length(), buffer)?;
        let reading = self
            .read_slot(slot)
            .map_err(|cause| RackFault::Slot(slot, cause))?;
        buffer.copy_from_slice(reading.codes());
        Ok(Found {
            margin: reading.margin,
            wrong: reading.wrong,
        })
    }

    /// The margin of the message under what the slot's record and cells say, negative ones too.
    pub fn measure(&self, channel: usize, slot: usize, message: &[u16]) -> Result<i32, RackFault>
        ensures { CallOn self.now (measures channel slot message.now) (margin_told result) self.now (measures channel slot message.now) }
    {
        self.slots.may_use(channel, slot)?;
        check_message(&self.plan, slot, message)?;
        let word = self.word(slot);
        let arrived = ArrivedWord {
            plan: &self.plan,
            word: &word,
            present: &self.slots.records[slot].present,
        };
        Ok(arrived.measure(message))
    }

    /// The slot is closed.
    pub fn close(&mut self, channel: usize, slot: usize) -> Result<(), RackFault>
        ensures { CallOn self.old (closes channel slot) (done result) self.new (closes channel slot) }
    {
        self.slots.may_use(channel, slot)?;
        self.slots.records[slot].close();
        Ok(())
    }

    /// Overwrites a cell as a fault in the memory would, for damage in tests and demonstrations: no call, and
    /// no record learns of it. Refused exactly when the memory refuses.
    pub fn overwrite_cell(&mut self, cell: usize, value: u16) -> bool
        ensures sets { Sets (M.Memory.cells self.old.memory) (M.Memory.top self.old.memory) cell value result (M.Memory.cells self.new.memory) (M.Memory.top self.new.memory) }
        ensures slots { self.new.slots ≡ self.old.slots }
        ensures plan { self.new.plan ≡ self.old.plan }
    {
        self.memory.set(cell, value)
    }

    // The slot's cells, zeros after them.
    fn word(&self, slot: usize) -> [u16; MOST_TOTAL]
        requires { slot < self.now.slots.count }
        ensures { WordOf (state self.now) slot result }
    {
        let count = self.plan.word_length();
        load(&self.memory, slot * count, count)
    }

    // What the reader makes of the slot. What has arrived is put together here: it lends the slot's word,
    // which lives no longer.
    fn read_slot(&self, slot: usize) -> Result<Reading, SlotFault>
        requires { slot < self.now.slots.count }
        ensures { SlotRead (scheme self.now.plan) (account_of (state self.now) slot) result }
    {
        let word = self.word(slot);
        let residues = received(&self.plan, &word, &self.slots.records[slot].present);
        let arrived = Arrived {
            plan: &self.plan,
            residues: &residues,
        };
        Ok(arrived.read()?)
    }
}
