//! What the rack notes of each slot: whose it is, and which positions are present.
ghost use Rattle.std.specs.Prelude.{◌≡◌, ◌<◌, replicate, false, Some, None};
ghost use Rattle.plan.specs.Limits.{most_positions};
ghost use Rattle.rack.specs.States.{closed_record, marked};

use crate::channel::Channel;
use crate::limits::MOST_SLOTS;
use plan::MOST_POSITIONS;

/// The record of one slot: the channel that has it open, if any, and whether each position is present.
#[derive(Clone, Copy)]
pub struct SlotRecord {
    pub(crate) owner: Option<Channel>,
    pub(crate) present: [bool; MOST_POSITIONS],
}

/// The table of slot records, of which the first `count` are in use. A table of fixed size, for nothing is
/// allocated; a call is lent one record of it.
#[derive(Clone, Copy)]
pub struct Slots {
    pub(crate) count: usize,
    pub(crate) records: [SlotRecord; MOST_SLOTS],
}

impl SlotRecord {
    /// A closed slot.
    pub(crate) fn closed() -> SlotRecord
        ensures { result ≡ closed_record }
    {
        SlotRecord {
            owner: None,
            present: [false; MOST_POSITIONS],
        }
    }

    /// The slot becomes the channel's, every position missing.
    pub(crate) fn open(&mut self, channel: Channel)
        ensures { self.new ≡ record { owner = Some channel; present = replicate most_positions false } }
    {
        self.owner = Some(channel);
        self.present = [false; MOST_POSITIONS];
    }

    /// The position is present, or it is missing.
    pub(crate) fn mark(&mut self, position: usize, present: bool)
        requires { position < most_positions }
        ensures { self.new ≡ marked self.old position present }
    {
        self.present[position] = present;
    }

    /// The slot is closed.
    pub(crate) fn close(&mut self)
        ensures { self.new ≡ record { owner = None; present = self.old.present } }
    {
        self.owner = None;
    }
}
