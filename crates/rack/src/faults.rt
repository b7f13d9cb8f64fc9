//! Why a rack is not made, and why a call on a rack is refused.
ghost use Rattle.std.specs.Prelude.{◌≡◌, ◌≤◌, length, Some};
ghost use Rattle.fault.specs.Texts.{written};
ghost use Rattle.rack.specs.Grounds.{fit_ground, rack_ground};
ghost use Rattle.rack.specs.Sentences.{fit_sentence, longest_at_slot, rack_sentence};
ghost use Rattle.rack.specs.declared.faults.SlotFault.TheVariants.{Unread};

use fault::{Fault, Ground, Layer, ShortText};
use reader::ReaderFault;
use std::error::Error;
use std::fmt;

/// The number of slots is out of its range, the memory has too few cells for them, or its cells cannot hold every code.
#[derive(Clone, Copy, PartialEq, Eq, Debug)]
pub struct FitFault;

impl Fault for FitFault {
    ghost meaning = { λ _. fit_ground };

    ghost saying = { λ _. fit_sentence };

    fn ground(&self) -> Ground {
        Ground {
            number: 9,
            layer: Layer::Memory,
            first: 0,
            second: 0,
        }
    }

    fn sentence(&self) -> ShortText {
        ShortText::new(
            "the number of slots is out of its range, the memory has too few cells, or its top is too low",
        )
    }
}

impl fmt::Display for FitFault {
    ghost output = { λ _. Some fit_sentence };

    fn fmt<W: fmt::Write>(&self, f: &mut fmt::Formatter<W>) -> fmt::Result {
        f.write_str(self.sentence().as_str())
    }
}

impl Error for FitFault {}

/// What is wrong with a call at the slot that it names.
#[derive(Clone, Copy, PartialEq, Eq, Debug)]
pub enum SlotFault {
    /// The rack has no such slot.
    NoSlot,
    /// The slot is closed.
    Closed,
    /// The slot is open already.
    OpenAlready,
    /// The slot belongs to the other channel.
    OtherChannel,
    /// The plan has no such position.
    NoPosition(usize),
    /// A residue, a message or a buffer has not this length.
    WrongLength(usize),
    /// The index of the first number of a residue or a message that is no code.
    NoCode(usize),
    /// The reader gives no message.
    Unread(ReaderFault),
}

impl From<ReaderFault> for SlotFault {
    ghost from_gives = { λ cause fault. fault ≡ Unread cause };

    fn from(cause: ReaderFault) -> SlotFault {
        SlotFault::Unread(cause)
    }
}

/// Why a call is refused.
#[derive(Clone, Copy, PartialEq, Eq, Debug)]
pub enum RackFault {
    /// There is no such channel.
    NoChannel,
    /// The slot that the call named, and what is wrong there.
    Slot(usize, SlotFault),
}

impl Fault for RackFault {
    ghost meaning = { rack_ground };

    ghost saying = { rack_sentence };

    fn ground(&self) -> Ground {
        match self {
            RackFault::NoChannel => Ground {
                number: 10,
                layer: Layer::Rack,
                first: 0,
                second: 0,
            },
            RackFault::Slot(slot, fault) => slot_ground(*slot, *fault),
        }
    }

    fn sentence(&self) -> ShortText {
        match self {
            RackFault::NoChannel => ShortText::new("there is no such channel"),
            RackFault::Slot(slot, fault) => ShortText::new("slot ")
                .number(*slot)
                .text(": ")
                .text(slot_sentence(*fault).as_str()),
        }
    }
}

impl fmt::Display for RackFault {
    ghost output = { λ fault. Some (rack_sentence fault) };

    fn fmt<W: fmt::Write>(&self, f: &mut fmt::Formatter<W>) -> fmt::Result {
        f.write_str(self.sentence().as_str())
    }
}

impl Error for RackFault {}

// The ground of a fault at a slot: the slot is its first place.
fn slot_ground(slot: usize, fault: SlotFault) -> Ground
    ensures { result ≡ Rattle.rack.specs.Grounds.slot_ground slot fault }
{
    let (number, second) = match fault {
        SlotFault::NoSlot => (11, 0),
        SlotFault::Closed => (12, 0),
        SlotFault::OpenAlready => (13, 0),
        SlotFault::OtherChannel => (14, 0),
        SlotFault::NoPosition(position) => (15, position),
        SlotFault::WrongLength(right) => (16, right),
        SlotFault::NoCode(index) => (17, index),
        SlotFault::Unread(cause) => {
            return Ground {
                first: slot,
                ..cause.ground()
            };
        }
    };
    Ground {
        number,
        layer: Layer::Rack,
        first: slot,
        second,
    }
}

// What is wrong at a slot, in words.
fn slot_sentence(fault: SlotFault) -> ShortText
    ensures told { written result ≡ Rattle.rack.specs.Sentences.slot_sentence fault }
    ensures short { length (written result) ≤ longest_at_slot }
{
    match fault {
        SlotFault::NoSlot => ShortText::new("the rack has no such slot"),
        SlotFault::Closed => ShortText::new("it is closed"),
        SlotFault::OpenAlready => ShortText::new("it is open already"),
        SlotFault::OtherChannel => ShortText::new("it belongs to the other channel"),
        SlotFault::NoPosition(position) => {
            ShortText::new("the plan has no position ").number(position)
        }
        SlotFault::WrongLength(right) => {
            ShortText::new("the codes that it is given should be ").number(right)
        }
        SlotFault::NoCode(index) => ShortText::new("number ")
            .number(index)
            .text(" of those that it is given is no code of the field"),
        SlotFault::Unread(cause) => cause.sentence(),
    }
}
