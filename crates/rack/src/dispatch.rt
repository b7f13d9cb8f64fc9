//! A call that is written down as a value, performed on a rack.
ghost use Rattle.rack.specs.Racks.{CallOn, given_by};

use crate::call::{Answer, Call};
use crate::faults::RackFault;
use crate::table::Rack;
use field::Field;
use memory::Memory;

impl<F: Field, M: Memory> Rack<F, M> {
    /// Performs the call, whichever of the six it is. A read fills the call's own buffer; nothing else of the
    /// call changes.
    pub fn perform(&mut self, call: &mut Call) -> Result<Answer, RackFault>
        ensures { CallOn self.old (given_by call.old) result self.new (given_by call.new) }
    {
        match call {
            Call::Open { channel, slot } => self.open(*channel, *slot).map(|()| Answer::Done),
            Call::Put {
                channel,
                slot,
                position,
                residue,
            } => self
                .put(*channel, *slot, *position, residue.as_slice())
                .map(|()| Answer::Done),
            Call::Strike {
                channel,
                slot,
                position,
            } => self
                .strike(*channel, *slot, *position)
                .map(|()| Answer::Done),
            Call::Read {
                channel,
                slot,
                buffer,
            } => self
                .read(*channel, *slot, buffer.as_mut_slice())
                .map(Answer::Message),
            Call::Measure {
                channel,
                slot,
                message,
            } => self
                .measure(*channel, *slot, message.as_slice())
                .map(Answer::Margin),
            Call::Close { channel, slot } => self.close(*channel, *slot).map(|()| Answer::Done),
        }
    }
}
