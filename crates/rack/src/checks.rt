//! Whether a channel may open or use a slot, and whether what a call is given fits the plan. A check takes
//! the slot to name it in its fault, which each call would else have to add behind each check.
ghost use Rattle.std.specs.Prelude.{◌≡◌, ◌≤◌};
ghost use Rattle.plan.specs.Held.{scheme};
ghost use Rattle.rack.specs.Channels.{channel_numbered};
ghost use Rattle.rack.specs.Checks.{checked, granted, message_ground, named_ground, open_ground, owners, residue_ground, settled, use_ground};
ghost use Rattle.rack.specs.Ledger.{code_fault, first_beyond, no_position, wrong_length};
ghost use Rattle.rack.specs.Limits.{most_slots};

use crate::channel::Channel;
use crate::faults::{RackFault, SlotFault};
use crate::records::Slots;
use field::Field;
use plan::{Plan, first_no_code};

impl Slots {
    // The channel of the number, and who holds the slot, if there are both.
    fn named(&self, channel: usize, slot: usize) -> Result<(Channel, Option<Channel>), RackFault>
        requires { self.now.count ≤ most_slots }
        ensures { result ≡ checked (channel_numbered channel, owners self.now.records slot) (named_ground self.now.count channel slot) }
    {
        let channel = Channel::try_from(channel)?;
        if slot >= self.count {
            return Err(RackFault::Slot(slot, SlotFault::NoSlot));
        }
        Ok((channel, self.records[slot].owner))
    }

    /// The channel of the number, if it may open the slot.
    pub(crate) fn may_open(&self, channel: usize, slot: usize) -> Result<Channel, RackFault>
        requires { self.now.count ≤ most_slots }
        ensures { result ≡ granted channel (open_ground self.now.count (owners self.now.records) channel slot) }
    {
        match self.named(channel, slot)? {
            (opener, None) => Ok(opener),
            (_, Some(_)) => Err(RackFault::Slot(slot, SlotFault::OpenAlready)),
        }
    }

    /// Whether the channel may use the slot: it is open, and the channel's.
    pub(crate) fn may_use(&self, channel: usize, slot: usize) -> Result<(), RackFault>
        requires { self.now.count ≤ most_slots }
        ensures { result ≡ settled (use_ground self.now.count (owners self.now.records) channel slot) }
    {
        match self.named(channel, slot)? {
            (_, None) => Err(RackFault::Slot(slot, SlotFault::Closed)),
            (user, Some(owner)) if owner == user => Ok(()),
            (_, Some(_)) => Err(RackFault::Slot(slot, SlotFault::OtherChannel)),
        }
    }
}

/// Whether the plan has the position.
pub(crate) fn check_position<F: Field>(
    plan: &Plan<F>,
    slot: usize,
    position: usize,
) -> Result<(), RackFault>
    ensures { result ≡ settled (no_position (scheme plan.now) slot position) }
{
    if position >= plan.positions() {
        return Err(RackFault::Slot(slot, SlotFault::NoPosition(position)));
    }
    Ok(())
}

/// Whether codes have the right length.
pub(crate) fn check_length(slot: usize, right: usize, codes: &[u16]) -> Result<(), RackFault>
    ensures { result ≡ settled (wrong_length slot right codes.now) }
{
    if codes.len() != right {
        return Err(RackFault::Slot(slot, SlotFault::WrongLength(right)));
    }
    Ok(())
}

/// Whether all numbers are codes of the field.
fn check_codes<F: Field>(slot: usize, codes: &[u16]) -> Result<(), RackFault>
    ensures { result ≡ settled (code_fault slot (first_beyond F.Field.arithmetic.order codes.now)) }
{
    match first_no_code::<F>(codes) {
        Some(index) => Err(RackFault::Slot(slot, SlotFault::NoCode(index))),
        None => Ok(()),
    }
}

/// Whether the plan has the position, and the residue fits it.
pub(crate) fn check_residue<F: Field>(
    plan: &Plan<F>,
    slot: usize,
    position: usize,
    residue: &[u16],
) -> Result<(), RackFault>
    ensures { result ≡ settled (residue_ground (scheme plan.now) slot position residue.now) }
{
    check_position(plan, slot, position)?;
    check_length(slot, plan.degree(position), residue)?;
    check_codes::<F>(slot, residue)
}

/// Whether the message is one of the plan's.
pub(crate) fn check_message<F: Field>(
    plan: &Plan<F>,
    slot: usize,
    message: &[u16],
) -> Result<(), RackFault>
    ensures { result ≡ settled (message_ground (scheme plan.now) slot message.now) }
{
    check_length(slot, plan.message_length(), message)?;
    check_codes::<F>(slot, message)
}
