//! What holds of every ledger, and of what a call makes of every rack. The functions do nothing: each asks for a
//! theorem.
ghost use Rattle.rack.specs.Laws.{CallsAlterTheirOwn, OneAnswer, OpenSlotsCanBeRead, OwnResidues, RacksReadTheirOwn, ReadsItsOwn};

/// A call's answer is determined: by ledger and call there is one outcome, and one content of the buffer. So two racks
/// that agree with one ledger answer a call alike, whatever their memories.
pub fn one_answer()
    ensures { OneAnswer }
{}

/// Every residue in the account of an open slot was put there by the channel that has the slot, which has had it open
/// ever since. So no channel reads what the other has put.
pub fn residues_are_the_channels_own()
    ensures put { OwnResidues }
    ensures read { ReadsItsOwn }
{}

/// No read of a rack, after any calls from its making, is accepted with a residue that another channel put: the
/// residues that the rack shows in the slot, from which the message is found, were put there by the reading channel.
pub fn racks_read_their_own()
    ensures { RacksReadTheirOwn }
{}

/// A channel can read its slots: on every rack that agrees with a ledger, the next read of a slot that is open for the
/// channel there gives the message within the allowance of the slot's account, and the cells hold that account.
pub fn open_slots_can_be_read()
    ensures { OpenSlotsCanBeRead }
{}

/// A call changes the record of its own slot and no other, and of that record only what it says: open and close the
/// owner, put and strike the mark of their position, read and measure nothing; open clears the marks as well. Cells are
/// altered by an accepted put alone, and of those only the cells of its position, which then hold the residue.
pub fn calls_alter_their_own()
    ensures { CallsAlterTheirOwn }
{}
