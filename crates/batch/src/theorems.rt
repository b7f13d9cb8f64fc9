//! What follows from the promise about arrangements. The functions do nothing: each asks for a theorem.
ghost use Rattle.batch.specs.Laws.{KeptSays, OneEnd};

/// What a list that kept the promise says of the rack at every moment, and of each of its readings: the cells hold the
/// account of every slot that is open; a read gives the message within the allowance where there is one, and is refused
/// where there is none; and so it is of the next read on the rack that is given back.
pub fn what_kept_says()
    ensures { KeptSays }
{}

/// A list of calls has one end: on racks that agree with one ledger, whatever their memories, its calls end alike, and
/// its buffers then hold the same.
pub fn one_end()
    ensures { OneEnd }
{}
