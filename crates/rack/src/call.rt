//! A call as a value, so that lists of calls can be written down, and what a call is answered.

/// One of the six calls, with what it is given. Residues, messages and buffers may have any length; a buffer
/// is the call's own. Each case names its channel and its slot, as a call is written down.
#[derive(Drop)]
pub enum Call {
    /// The slot becomes the channel's.
    Open {
        channel: usize,
        slot: usize,
    },
    /// The position holds the residue.
    Put {
        channel: usize,
        slot: usize,
        position: usize,
        residue: Vec<u16>,
    },
    /// The position is missing.
    Strike {
        channel: usize,
        slot: usize,
        position: usize,
    },
    /// The message within the allowance goes into the buffer.
    Read {
        channel: usize,
        slot: usize,
        buffer: Vec<u16>,
    },
    /// The margin of the message.
    Measure {
        channel: usize,
        slot: usize,
        message: Vec<u16>,
    },
    /// The slot is closed.
    Close {
        channel: usize,
        slot: usize,
    },
}

/// What an accepted read says of the message that it gives: its margin, and e, the degrees of the present
/// positions whose residue differs from the message's.
#[derive(Clone, Copy, PartialEq, Eq, Debug)]
pub struct Found {
    pub margin: i32,
    pub wrong: usize,
}

/// The answer to an accepted call.
#[derive(Clone, Copy, PartialEq, Eq, Debug)]
pub enum Answer {
    /// Of open, put, strike and close.
    Done,
    /// Of read; the message is in the buffer.
    Message(Found),
    /// Of measure.
    Margin(i32),
}
