//! The two channels of the generator, their numbers and letters.
ghost use Rattle.std.specs.Prelude.{◌≡◌, Some, ok_or};
ghost use Rattle.rack.specs.Channels.{channel_letter, channel_number, channel_of};
ghost use Rattle.rack.specs.declared.faults.RackFault.TheVariants.{NoChannel};

use crate::faults::RackFault;
use std::fmt;

/// A channel: A is number 0, and B is number 1.
#[derive(Clone, Copy, PartialEq, Eq, Debug)]
pub enum Channel {
    A,
    B,
}

// Calls name a channel by its number.
impl From<Channel> for usize {
    ghost from_gives = { λ channel number. number ≡ channel_number channel };

    fn from(channel: Channel) -> usize {
        match channel {
            Channel::A => 0,
            Channel::B => 1,
        }
    }
}

impl TryFrom<usize> for Channel {
    type Error = RackFault;

    ghost try_from_gives = { λ number result. result ≡ ok_or (channel_of number) NoChannel };

    fn try_from(number: usize) -> Result<Channel, RackFault> {
        match number {
            0 => Ok(Channel::A),
            1 => Ok(Channel::B),
            _ => Err(RackFault::NoChannel),
        }
    }
}

impl Channel {
    /// The letter of the channel, as a line that is printed names it.
    pub fn letter(self) -> &'static str
        ensures { result.now ≡ channel_letter self }
    {
        match self {
            Channel::A => "A",
            Channel::B => "B",
        }
    }
}

impl fmt::Display for Channel {
    ghost output = { λ channel. Some (channel_letter channel) };

    fn fmt<W: fmt::Write>(&self, f: &mut fmt::Formatter<W>) -> fmt::Result {
        f.write_str(self.letter())
    }
}
