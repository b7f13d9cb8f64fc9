//! The calls of a sheet as a list that can be run, and the list once it was run as calls that each have an outcome.
ghost use Rattle.std.specs.Prelude.{◌≡◌, ◌≤◌, All, map, vec_items, vec_capacity, vec_len};
ghost use Rattle.batch.specs.Lists.{requests};
ghost use Rattle.plan.specs.Limits.{most_total};
ghost use Rattle.rack.specs.Racks.{given_by};
ghost use Rattle.sheet.specs.Rooms.{HasRoom, Vacant};
ghost use Rattle.transcript.specs.Endings.{IsOver, entry_of};
ghost use Rattle.transcript.specs.Runs.{buffered};

use crate::ended::Ended;
use batch::Entry;
use rack::Call;

// A read gets a buffer of so many zeros, since a sheet writes none; another call is as it was.
fn with_buffer(call: Call, codes: usize) -> Call
    requires few { codes ≤ most_total }
    requires room { HasRoom call }
    ensures { given_by result ≡ buffered codes (given_by call) }
{
    match call {
        Call::Read {
            channel,
            slot,
            mut buffer,
        } => {
            buffer.clear();
            match buffer.resize(codes, 0) {
                Ok(()) => Call::Read {
                    channel,
                    slot,
                    buffer,
                },
                Err(_) => unreachable!(),
            }
        }
        call => call,
    }
}

/// The calls in the room, each with a place for its outcome, and reads with a buffer of so many codes.
pub(crate) fn entries_of(mut room: Vec<Entry>, calls: Vec<Call>, codes: usize) -> Vec<Entry>
    requires few { codes ≤ most_total }
    requires buffers { All HasRoom (vec_items calls) }
    requires vacant { Vacant (vec_len calls) room }
    ensures { requests (vec_items result) ≡ map (buffered codes) (map given_by (vec_items calls)) }
{
    for call in calls {
        match room.push(Entry::new(with_buffer(call, codes))) {
            Ok(()) => {}
            Err(_) => unreachable!(),
        }
    }
    room
}

/// Calls that were all run, in the room, each with its outcome.
pub(crate) fn ended_of(mut room: Vec<Ended>, entries: Vec<Entry>) -> Vec<Ended>
    requires over { All IsOver (vec_items entries) }
    requires vacant { Vacant (vec_len entries) room }
    ensures { map entry_of (vec_items result) ≡ vec_items entries }
{
    for entry in entries {
        let Entry { call, outcome } = entry;
        let Some(outcome) = outcome else {
            unreachable!();
        };
        match room.push(Ended { call, outcome }) {
            Ok(()) => {}
            Err(_) => unreachable!(),
        }
    }
    room
}
