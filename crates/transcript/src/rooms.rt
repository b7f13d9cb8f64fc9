//! The room that a transcript and its text take.
ghost use Rattle.std.specs.Prelude.{◌≡◌, IfOk, vec_capacity};
ghost use Rattle.sheet.specs.Limits.{most_calls};
ghost use Rattle.sheet.specs.Rooms.{Vacant};
ghost use Rattle.transcript.specs.Limits.{longest_text};

use crate::ended::Ended;
use crate::limits::LONGEST_TEXT;
use batch::Entry;
use sheet::MOST_CALLS;
use std::alloc::{AllocError, Global};

/// Room for the transcript of any sheet, taken before a sheet is seen, so that memory is never wanting: for
/// what the sheet holds, and for each of its calls as it is run and as it ended.
#[derive(Drop)]
pub struct Room {
    pub(crate) sheet: sheet::Room,
    pub(crate) entries: Vec<Entry>,
    pub(crate) ended: Vec<Ended>,
    ghost entries_fit: { Vacant most_calls entries },
    ghost ended_fit: { Vacant most_calls ended },
}

impl Room {
    /// Takes the room. The one fault is that there is no memory for it.
    pub fn new(heap: Global) -> Result<Room, AllocError>
        ensures entries { IfOk result (λ room. vec_capacity room.entries ≡ most_calls) }
        ensures ended { IfOk result (λ room. vec_capacity room.ended ≡ most_calls) }
    {
        Ok(Room {
            sheet: sheet::Room::new(heap)?,
            entries: Vec::with_capacity(heap, MOST_CALLS)?,
            ended: Vec::with_capacity(heap, MOST_CALLS)?,
        })
    }
}

/// Room for the text of any transcript.
#[derive(Drop)]
pub struct TextRoom {
    pub(crate) text: Vec<u8>,
    ghost text_fits: { Vacant longest_text text },
}

impl TextRoom {
    /// Takes the room. The one fault is that there is no memory for it.
    pub fn new(heap: Global) -> Result<TextRoom, AllocError>
        ensures { IfOk result (λ room. vec_capacity room.text ≡ longest_text) }
    {
        Ok(TextRoom {
            text: Vec::with_capacity(heap, LONGEST_TEXT)?,
        })
    }
}
