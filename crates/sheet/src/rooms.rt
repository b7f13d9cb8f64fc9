//! The room that reading a sheet takes.
ghost use Rattle.std.specs.Prelude.{◌≡◌, ◌≤◌, IfOk, vec_capacity, vec_len};
ghost use Rattle.sheet.specs.Limits.{most_calls};
ghost use Rattle.sheet.specs.Rooms.{Vacant, most_call_codes, most_moduli_codes};

use crate::limits::{MOST_CALL_CODES, MOST_CALLS, MOST_MODULI_CODES};
use rack::Call;
use std::alloc::{AllocError, Global};

/// Room for the codes of a call, whichever it is.
#[derive(Drop)]
pub(crate) struct Row {
    pub(crate) codes: Vec<u16>,
    ghost vacant: { Vacant most_call_codes codes },
}

impl Row {
    fn new(heap: Global) -> Result<Row, AllocError> {
        Ok(Row {
            codes: Vec::with_capacity(heap, MOST_CALL_CODES)?,
        })
    }
}

/// Room for the most that a sheet holds, taken before any sheet is seen, so that reading one never wants
/// memory: for the codes of all moduli, for the calls, and for the codes of each call.
#[derive(Drop)]
pub struct Room {
    pub(crate) moduli: Vec<u16>,
    pub(crate) calls: Vec<Call>,
    pub(crate) rows: Vec<Row>,
    ghost moduli_fit: { Vacant most_moduli_codes moduli },
    ghost calls_fit: { Vacant most_calls calls },
    ghost rows_suffice: { most_calls ≤ vec_len rows },
}

impl Room {
    /// Takes just that room. The one fault is that there is no memory for it.
    pub fn new(heap: Global) -> Result<Room, AllocError>
        ensures moduli { IfOk result (λ room. vec_capacity room.moduli ≡ most_moduli_codes) }
        ensures calls { IfOk result (λ room. vec_capacity room.calls ≡ most_calls) }
        ensures rows { IfOk result (λ room. vec_len room.rows ≡ most_calls) }
    {
        let mut rows = Vec::with_capacity(heap, MOST_CALLS)?;
        for _ in 0..MOST_CALLS {
            rows.push(Row::new(heap)?)?;
        }
        Ok(Room {
            moduli: Vec::with_capacity(heap, MOST_MODULI_CODES)?,
            calls: Vec::with_capacity(heap, MOST_CALLS)?,
            rows,
        })
    }
}
