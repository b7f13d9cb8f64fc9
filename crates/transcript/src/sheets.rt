//! From the bytes of a sheet to its transcript.
ghost use Rattle.std.specs.Prelude.{All, map, vec_items};
ghost use Rattle.expression.specs.Fields.{arithmetic_of};
ghost use Rattle.rack.specs.Racks.{given_by};
ghost use Rattle.sheet.specs.Rooms.{HasRoom};
ghost use Rattle.transcript.specs.Runs.{PlanTold, TranscriptTold};

use crate::rooms::Room;
use crate::running::{Work, run_calls};
use crate::transcripts::Transcript;
use expression::FieldName;
use field::{Bits, Bytes, Clock};
use sheet::{Sheet, read_sheet};

/// Reads the sheet, and runs its calls in their order on a rack straight from its making.
pub fn transcript_of(room: Room, bytes: &[u8]) -> Transcript
    ensures { TranscriptTold bytes.now result }
{
    let Room {
        sheet,
        entries,
        ended,
    } = room;
    match read_sheet(sheet, bytes) {
        Ok(sheet) => {
            let Sheet {
                field,
                carriers,
                moduli,
                calls,
            } = sheet;
            let work = Work {
                calls,
                entries,
                ended,
            };
            run_over(field, carriers, &moduli, work)
        }
        Err(fault) => Transcript::NoSheet(fault),
    }
}

// Runs the calls over the field of this name.
fn run_over(field: FieldName, carriers: usize, moduli: &[u16], work: Work) -> Transcript
    requires { All HasRoom (vec_items work.calls) }
    ensures { PlanTold (arithmetic_of field) carriers moduli.now (map given_by (vec_items work.calls)) result }
{
    match field {
        FieldName::Bits => run_calls::<Bits>(carriers, moduli, work),
        FieldName::Bytes => run_calls::<Bytes>(carriers, moduli, work),
        FieldName::Clock => run_calls::<Clock>(carriers, moduli, work),
    }
}
