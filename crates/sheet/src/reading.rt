//! Reading a whole sheet.
ghost use Rattle.sheet.specs.Drafts.{DraftTold};
ghost use Rattle.sheet.specs.Refusals.{SheetTold};

use crate::faults::SheetFault;
use crate::limits::{FIRST_MODULUS_LINE, LONGEST_SHEET};
use crate::moduli::Moduli;
use crate::rooms::Room;
use crate::sections::{calls_section, field_section, moduli_section};
use crate::sheets::Sheet;
use expression::{Cursor, FieldName, Parsed, Stop};
use rack::Call;

/// The sheet that the bytes write; or the first ground on which they write none, with its place. The room is
/// enough for any sheet, so memory is never wanting.
pub fn read_sheet(room: Room, bytes: &[u8]) -> Result<Sheet, SheetFault>
    ensures { SheetTold bytes.now result }
{
    if bytes.len() > LONGEST_SHEET {
        return Err(SheetFault::TooLong);
    }
    let Parsed { value: draft, end } = read_sections(room, bytes)?;
    if end != bytes.len() {
        return Err(SheetFault::NotASheet(end));
    }
    let Draft {
        field,
        carriers,
        moduli,
        calls,
    } = draft;
    if let Some(line) = moduli.bad {
        return Err(SheetFault::NoModulus(line));
    }
    Ok(Sheet {
        field,
        carriers,
        moduli: moduli.codes,
        calls,
    })
}

// What the sections say, before it is known that nothing follows them and that every modulus has a value.
#[derive(Drop)]
struct Draft {
    field: FieldName,
    carriers: usize,
    moduli: Moduli,
    calls: Vec<Call>,
}

// The four sections from the start of the sheet on.
fn read_sections(room: Room, bytes: &[u8]) -> Result<Parsed<Draft>, Stop>
    ensures { DraftTold bytes.now result }
{
    let Room {
        moduli: codes,
        calls,
        rows,
    } = room;
    let start = Cursor {
        sheet: bytes,
        place: 0,
    };
    let field = field_section(start)?;
    let mut moduli = Moduli { codes, bad: None };
    let carrying = moduli_section(
        start.at(field.end),
        field.value,
        FIRST_MODULUS_LINE,
        &mut moduli,
    )?;
    // Between the carrying and the spare moduli stands one line, the count of the latter.
    let first_spare = FIRST_MODULUS_LINE + carrying.value + 1;
    let spare = moduli_section(
        start.at(carrying.end),
        field.value,
        first_spare,
        &mut moduli,
    )?;
    let calls = calls_section(calls, rows, start.at(spare.end))?;
    Ok(Parsed {
        value: Draft {
            field: field.value,
            carriers: carrying.value,
            moduli,
            calls: calls.value,
        },
        end: calls.end,
    })
}
