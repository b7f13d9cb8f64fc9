//! The sections of a sheet: each is a count on a line of its own, and that many lines.
ghost use Rattle.std.specs.Prelude.{◌+◌, ◌*◌, ◌≤◌, vec_capacity, vec_len};
ghost use Rattle.expression.specs.Cursors.{Here};
ghost use Rattle.expression.specs.Fields.{arithmetic_of};
ghost use Rattle.plan.specs.Limits.{modulus_codes};
ghost use Rattle.sheet.specs.Limits.{most_calls, most_moduli};
ghost use Rattle.sheet.specs.Rooms.{Vacant};
ghost use Rattle.sheet.specs.Sections.{CallsTold, FieldTold, ModuliTold};
ghost use Rattle.sheet.specs.declared.limits.TheConstants.{LATEST_SECTION_LINE};

use crate::call_lines::call_line;
use crate::counts::count_line;
use crate::field_lines::field_line;
use crate::limits::{CALLS, FIELDS, MODULI};
use crate::moduli::Moduli;
use crate::rooms::Row;
use expression::{Cursor, FieldName, Parsed, Stop, modulus_line};
use rack::Call;

/// The field that the section here names.
pub(crate) fn field_section(from: Cursor) -> Result<Parsed<FieldName>, Stop>
    ensures { Here from.entry (λ s i. FieldTold s i result) }
{
    let count = count_line(from, FIELDS)?;
    field_line(from.at(count.end))
}

/// Notes the moduli of the section here, the first of which stands on line `first`; what is read is how many there are.
pub(crate) fn moduli_section(
    from: Cursor,
    field: FieldName,
    first: usize,
    moduli: &mut Moduli,
) -> Result<Parsed<usize>, Stop>
    requires line { first ≤ LATEST_SECTION_LINE }
    requires room { vec_len moduli.old.codes + most_moduli * modulus_codes ≤ vec_capacity moduli.old.codes }
    ensures { Here from.entry (λ s i. ModuliTold (arithmetic_of field) s i first moduli.old moduli.new result) }
{
    let count = count_line(from, MODULI)?;
    let mut next = count.end;
    // A line is named by how many stand before it.
    for i in 0..count.value {
        let modulus = modulus_line(from.sheet, next, field)?;
        moduli.keep(first + i, modulus.value);
        next = modulus.end;
    }
    Ok(Parsed {
        value: count.value,
        end: next,
    })
}

/// The calls of the section here, each with a row of its own.
pub(crate) fn calls_section(
    mut calls: Vec<Call>,
    mut rows: Vec<Row>,
    from: Cursor,
) -> Result<Parsed<Vec<Call>>, Stop>
    requires room { Vacant most_calls calls }
    requires rows { most_calls ≤ vec_len rows }
    ensures { Here from.entry (λ s i. CallsTold s i result) }
{
    let count = count_line(from, CALLS)?;
    let mut next = count.end;
    for _ in 0..count.value {
        let call = call_line(rows.take_last(), from.at(next))?;
        calls.push_reserved(call.value);
        next = call.end;
    }
    Ok(Parsed {
        value: calls,
        end: next,
    })
}
