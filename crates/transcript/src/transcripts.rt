//! What came of a sheet.
ghost use Rattle.std.specs.Prelude.{◌≤◌, vec_len};
ghost use Rattle.sheet.specs.Limits.{most_calls};

use crate::ended::Ended;
use plan::PlanFault;
use sheet::SheetFault;

/// The calls of a sheet in their order, each with how it ended; no more than a sheet can have.
#[derive(Drop)]
pub struct Calls {
    pub ended: Vec<Ended>,
    ghost few: { vec_len ended ≤ most_calls },
}

/// What came of a sheet.
#[derive(Drop)]
pub enum Transcript {
    /// The bytes are no sheet that can be run.
    NoSheet(SheetFault),
    /// They are one, but its moduli make no plan.
    NoPlan(PlanFault),
    /// Its calls were run.
    Ran(Calls),
}
