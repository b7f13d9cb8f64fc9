//! Running the calls of a sheet.
ghost use Rattle.std.specs.Prelude.{◌≤◌, All, map, vec_items, vec_len};
ghost use Rattle.memory.specs.Meaning.{max_top};
ghost use Rattle.plan.specs.Held.{scheme};
ghost use Rattle.rack.specs.Racks.{given_by};
ghost use Rattle.sheet.specs.Limits.{most_calls};
ghost use Rattle.sheet.specs.Rooms.{HasRoom, Vacant};
ghost use Rattle.transcript.specs.Runs.{Layered, LayeredTold, PlanTold, zero_cells};

use crate::ended::Ended;
use crate::entries::{ended_of, entries_of};
use crate::transcripts::{Calls, Transcript};
use batch::{Entry, Loading, load_under};
use field::Field;
use memory::{Memory, WordCells};
use plan::{MOST_TOTAL, Plan};
use rack::Call;
use spread::Spread;

/// How many slots the rack has on which the calls of a sheet are run.
pub const SLOTS: usize = 4;

// So many cells are enough under any plan.
const MOST_CELLS: usize = SLOTS * MOST_TOTAL;

// No rack was made: the depth does not divide the number of cells, or they do not fit the plan.
#[derive(Clone, Copy)]
struct Unfit;

// Runs the calls on a rack straight from its making, over a spreading layer of depth N over the memory.
fn run_layered<F: Field, M: Memory + Drop>(
    plan: Plan<F>,
    below: M,
    entries: &mut [Entry],
) -> Result<(), Unfit>
    ensures { LayeredTold (scheme plan) (M.Memory.cells below) (M.Memory.top below) entries.old entries.new result }
{
    let memory = Spread::new(below, plan.word_length()).map_err(|_| Unfit)?;
    let loading = Loading {
        entries,
        memory,
        slots: SLOTS,
    };
    load_under(plan, loading).map_err(|_| Unfit)?;
    Ok(())
}

// Runs the calls so over cells of sixteen bits that hold 0, as many as the slots have: there the rack always fits.
fn run_over_zeros<F: Field>(plan: Plan<F>, entries: &mut [Entry])
    ensures { Layered (scheme plan) (zero_cells (scheme plan)) max_top entries.old entries.new }
{
    let mut cells = [0; MOST_CELLS];
    let row = &mut cells[..SLOTS * plan.word_length()];
    match run_layered(plan, WordCells::new(row), entries) {
        Ok(()) => {}
        Err(_) => unreachable!(),
    }
}

/// Calls that are to be run, no more than a sheet has, and room for as many as they are run and as they ended.
pub(crate) struct Work {
    pub(crate) calls: Vec<Call>,
    pub(crate) entries: Vec<Entry>,
    pub(crate) ended: Vec<Ended>,
    ghost few: { vec_len calls ≤ most_calls },
    ghost entries_fit: { Vacant most_calls entries },
    ghost ended_fit: { Vacant most_calls ended },
}

/// Makes the plan, and runs the calls under it.
pub(crate) fn run_calls<F: Field>(carriers: usize, moduli: &[u16], work: Work) -> Transcript
    requires { All HasRoom (vec_items work.calls) }
    ensures { PlanTold F.Field.arithmetic carriers moduli.now (map given_by (vec_items work.calls)) result }
{
    let Work {
        calls,
        entries,
        ended,
    } = work;
    let plan = match Plan::<F>::new(carriers, moduli) {
        Ok(plan) => plan,
        Err(fault) => return Transcript::NoPlan(fault),
    };
    let mut entries = entries_of(entries, calls, plan.message_length());
    run_over_zeros(plan, &mut entries);
    Transcript::Ran(Calls {
        ended: ended_of(ended, entries),
    })
}
