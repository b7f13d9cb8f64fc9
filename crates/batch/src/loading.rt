//! Making racks and running lists of calls on them, straight from their making.
ghost use Rattle.plan.specs.Held.{scheme};
ghost use Rattle.batch.specs.Loading.{LoadTold, PairTold, UnderTold};

use crate::entry::Entry;
use crate::faults::{LoadFault, PairFault};
use crate::running::run;
use field::Field;
use memory::{Memory, Returned};
use plan::Plan;
use rack::{FitFault, Rack};

/// Two memories that no lists were run on, handed back as they were, and why.
#[derive(Drop)]
pub struct NotPaired<M: Memory, W: Memory> {
    pub first: M,
    pub second: W,
    pub fault: PairFault,
}

/// What is to be run: a list of calls, on a rack of so many slots over a memory. In a clause `entry` is what
/// was handed in, and `exit` holds what was lent with it, as it is afterwards: `exit.0`, the first, is the
/// list.
pub struct Loading<'a, M: Memory> {
    pub entries: &'a mut [Entry],
    pub memory: M,
    pub slots: usize,
}

/// Makes the plan and a rack, and runs the calls. A refusal alters neither the memory nor an entry.
pub fn load<F: Field, M: Memory>(
    carriers: usize,
    moduli: &[u16],
    loading: Loading<'_, M>,
) -> Result<Rack<F, M>, Returned<M, LoadFault>>
    ensures { LoadTold carriers moduli.now loading.entry loading.exit.0.now result }
{
    let Loading {
        entries,
        memory,
        slots,
    } = loading;
    let plan = match Plan::<F>::new(carriers, moduli) {
        Ok(plan) => plan,
        Err(fault) => {
            return Err(Returned {
                memory,
                fault: LoadFault::from(fault),
            });
        }
    };
    let loading = Loading {
        entries,
        memory,
        slots,
    };
    load_under(plan, loading).map_err(|Returned { memory, fault }| Returned {
        memory,
        fault: LoadFault::from(fault),
    })
}

/// Makes a rack under a plan that is there already, and runs the calls. A refusal alters neither the memory
/// nor an entry.
pub fn load_under<F: Field, M: Memory>(
    plan: Plan<F>,
    loading: Loading<'_, M>,
) -> Result<Rack<F, M>, Returned<M, FitFault>>
    ensures { UnderTold (scheme plan) loading.entry loading.exit.0.now result }
{
    let Loading {
        entries,
        memory,
        slots,
    } = loading;
    let mut rack = Rack::new(plan, memory, slots)?;
    run(&mut rack, entries);
    Ok(rack)
}

/// Makes the plan and two racks, over any two kinds of memory, and runs a list of calls on each. A refusal
/// alters neither a memory nor an entry. Its contract is the promise about arrangements: for every field,
/// plan and memory, whatever the cells first hold, and for all lists of calls.
pub fn load_pair<F: Field, M: Memory, W: Memory>(
    carriers: usize,
    moduli: &[u16],
    first: Loading<'_, M>,
    second: Loading<'_, W>,
) -> Result<(Rack<F, M>, Rack<F, W>), NotPaired<M, W>>
    ensures { PairTold carriers moduli.now first.entry first.exit.0.now second.entry second.exit.0.now result }
{
    let Loading {
        entries: first_entries,
        memory: first,
        slots: first_slots,
    } = first;
    let Loading {
        entries: second_entries,
        memory: second,
        slots: second_slots,
    } = second;
    // A refusal hands both memories back, so each outcome is matched where both are at hand.
    let plan = match Plan::<F>::new(carriers, moduli) {
        Ok(plan) => plan,
        Err(fault) => {
            return Err(NotPaired {
                first,
                second,
                fault: PairFault::from(fault),
            });
        }
    };
    let mut one = match Rack::new(plan, first, first_slots) {
        Ok(rack) => rack,
        Err(Returned { memory, fault }) => {
            return Err(NotPaired {
                first: memory,
                second,
                fault: PairFault::First(fault),
            });
        }
    };
    let mut other = match Rack::new(plan, second, second_slots) {
        Ok(rack) => rack,
        Err(Returned { memory, fault }) => {
            return Err(NotPaired {
                first: one.into_memory(),
                second: memory,
                fault: PairFault::Second(fault),
            });
        }
    };
    run(&mut one, first_entries);
    run(&mut other, second_entries);
    Ok((one, other))
}
