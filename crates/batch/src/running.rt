//! Running a list of calls on a rack.
ghost use Rattle.rack.specs.Racks.{state};
ghost use Rattle.batch.specs.Lists.{RunsOn};
ghost use Rattle.batch.specs.Served.{Served};

use crate::entry::Entry;
use field::Field;
use memory::Memory;
use rack::Rack;

// Performs one call, and writes down how it ended.
fn serve<F: Field, M: Memory>(rack: &mut Rack<F, M>, entry: &mut Entry)
    ensures { Served (state rack.old) entry.old (state rack.new) entry.new }
{
    let outcome = rack.perform(&mut entry.call);
    entry.outcome = Some(outcome);
}

/// Runs the calls in their order, and writes down how each ended. Nothing is allocated.
pub fn run<F: Field, M: Memory>(rack: &mut Rack<F, M>, entries: &mut [Entry])
    ensures { RunsOn (state rack.old) entries.old entries.new (state rack.new) }
{
    for entry in entries.iter_mut() {
        serve(rack, entry);
    }
}
