//! Two lists of calls, each run on a rack of its own straight from its making: what a channel reads depends on what it
//! has put alone.
use crate::plans::{MESSAGE_CODES, MODULI, Sample};
use crate::racks::Gathering;
use anyhow::anyhow;
use batch::{Entry, Loading, load_pair};
use fault::Fault;
use field::Bits;
use memory::{Memory, PackedCells, WordCells};
use numbers::Numbers;
use plan::Plan;
use rack::{Answer, Call, Channel};
use std::alloc::{AllocError, Global};

/// Slots of each rack.
const SLOTS: usize = 2;

/// Room for the cells of the slots: 14 bits, and 14 numbers of sixteen bits.
const BYTES: usize = 2;

const NUMBERS: usize = 14;

fn opens(gathering: &Gathering) -> Entry {
    Entry::new(Call::Open {
        channel: usize::from(gathering.channel),
        slot: gathering.slot,
    })
}

fn puts(
    heap: Global,
    plan: &Plan<Bits>,
    gathering: &Gathering,
    position: usize,
) -> Result<Entry, AllocError> {
    Ok(Entry::new(Call::Put {
        channel: usize::from(gathering.channel),
        slot: gathering.slot,
        position,
        residue: gathering.residue(plan, position).to_vec(heap)?,
    }))
}

fn reads(heap: Global, gathering: &Gathering) -> Result<Entry, AllocError> {
    Ok(Entry::new(Call::Read {
        channel: usize::from(gathering.channel),
        slot: gathering.slot,
        buffer: vec![in heap; 0; MESSAGE_CODES]?,
    }))
}

/// The channels open their slots, put these positions of their words by turns, and read.
fn list_of(
    heap: Global,
    plan: &Plan<Bits>,
    gatherings: &[Gathering],
    positions: &[usize],
) -> Result<Vec<Entry>, AllocError> {
    let mut entries = Vec::new(heap);
    for gathering in gatherings {
        entries.push(opens(gathering))?;
    }
    for position in positions {
        for gathering in gatherings {
            entries.push(puts(heap, plan, gathering, *position)?)?;
        }
    }
    for gathering in gatherings {
        entries.push(reads(heap, gathering)?)?;
    }
    Ok(entries)
}

/// Both channels by turns, with the positions that carry their messages.
fn by_turns(heap: Global, sample: &Sample) -> Result<Vec<Entry>, AllocError> {
    let a = Gathering {
        channel: Channel::A,
        slot: 0,
        word: &sample.first,
    };
    let b = Gathering {
        channel: Channel::B,
        slot: 1,
        word: &sample.second,
    };
    list_of(heap, &sample.plan, &[a, b], &[0, 1])
}

/// Channel A alone, with the positions that guard its message; then B reaches for its slot.
fn guarded(heap: Global, sample: &Sample) -> Result<Vec<Entry>, AllocError> {
    let a = Gathering {
        channel: Channel::A,
        slot: 1,
        word: &sample.first,
    };
    let b = Gathering {
        channel: Channel::B,
        ..a
    };
    let mut entries = list_of(heap, &sample.plan, &[a], &[3, 2])?;
    entries.push(reads(heap, &b)?)?;
    Ok(entries)
}

/// Shows a call as a sheet writes it, with what it is given.
fn show_call<R: Print>(rt: &R, call: &Call) -> anyhow::Result<()> {
    match call {
        Call::Open { channel, slot } => print!(rt; "    open {channel} {slot}: ")?,
        Call::Put {
            channel,
            slot,
            position,
            residue,
        } => {
            let codes = Numbers(residue.as_slice());
            print!(rt; "    put {channel} {slot} {position}{codes}: ")?;
        }
        Call::Strike {
            channel,
            slot,
            position,
        } => print!(rt; "    strike {channel} {slot} {position}: ")?,
        Call::Read { channel, slot, .. } => print!(rt; "    read {channel} {slot}: ")?,
        Call::Measure {
            channel,
            slot,
            message,
        } => {
            let codes = Numbers(message.as_slice());
            print!(rt; "    measure {channel} {slot}{codes}: ")?;
        }
        Call::Close { channel, slot } => print!(rt; "    close {channel} {slot}: ")?,
    }
    Ok(())
}

/// Shows a call and how it ended; an accepted read with margin, e and the codes of the message.
fn show_entry<R: Print>(rt: &R, entry: &Entry) -> anyhow::Result<()> {
    show_call(rt, &entry.call)?;
    match (entry.outcome, &entry.call) {
        (Some(Ok(Answer::Message(found))), Call::Read { buffer, .. }) => {
            let codes = Numbers(buffer.as_slice());
            let margin = found.margin;
            let wrong = found.wrong;
            println!(rt; "ok {margin} {wrong}{codes}")?;
        }
        (Some(Ok(Answer::Margin(margin))), _) => println!(rt; "ok {margin}")?,
        (Some(Ok(_)), _) => println!(rt; "ok")?,
        (Some(Err(fault)), _) => println!(rt; "{}", fault.ground())?,
        (None, _) => println!(rt; "not run")?,
    }
    Ok(())
}

fn show_list<R: Print>(rt: &R, entries: &[Entry]) -> anyhow::Result<()> {
    for entry in entries {
        show_entry(rt, entry)?;
    }
    Ok(())
}

/// Runs two lists of calls on two racks under the plan of the tour, over any two memories.
fn run_both<M: Memory + Drop, W: Memory + Drop>(
    first: M,
    first_list: &mut [Entry],
    second: W,
    second_list: &mut [Entry],
) -> anyhow::Result<()> {
    let first = Loading {
        entries: first_list,
        memory: first,
        slots: SLOTS,
    };
    let second = Loading {
        entries: second_list,
        memory: second,
        slots: SLOTS,
    };
    match load_pair::<Bits, M, W>(MESSAGE_CODES, &MODULI, first, second) {
        Ok(_) => Ok(()),
        Err(refusal) => Err(anyhow!("no racks are made: {}", refusal.fault.ground())),
    }
}

/// Two lists of calls on two racks, over cells of a bit and cells of sixteen bits.
pub(crate) fn show_lists<R: Print>(rt: &R, heap: Global, sample: &Sample) -> anyhow::Result<()> {
    println!(rt; "Lists: calls that are written down, each list run on a rack of its own.")?;
    let mut turns = by_turns(heap, sample)?;
    let mut guards = guarded(heap, sample)?;
    let mut bytes = [0; BYTES];
    let mut numbers = [0; NUMBERS];
    run_both(
        PackedCells::new(&mut bytes),
        turns.as_mut_slice(),
        WordCells::new(&mut numbers),
        guards.as_mut_slice(),
    )?;
    println!(rt;
        "  Over cells of a bit, both channels by turns, with the positions that carry their messages:"
    )?;
    show_list(rt, turns.as_slice())?;
    println!(rt; "  Over cells of sixteen bits, A alone, with positions that guard its message:")?;
    show_list(rt, guards.as_slice())
}
