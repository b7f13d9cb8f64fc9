//! Two channels load a word each, by calls and by a list of calls: a program to begin with.
#![tactic(auto)]

use batch::{Entry, Loading, load};
use field::Bytes;
use memory::{ByteCells, Memory};
use numbers::Numbers;
use plan::Plan;
use rack::{Answer, Call, Channel, Rack};
use std::alloc::Global;

/// k: the first two positions carry the message, and the other two guard it.
const CARRIERS: usize = 2;

/// The moduli z, z + 1, z + 2 and z + 3 over bytes, nine codes each, lowest power first.
const MODULI: [u16; 36] = [
    0, 1, 0, 0, 0, 0, 0, 0, 0, 1, 1, 0, 0, 0, 0, 0, 0, 0, 2, 1, 0, 0, 0, 0, 0, 0, 0, 3, 1, 0, 0, 0,
    0, 0, 0, 0,
];

/// K and N: every modulus is of degree 1, so each position is one code.
const MESSAGE_CODES: usize = 2;

const WORD_CODES: usize = 4;

/// A slot for each channel, and the cells of both.
const SLOTS: usize = 2;

const CELLS: usize = SLOTS * WORD_CODES;

/// What each channel loads. A takes slot 0, and B slot 1.
const LOADS: [(Channel, [u16; MESSAGE_CODES]); 2] = [(Channel::A, [1, 2]), (Channel::B, [3, 0])];

/// By calls: a refusal of any layer is an error, and `?` hands it on.
fn by_calls<M: Memory + Drop>(rt: &impl Print, memory: M) -> anyhow::Result<()> {
    let plan = Plan::<Bytes>::new(CARRIERS, &MODULI)?;
    let mut rack = Rack::new(plan, memory, SLOTS).map_err(|returned| returned.fault)?;
    for (channel, message) in LOADS {
        let number = usize::from(channel);
        let mut word = [0; WORD_CODES];
        plan.encode(&message, &mut word)?;
        rack.open(number, number)?;
        for (position, residue) in word.chunks(1).enumerate() {
            rack.put(number, number, position, residue)?;
        }
        let mut buffer = [0; MESSAGE_CODES];
        let found = rack.read(number, number, &mut buffer)?;
        println!(rt;
            "{channel} reads{} with margin {}",
            Numbers(&buffer),
            found.margin
        )?;
    }
    Ok(())
}

/// The same calls as a list.
fn calls(heap: Global) -> anyhow::Result<Vec<Entry>> {
    let plan = Plan::<Bytes>::new(CARRIERS, &MODULI)?;
    let mut entries = Vec::new(heap);
    for (channel, message) in LOADS {
        let channel = usize::from(channel);
        let slot = channel;
        let mut word = [0; WORD_CODES];
        plan.encode(&message, &mut word)?;
        entries.push(Entry::new(Call::Open { channel, slot }))?;
        for (position, residue) in word.chunks(1).enumerate() {
            let residue = Vec::from_slice(heap, residue)?;
            entries.push(Entry::new(Call::Put {
                channel,
                slot,
                position,
                residue,
            }))?;
        }
        let buffer = vec![in heap; 0; MESSAGE_CODES]?;
        entries.push(Entry::new(Call::Read {
            channel,
            slot,
            buffer,
        }))?;
    }
    Ok(entries)
}

/// By a list: it is run on a rack straight from its making, and each entry then says how its call ended. For
/// this call the promise about every arrangement of calls is proved.
fn by_list<M: Memory + Drop>(rt: &impl Print, heap: Global, memory: M) -> anyhow::Result<()> {
    let mut entries = calls(heap)?;
    let loading = Loading {
        entries: &mut entries,
        memory,
        slots: SLOTS,
    };
    load::<Bytes, M>(CARRIERS, &MODULI, loading).map_err(|returned| returned.fault)?;
    for entry in &entries {
        match (&entry.call, &entry.outcome) {
            (
                Call::Read {
                    channel,
                    buffer,
                    ..
                },
                Some(Ok(Answer::Message(found))),
            ) => println!(rt;
                "channel {channel} reads{} with margin {}",
                Numbers(buffer),
                found.margin
            )?,
            (_, Some(Err(fault))) => println!(rt; "refused: {fault}")?,
            _ => {}
        }
    }
    Ok(())
}

fn main(rt: HostRuntime) -> anyhow::Result<()> {
    let mut cells = [0; CELLS];
    by_calls(&rt, ByteCells::new(&mut cells))?;
    let mut cells = [0; CELLS];
    by_list(&rt, rt.alloc(), ByteCells::new(&mut cells))
}
