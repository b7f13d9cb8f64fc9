//! Two channels on a rack with a field and a memory of the laboratory's own: nibbles, and cells kept in two forms.
#![tactic(auto)]

use anyhow::anyhow;
use fault::Fault;
use laboratory::{Mirrored, Nibbles};
use memory::Memory;
use numbers::Numbers;
use plan::{MODULUS_CODES, Plan};
use rack::{Channel, Rack};
use std::alloc::{AllocError, Global};

// Each position stands for a point a, and its modulus is z + a. A nibble is its own negative, so the
// remainder by z + a is what the message is worth where z is a: a word is five values of a polynomial, of
// which any two tell it.
const POINTS: [u16; 5] = [0, 1, 2, 3, 4];

// So many positions carry a message, and so many codes it has.
const CARRIERS: usize = 2;

// One for each channel.
const SLOTS: usize = 2;

// What goes wrong in the first slot: one of its five cells comes to hold this, and a position is struck.
const DAMAGED_CELL: usize = 1;

const DAMAGE: u16 = 15;

const STRUCK: usize = 4;

/// A channel, the slot that it gathers in, its message and the word of that.
#[derive(Clone, Copy)]
struct Gathering {
    channel: Channel,
    slot: usize,
    message: [u16; CARRIERS],
    word: [u16; POINTS.len()],
}

impl Gathering {
    fn new(
        plan: &Plan<Nibbles>,
        channel: Channel,
        slot: usize,
        message: [u16; CARRIERS],
    ) -> anyhow::Result<Gathering> {
        let mut word = [0; POINTS.len()];
        plan.encode(&message, &mut word).map_err(unexpected)?;
        Ok(Gathering {
            channel,
            slot,
            message,
            word,
        })
    }
}

/// A refusal that this program does not expect, as its error.
fn unexpected<X: Fault + Copy>(fault: X) -> anyhow::Error {
    anyhow!("{}", fault.ground())
}

/// The moduli z + a, nine codes each, lowest power first.
fn moduli(heap: Global) -> Result<Vec<u16>, AllocError> {
    let mut codes = Vec::new(heap);
    for point in &POINTS {
        let mut modulus = [0; MODULUS_CODES];
        modulus[0] = *point;
        modulus[1] = 1;
        codes.extend_from_slice(&modulus)?;
    }
    Ok(codes)
}

/// The channels open their slots and put their words by turns, a position at a time.
fn gather<M: Memory>(
    rack: &mut Rack<Nibbles, M>,
    gatherings: &[Gathering; SLOTS],
) -> anyhow::Result<()> {
    for gathering in gatherings {
        rack.open(usize::from(gathering.channel), gathering.slot)
            .map_err(unexpected)?;
    }
    for position in 0..POINTS.len() {
        for gathering in gatherings {
            let residue = [gathering.word[position]];
            rack.put(
                usize::from(gathering.channel),
                gathering.slot,
                position,
                &residue,
            )
            .map_err(unexpected)?;
        }
    }
    Ok(())
}

/// Has each channel read its slot, and says what came of it.
fn show_readings<M: Memory, R: Print>(
    rt: &R,
    rack: &Rack<Nibbles, M>,
    gatherings: &[Gathering; SLOTS],
) -> anyhow::Result<()> {
    for gathering in gatherings {
        let Gathering { channel, slot, .. } = *gathering;
        let mut message = [0; CARRIERS];
        match rack.read(usize::from(channel), slot, &mut message) {
            Ok(found) => {
                let codes = Numbers(&message);
                println!(rt; "    {channel} reads{codes} with margin {}.", found.margin)?;
            }
            Err(fault) => println!(rt; "    {channel} reads nothing: {}", fault.ground())?,
        }
    }
    Ok(())
}

/// A cell of the first channel's slot is overwritten, as a fault in the memory would, and the channel strikes
/// a position.
fn show_damage<M: Memory, R: Print>(
    rt: &R,
    rack: &mut Rack<Nibbles, M>,
    gathering: &Gathering,
) -> anyhow::Result<()> {
    let Gathering { channel, slot, .. } = *gathering;
    if rack.overwrite_cell(DAMAGED_CELL, DAMAGE) {
        println!(rt; "  Cell {DAMAGED_CELL}, of {channel}'s slot, now holds {DAMAGE}.")?;
    }
    rack.strike(usize::from(channel), slot, STRUCK)
        .map_err(unexpected)?;
    println!(rt; "  {channel} strikes position {STRUCK}.")?;
    Ok(())
}

/// A channel puts a code of its own into another's slot.
fn show_intrusion<M: Memory, R: Print>(
    rt: &R,
    rack: &mut Rack<Nibbles, M>,
    intruder: &Gathering,
    other: &Gathering,
) -> anyhow::Result<()> {
    let Gathering { channel, word, .. } = *intruder;
    let code = word[0];
    print!(rt; "  {channel} puts {code} into {}'s slot: ", other.channel)?;
    match rack.put(usize::from(channel), other.slot, 0, &[code]) {
        Ok(()) => println!(rt; "ok")?,
        Err(fault) => println!(rt; "{}", fault.ground())?,
    }
    Ok(())
}

/// The two words on one rack, over any memory with room for them.
fn show_rack<M: Memory + Drop, R: Print>(
    rt: &R,
    plan: &Plan<Nibbles>,
    memory: M,
    gatherings: &[Gathering; SLOTS],
) -> anyhow::Result<()> {
    let [first, second] = gatherings;
    let mut rack = Rack::new(*plan, memory, SLOTS).map_err(|returned| unexpected(returned.fault))?;
    gather(&mut rack, gatherings)?;
    show_readings(rt, &rack, gatherings)?;
    show_damage(rt, &mut rack, first)?;
    show_readings(rt, &rack, gatherings)?;
    show_intrusion(rt, &mut rack, second, first)?;
    show_readings(rt, &rack, gatherings)
}

fn bench<R: Print + AllocGlobal>(rt: &R) -> anyhow::Result<()> {
    let codes = moduli(rt.alloc())?;
    let plan = Plan::<Nibbles>::new(CARRIERS, &codes).map_err(unexpected)?;
    let gatherings = [
        Gathering::new(&plan, Channel::A, 0, [3, 9])?,
        Gathering::new(&plan, Channel::B, 1, [12, 5])?,
    ];
    println!(rt;
        "Bench: two channels on one rack, with a field and a memory of the laboratory's own."
    )?;
    for gathering in &gatherings {
        let message = Numbers(&gathering.message);
        let word = Numbers(&gathering.word);
        println!(rt;
            "  {} carries{message} by the word{word} in slot {}.",
            gathering.channel, gathering.slot
        )?;
    }
    let memory = Mirrored::new(rt.alloc(), SLOTS * POINTS.len())?;
    show_rack(rt, &plan, memory, &gatherings)
}

fn main(rt: HostRuntime) -> anyhow::Result<()> {
    bench(&rt)
}
