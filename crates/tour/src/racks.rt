//! Two channels gather words side by side on one rack; what is refused there changes nothing, and damage
//! costs margin alone.
use crate::plans::{MESSAGE_CODES, Sample};
use anyhow::anyhow;
use fault::Fault;
use field::Bits;
use memory::{Memory, PackedCells};
use numbers::Numbers;
use plan::Plan;
use rack::{Channel, Rack};

/// Slots of the rack: A's, B's, and one that stays closed.
const SLOTS: usize = 3;

const SLOT_OF_A: usize = 0;

const SLOT_OF_B: usize = 1;

const CLOSED_SLOT: usize = 2;

/// The first number that names no slot.
const NO_SLOT: usize = SLOTS;

/// Room for the cells of the slots, 21 bits.
const BYTES: usize = 3;

/// Where A's word begins in the memory.
const FAILING_CELL: usize = 0;

/// The position that A strikes.
const STRUCK_POSITION: usize = 2;

/// A channel, the slot that it gathers in, and the word that it puts there.
#[derive(Clone, Copy)]
pub(crate) struct Gathering<'a> {
    pub(crate) channel: Channel,
    pub(crate) slot: usize,
    pub(crate) word: &'a [u16],
}

impl<'a> Gathering<'a> {
    /// The codes of one position of the word; `received` would cut out all at once.
    pub(crate) fn residue(&self, plan: &Plan<Bits>, position: usize) -> &'a [u16] {
        let end = plan.start(position.saturating_add(1));
        self.word.get(plan.start(position)..end).unwrap_or(&[])
    }
}

/// Has a channel open its slot.
fn open<M: Memory>(rack: &mut Rack<Bits, M>, gathering: &Gathering) -> anyhow::Result<()> {
    rack.open(usize::from(gathering.channel), gathering.slot)
        .map_err(|fault| anyhow!("a slot does not open: {}", fault.ground()))
}

/// Has a channel put a position of its word, and says how that ended.
fn show_put<M: Memory, R: Print>(
    rt: &R,
    plan: &Plan<Bits>,
    rack: &mut Rack<Bits, M>,
    gathering: &Gathering,
    position: usize,
) -> anyhow::Result<()> {
    let Gathering { channel, slot, .. } = *gathering;
    let residue = gathering.residue(plan, position);
    let codes = Numbers(residue);
    print!(rt; "    {channel} puts{codes} at position {position} of slot {slot}: ")?;
    match rack.put(usize::from(channel), slot, position, residue) {
        Ok(()) => println!(rt; "ok")?,
        Err(fault) => println!(rt; "{}", fault.ground())?,
    }
    Ok(())
}

/// Has a channel read its slot, and says what came of it.
fn show_slot<M: Memory, R: Print>(
    rt: &R,
    rack: &Rack<Bits, M>,
    gathering: &Gathering,
) -> anyhow::Result<()> {
    let Gathering { channel, slot, .. } = *gathering;
    let mut message = [0; MESSAGE_CODES];
    match rack.read(usize::from(channel), slot, &mut message) {
        Ok(found) => {
            let codes = Numbers(&message);
            let margin = found.margin;
            let wrong = found.wrong;
            println!(rt;
                "  {channel} reads{codes} from slot {slot}, with margin {margin}, wrong positions of degree {wrong} in all."
            )?;
        }
        Err(fault) => println!(rt;
            "  {channel} reads nothing from slot {slot}: {}",
            fault.ground()
        )?,
    }
    Ok(())
}

/// The channels open their slots, put their words by turns, and read them.
fn show_gathering<M: Memory, R: Print>(
    rt: &R,
    plan: &Plan<Bits>,
    rack: &mut Rack<Bits, M>,
    a: &Gathering,
    b: &Gathering,
) -> anyhow::Result<()> {
    open(rack, a)?;
    open(rack, b)?;
    println!(rt;
        "  Channel A opens slot {SLOT_OF_A} for the word of 1 1, and channel B slot {SLOT_OF_B} for that of 0 1. They put by turns:"
    )?;
    for position in 0..plan.positions() {
        show_put(rt, plan, rack, a, position)?;
        show_put(rt, plan, rack, b, position)?;
    }
    show_slot(rt, rack, a)?;
    show_slot(rt, rack, b)
}

/// B reaches for A's slot, for one that is not there and for one that is closed, and what the channels read
/// is as before.
fn show_refusals<M: Memory, R: Print>(
    rt: &R,
    plan: &Plan<Bits>,
    rack: &mut Rack<Bits, M>,
    a: &Gathering,
    b: &Gathering,
) -> anyhow::Result<()> {
    let b_at = |slot| Gathering { slot, ..*b };
    println!(rt; "  B reaches for A's slot, where nothing changes:")?;
    show_put(rt, plan, rack, &b_at(SLOT_OF_A), 0)?;
    show_slot(rt, rack, a)?;
    println!(rt;
        "  B reaches for slot {NO_SLOT}, which is not there, and for slot {CLOSED_SLOT}, which is closed. Nothing changes either:"
    )?;
    show_put(rt, plan, rack, &b_at(NO_SLOT), 0)?;
    show_slot(rt, rack, &b_at(CLOSED_SLOT))?;
    show_slot(rt, rack, a)?;
    show_slot(rt, rack, b)
}

/// A cell of A's word fails, and A strikes another position: both cost margin, and the word is still read.
fn show_damage<M: Memory, R: Print>(
    rt: &R,
    rack: &mut Rack<Bits, M>,
    a: &Gathering,
) -> anyhow::Result<()> {
    if !rack.overwrite_cell(FAILING_CELL, 0) {
        return Err(anyhow!("the memory has no cell {FAILING_CELL}"));
    }
    println!(rt;
        "  The memory fails at cell {FAILING_CELL}, where A's word begins: it now holds 0."
    )?;
    show_slot(rt, rack, a)?;
    rack.strike(usize::from(a.channel), a.slot, STRUCK_POSITION)
        .map_err(|fault| anyhow!("a position is not struck: {}", fault.ground()))?;
    println!(rt; "  A strikes position {STRUCK_POSITION}, which then counts as missing.")?;
    show_slot(rt, rack, a)
}

fn show_channels<M: Memory, R: Print>(
    rt: &R,
    sample: &Sample,
    rack: &mut Rack<Bits, M>,
) -> anyhow::Result<()> {
    let plan = &sample.plan;
    let a = Gathering {
        channel: Channel::A,
        slot: SLOT_OF_A,
        word: &sample.first,
    };
    let b = Gathering {
        channel: Channel::B,
        slot: SLOT_OF_B,
        word: &sample.second,
    };
    show_gathering(rt, plan, rack, &a, &b)?;
    show_refusals(rt, plan, rack, &a, &b)?;
    show_damage(rt, rack, &a)
}

/// Makes a rack over the memory.
fn show_slots<M: Memory + Drop, R: Print>(
    rt: &R,
    sample: &Sample,
    memory: M,
) -> anyhow::Result<()> {
    match Rack::new(sample.plan, memory, SLOTS) {
        Ok(mut rack) => show_channels(rt, sample, &mut rack),
        Err(returned) => Err(anyhow!("no rack is made: {}", returned.fault.ground())),
    }
}

/// Two channels on one rack, over cells of a bit each.
pub(crate) fn show_racks<R: Print>(rt: &R, sample: &Sample) -> anyhow::Result<()> {
    println!(rt; "Racks: two channels gather words side by side in the slots of one memory.")?;
    let mut bytes = [0; BYTES];
    show_slots(rt, sample, PackedCells::new(&mut bytes))
}
