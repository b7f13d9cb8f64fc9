//! Tests of lists of calls, each run on racks straight from their making, on the plan of four moduli over bits.
use batch::{Entry, Loading, load, load_pair};
use examples::FOUR_OVER_BITS;
use fault::Fault;
use field::Bits;
use memory::{Memory, PackedCells, Returned, WordCells};
use rack::{Answer, Call, Found};
use spread::Spread;
use std::alloc::{AllocError, Global};
use std::process::Abort;
use std::test::Fail;

// A call of a list as a test writes it, with what it is given lent. A buffer to read into holds 9s.
#[derive(Clone, Copy)]
enum Line<'a> {
    Open(usize, usize),
    Put(usize, usize, usize, &'a [u16]),
    Read(usize, usize),
    Close(usize, usize),
}

fn call_of(heap: Global, line: Line) -> Result<Call, AllocError> {
    Ok(match line {
        Line::Open(channel, slot) => Call::Open { channel, slot },
        Line::Put(channel, slot, position, residue) => Call::Put {
            channel,
            slot,
            position,
            residue: residue.to_vec(heap)?,
        },
        Line::Read(channel, slot) => Call::Read {
            channel,
            slot,
            buffer: vec![in heap; 9; 2]?,
        },
        Line::Close(channel, slot) => Call::Close { channel, slot },
    })
}

fn sheet_of(heap: Global, lines: &[Line]) -> Result<Vec<Entry>, AllocError> {
    let mut sheet = Vec::new(heap);
    for line in lines {
        sheet.push(Entry::new(call_of(heap, *line)?))?;
    }
    Ok(sheet)
}

// How a call ended, in a line. That of a read ends with the buffer.
fn line_of(heap: Global, entry: &Entry) -> Result<String, AllocError> {
    match entry.outcome {
        None => format!(in heap; "not run"),
        Some(Ok(Answer::Done)) => format!(in heap; "ok"),
        Some(Ok(Answer::Margin(margin))) => format!(in heap; "ok {margin}"),
        Some(Ok(Answer::Message(found))) => {
            let Found { margin, wrong } = found;
            match &entry.call {
                Call::Read { buffer, .. } => format!(in heap; "ok {margin} {wrong} {buffer:?}"),
                _ => format!(in heap; "a message of another call"),
            }
        }
        Some(Err(fault)) => fault.ground().to_string(heap),
    }
}

fn told(rt: &impl Abort, heap: Global, entries: &[Entry], lines: &[&str]) -> Result<(), Fail> {
    assert_eq!(rt; entries.len(), lines.len());
    for (entry, line) in entries.iter().zip(lines.iter()) {
        assert_eq!(rt; line_of(heap, entry)?.as_str(), *line);
    }
    Ok(())
}

// Runs the list on a rack of the plan, or gives the memory back.
fn runs_on<M: Memory + Drop>(
    rt: &impl Abort,
    memory: M,
    slots: usize,
    sheet: &mut [Entry],
) -> Option<M> {
    let loading = Loading {
        entries: sheet,
        memory,
        slots,
    };
    let Err(Returned { memory, fault }) = load::<Bits, M>(2, &FOUR_OVER_BITS, loading) else {
        return None;
    };
    assert_eq!(rt; fault.ground().number, 9);
    Some(memory)
}

#[test]
fn bench_sheet(rt: HostRuntime) -> Result<(), Fail> {
    let mut sheet = sheet_of(
        rt.alloc(),
        &[
            Line::Open(0, 1),
            Line::Put(0, 1, 0, &[1]),
            Line::Put(0, 1, 1, &[0]),
            Line::Read(0, 1),
            Line::Put(0, 1, 2, &[0, 1]),
            Line::Read(0, 1),
            Line::Put(1, 1, 2, &[1, 1]),
            Line::Close(0, 1),
        ],
    )?;
    let mut words = [0; 28];
    let Ok(layer) = Spread::new(WordCells::new(&mut words), 7) else {
        return Err(Fail::new("depth 7 was refused"));
    };
    assert!(rt; runs_on(&rt, layer, 4, sheet.as_mut_slice()).is_none());
    told(
        &rt,
        rt.alloc(),
        sheet.as_slice(),
        &[
            "ok",
            "ok",
            "ok",
            "ok 0 0 [1, 1]",
            "ok",
            "no 19 D 1 0",
            "no 14 R 1 0",
            "ok",
        ],
    )
}

#[test]
fn list_not_run(rt: HostRuntime) -> Result<(), Fail> {
    let mut sheet = sheet_of(rt.alloc(), &[Line::Open(0, 0)])?;
    let mut words = [5; 27];
    let Some(memory) = runs_on(&rt, WordCells::new(&mut words), 4, sheet.as_mut_slice()) else {
        return Err(Fail::new("it fits"));
    };
    assert_eq!(rt; memory.get(26), Some(5));
    told(&rt, rt.alloc(), sheet.as_slice(), &["not run"])
}

// Runs a list on two slots, and another on three slots of another memory.
fn pair_on<M: Memory + Drop, W: Memory + Drop>(
    first: M,
    first_sheet: &mut [Entry],
    second: W,
    second_sheet: &mut [Entry],
) -> bool {
    load_pair::<Bits, M, W>(
        2,
        &FOUR_OVER_BITS,
        Loading {
            entries: first_sheet,
            memory: first,
            slots: 2,
        },
        Loading {
            entries: second_sheet,
            memory: second,
            slots: 3,
        },
    )
    .is_ok()
}

// The channels by turns, and then one after the other in other slots on another memory: each reads the same.
#[test]
fn arrangements(rt: HostRuntime) -> Result<(), Fail> {
    let mut turns = sheet_of(
        rt.alloc(),
        &[
            Line::Open(0, 0),
            Line::Open(1, 1),
            Line::Put(0, 0, 0, &[1]),
            Line::Put(1, 1, 0, &[0]),
            Line::Put(0, 0, 1, &[0]),
            Line::Put(1, 1, 1, &[1]),
            Line::Read(0, 0),
            Line::Read(1, 1),
        ],
    )?;
    let mut rows = sheet_of(
        rt.alloc(),
        &[
            Line::Open(1, 0),
            Line::Put(1, 0, 1, &[1]),
            Line::Put(1, 0, 0, &[0]),
            Line::Read(1, 0),
            Line::Open(0, 2),
            Line::Put(0, 2, 0, &[1]),
            Line::Put(0, 2, 1, &[0]),
            Line::Read(0, 2),
        ],
    )?;
    let mut words = [0; 14];
    let mut bytes = [255; 3];
    assert!(rt;
        pair_on(
            WordCells::new(&mut words),
            turns.as_mut_slice(),
            PackedCells::new(&mut bytes),
            rows.as_mut_slice(),
        )
    );
    let a = "ok 0 0 [1, 1]";
    let b = "ok 0 0 [0, 1]";
    told(
        &rt,
        rt.alloc(),
        turns.as_slice(),
        &["ok", "ok", "ok", "ok", "ok", "ok", a, b],
    )?;
    told(
        &rt,
        rt.alloc(),
        rows.as_slice(),
        &["ok", "ok", "ok", b, "ok", "ok", "ok", a],
    )
}
