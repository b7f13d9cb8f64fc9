//! Draws plans over the three fields, with moduli of mixed degree, reducible ones among them; encodes
//! messages, strikes and damages their words, and holds the reader against the margin of what was sent and
//! against a search over all messages. The draws are fixed, so the counts are too.
#![tactic(auto)]

ghost use Rattle.std.specs.Prelude.{◌<◌};

use arrayvec::ArrayVec;
use field::{Bits, Bytes, Clock, Field};
use plan::{MODULUS_CODES, MOST_POSITIONS, MOST_TOTAL, Plan};
use reader::{Arrived, ReaderFault, Reading, received};
use std::array;

/// Words of two to six positions are drawn.
const MOST_DRAWN: u16 = 6;

/// The codes of so many moduli.
const DRAWN_CODES: usize = MOST_DRAWN as usize * MODULUS_CODES;

/// A message or a word. No plan has one of more codes, so nothing is allocated and no memory can be wanting.
type Codes = ArrayVec<u16, MOST_TOTAL>;

/// A search goes over this many messages at most.
const MOST_SEARCHED: u64 = 1024;

/// Numbers that follow from the first one.
#[derive(Drop)]
struct Draws {
    state: u64,
}

impl Draws {
    /// A number below the bound; 0 where there is none.
    fn below(&mut self, bound: u16) -> u16
        ensures { 0 < bound → result < bound }
    {
        self.state = self
            .state
            .wrapping_mul(6364136223846793005)
            .wrapping_add(1442695040888963407);
        if bound == 0 {
            return 0;
        }
        ((self.state >> 33) % u64::from(bound)) as u16
    }

    fn one_in(&mut self, many: u16) -> bool {
        self.below(many) == 0
    }
}

/// What came of the trials.
#[derive(Clone, Copy, Default)]
struct Counts {
    plans: u32,
    no_plans: u32,
    read: u32,
    missed: u32,
    refused: u32,
    other: u32,
    false_other: u32,
    searched: u32,
    search_differs: u32,
}

// Saturating, so that no proof has to bound how often each thing happens.
fn more(count: &mut u32) {
    *count = count.saturating_add(1);
}

/// What came of one reading.
#[derive(Clone, Copy)]
enum Outcome {
    Read,
    Missed,
    Refused,
    Other,
    FalseOther,
}

impl Counts {
    fn count(&mut self, outcome: Outcome) {
        more(match outcome {
            Outcome::Read => &mut self.read,
            Outcome::Missed => &mut self.missed,
            Outcome::Refused => &mut self.refused,
            Outcome::Other => &mut self.other,
            Outcome::FalseOther => &mut self.false_other,
        });
    }
}

/// A modulus of degree 1 to 4 with leading code 1.
fn draw_modulus<F: Field>(draws: &mut Draws) -> [u16; MODULUS_CODES] {
    let mut modulus = [0; MODULUS_CODES];
    let degree = 1 + usize::from(draws.below(4));
    for code in modulus.iter_mut().take(degree) {
        *code = draws.below(F::ORDER);
    }
    modulus[degree] = 1;
    modulus
}

fn draw_moduli<F: Field>(draws: &mut Draws, positions: u16) -> ArrayVec<u16, DRAWN_CODES> {
    let mut codes = ArrayVec::from([0; DRAWN_CODES]);
    codes.truncate(usize::from(positions).saturating_mul(MODULUS_CODES));
    let (moduli, _) = codes.as_mut_slice().as_chunks_mut::<MODULUS_CODES>();
    for modulus in moduli.iter_mut() {
        *modulus = draw_modulus::<F>(draws);
    }
    codes
}

/// So many codes of 0.
fn zeros(length: usize) -> Codes {
    let mut codes = Codes::from([0; MOST_TOTAL]);
    codes.truncate(length);
    codes
}

fn draw_message<F: Field>(draws: &mut Draws, length: usize) -> Codes {
    let mut message = zeros(length);
    for code in message.as_mut_slice().iter_mut() {
        *code = draws.below(F::ORDER);
    }
    message
}

/// Changes a code of some positions, now and then to a number that is no code.
fn damage<F: Field>(plan: &Plan<F>, draws: &mut Draws, word: &mut [u16]) {
    for i in 0..plan.positions() {
        if draws.one_in(4) {
            if let Some(code) = word.get_mut(plan.start(i)) {
                *code = if draws.one_in(5) {
                    F::ORDER
                } else {
                    F::sum(*code, 1)
                };
            }
        }
    }
}

/// Calls some positions missing; the others are present. `received` takes a flag for each position that a
/// plan can have.
fn strike(draws: &mut Draws) -> [bool; MOST_POSITIONS] {
    array::from_fn(|_| !draws.one_in(5))
}

/// The message whose codes are the digits of a number in base q.
fn message_number<F: Field>(mut number: u64, length: usize) -> Codes {
    let order = u64::from(F::ORDER);
    let mut message = zeros(length);
    for code in message.as_mut_slice().iter_mut() {
        *code = (number % order) as u16;
        number /= order;
    }
    message
}

/// How many messages there are, as far as a `u64` counts.
fn messages<F: Field>(plan: &Plan<F>) -> u64 {
    (0..plan.message_length()).fold(1u64, |count, _| count.saturating_mul(u64::from(F::ORDER)))
}

/// The messages that a search finds within the allowance.
#[derive(Drop)]
enum Found {
    Nothing,
    Only(Codes),
    Several,
}

impl Found {
    /// One message more.
    fn and(self, message: Codes) -> Found {
        match self {
            Found::Nothing => Found::Only(message),
            Found::Only(_) | Found::Several => Found::Several,
        }
    }

    /// Whether just what was read is found.
    fn agrees(&self, answer: &Result<Reading, ReaderFault>) -> bool {
        match answer {
            Ok(reading) => self.is_only(reading.codes()),
            Err(_) => matches!(self, Found::Nothing),
        }
    }

    /// Whether these codes are found, and nothing else.
    fn is_only(&self, codes: &[u16]) -> bool {
        match self {
            Found::Only(message) => message.as_slice() == codes,
            Found::Nothing | Found::Several => false,
        }
    }
}

/// The messages within the allowance, by trying all of them.
fn search<F: Field>(arrived: &Arrived<F>) -> Found {
    let mut found = Found::Nothing;
    for number in 0..messages(arrived.plan) {
        let message = message_number::<F>(number, arrived.plan.message_length());
        if arrived.measure(message.as_slice()) >= 0 {
            found = found.and(message);
        }
    }
    found
}

/// Holds one reading against the message that was sent.
fn judge<F: Field>(
    arrived: &Arrived<F>,
    sent: &[u16],
    answer: &Result<Reading, ReaderFault>,
) -> Outcome {
    let margin = arrived.measure(sent);
    match answer {
        Ok(reading) => judge_reading(arrived, sent, margin, reading),
        Err(_) => {
            if margin >= 0 {
                Outcome::Missed
            } else {
                Outcome::Refused
            }
        }
    }
}

/// How a reading compares with the message that was sent, whose margin is told.
fn judge_reading<F: Field>(
    arrived: &Arrived<F>,
    sent: &[u16],
    margin: i32,
    reading: &Reading,
) -> Outcome {
    if margin >= 0 {
        return if reading.codes() == sent && reading.margin == margin {
            Outcome::Read
        } else {
            Outcome::Missed
        };
    }
    let own = arrived.measure(reading.codes());
    if reading.margin >= 0 && own == reading.margin {
        Outcome::Other
    } else {
        Outcome::FalseOther
    }
}

/// Reads what has arrived, and holds it against the message that was sent and against the search where that is short.
fn read<F: Field>(arrived: &Arrived<F>, sent: &[u16], counts: &mut Counts) {
    let answer = arrived.read();
    counts.count(judge(arrived, sent, &answer));
    if messages(arrived.plan) <= MOST_SEARCHED {
        more(&mut counts.searched);
        if !search(arrived).agrees(&answer) {
            more(&mut counts.search_differs);
        }
    }
}

/// One plan, one message, one damaged word.
fn trial<F: Field>(draws: &mut Draws, counts: &mut Counts) {
    let extra = draws.below(MOST_DRAWN - 1);
    let positions = extra.saturating_add(2);
    let carriers = 1 + usize::from(draws.below(extra.saturating_add(1)));
    let codes = draw_moduli::<F>(draws, positions);
    let Ok(plan) = Plan::<F>::new(carriers, codes.as_slice()) else {
        more(&mut counts.no_plans);
        return;
    };
    more(&mut counts.plans);
    let message = draw_message::<F>(draws, plan.message_length());
    let mut word = zeros(plan.word_length());
    if plan
        .encode(message.as_slice(), word.as_mut_slice())
        .is_err()
    {
        more(&mut counts.missed);
        return;
    }
    damage(&plan, draws, word.as_mut_slice());
    let residues = received(&plan, word.as_slice(), &strike(draws));
    let arrived = Arrived {
        plan: &plan,
        residues: &residues,
    };
    read(&arrived, message.as_slice(), counts);
}

fn run<F: Field, R: Print>(rt: &R, name: &str, trials: u32) -> anyhow::Result<()> {
    let mut draws = Draws { state: 2026 };
    let mut counts = Counts::default();
    for _ in 0..trials {
        trial::<F>(&mut draws, &mut counts);
    }
    println!(rt;
        "{name}: {} plans, {} refused",
        counts.plans, counts.no_plans
    )?;
    println!(rt;
        "  within the allowance: {} read, {} missed",
        counts.read, counts.missed
    )?;
    println!(rt;
        "  beyond it: {} refused, {} another message within, {} falsely read",
        counts.refused, counts.other, counts.false_other
    )?;
    println!(rt;
        "  searched over all messages: {}, of which {} differ",
        counts.searched, counts.search_differs
    )?;
    Ok(())
}

fn main(rt: HostRuntime) -> anyhow::Result<()> {
    run::<Bits, HostRuntime>(&rt, "bits", 3000)?;
    run::<Bytes, HostRuntime>(&rt, "bytes", 1000)?;
    run::<Clock, HostRuntime>(&rt, "clock", 1000)
}
