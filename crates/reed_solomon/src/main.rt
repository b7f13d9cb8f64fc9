//! Compares the library with Reed-Solomon words: under the moduli z − a for distinct points a, a word is the
//! message's values at the points. An unrelated program made the words, the damaged copies of them, and what
//! a reader should answer to each:
//!
//!     python3 tools/reed_solomon.py > crates/reed_solomon/stdin 2> crates/reed_solomon/stdout
//!
//! The script says what a line of the input holds.
#![tactic(auto)]

ghost use Rattle.std.specs.Prelude.{◌≡◌, ◌∷◌, replicate};

use anyhow::{Context, anyhow};
use fault::Fault;
use field::{Bytes, Clock, Field};
use numbers::Numbers;
use plan::{MODULUS_CODES, MOST_POSITIONS, Plan};
use reader::{Arrived, ReaderFault, Reading, received};
use std::alloc::Global;
use std::fmt;

/// What the script expects a reader to answer where it reads.
#[derive(Drop)]
struct Expected {
    message: Vec<u16>,
    margin: i32,
    wrong: usize,
}

/// A reading by what can be seen of it, whoever answers it.
#[derive(Clone, Copy, PartialEq, Eq)]
struct Decoded<'a> {
    message: &'a [u16],
    margin: i32,
    wrong: usize,
}

type Answer<'a> = Result<Decoded<'a>, ReaderFault>;

fn seen(answer: &Result<Reading, ReaderFault>) -> Answer<'_> {
    match answer {
        Ok(reading) => Ok(Decoded {
            message: reading.codes(),
            margin: reading.margin,
            wrong: reading.wrong,
        }),
        Err(fault) => Err(*fault),
    }
}

fn told(answer: &Result<Expected, ReaderFault>) -> Answer<'_> {
    match answer {
        Ok(reading) => Ok(Decoded {
            message: &reading.message,
            margin: reading.margin,
            wrong: reading.wrong,
        }),
        Err(fault) => Err(*fault),
    }
}

/// A copy of a word with some positions missing and some wrong.
#[derive(Drop)]
struct Damaged {
    /// Its number in its line, counted from 0.
    number: usize,
    codes: Vec<u16>,
    present: [bool; MOST_POSITIONS],
    /// The margin of the message that was sent.
    margin: i32,
    answer: Result<Expected, ReaderFault>,
}

/// A message with its word, and copies of that.
#[derive(Drop)]
struct Case {
    /// Its line of the input, counted from 0.
    line: usize,
    carriers: usize,
    points: Vec<u16>,
    negatives: Vec<u16>,
    message: Vec<u16>,
    word: Vec<u16>,
    copies: Vec<Damaged>,
}

/// A part of a line or a word of a part, which must be there.
fn part<'a>(text: Option<&'a str>) -> anyhow::Result<&'a str> {
    text.context("a part is missing")
}

fn codes(heap: Global, text: &str) -> anyhow::Result<Vec<u16>> {
    let mut codes = Vec::new(heap);
    for word in text.split_whitespace() {
        codes.push(word.parse::<u16>()?)?;
    }
    Ok(codes)
}

fn refusal(text: &str) -> anyhow::Result<ReaderFault> {
    let mut words = text.split_whitespace();
    match words.next() {
        Some("18") => Ok(ReaderFault::TooMuchMissing(part(words.next())?.parse::<usize>()?)),
        Some("19") => Ok(ReaderFault::NoMessage),
        _ => Err(anyhow!("no such ground")),
    }
}

fn reading(heap: Global, text: &str) -> anyhow::Result<Expected> {
    let mut words = text.split_whitespace();
    let margin = part(words.next())?.parse::<i32>()?;
    let wrong = part(words.next())?.parse::<usize>()?;
    let mut message = Vec::new(heap);
    for word in words {
        message.push(word.parse::<u16>()?)?;
    }
    Ok(Expected {
        message,
        margin,
        wrong,
    })
}

fn answer(heap: Global, text: &str) -> anyhow::Result<Result<Expected, ReaderFault>> {
    match text.trim().split_once(' ') {
        Some(("reads", rest)) => Ok(Ok(reading(heap, rest)?)),
        Some(("no", rest)) => Ok(Err(refusal(rest)?)),
        _ => Err(anyhow!("no such answer")),
    }
}

impl Damaged {
    fn parse(heap: Global, number: usize, text: &str) -> anyhow::Result<Damaged> {
        let mut parts = text.split(':');
        let mut codes = Vec::new(heap);
        let mut present = [false; MOST_POSITIONS];
        for (flag, word) in present
            .iter_mut()
            .zip(part(parts.next())?.split_whitespace())
        {
            *flag = word != "-";
            codes.push(if *flag { word.parse::<u16>()? } else { 0 })?;
        }
        Ok(Damaged {
            number,
            codes,
            present,
            margin: part(parts.next())?.trim().parse::<i32>()?,
            answer: answer(heap, part(parts.next())?)?,
        })
    }
}

impl Case {
    /// What follows the field on a line.
    fn parse(heap: Global, line: usize, text: &str) -> anyhow::Result<Case> {
        let mut parts = text.split('|');
        let carriers = part(parts.next())?.trim().parse::<usize>()?;
        let points = codes(heap, part(parts.next())?)?;
        let negatives = codes(heap, part(parts.next())?)?;
        let message = codes(heap, part(parts.next())?)?;
        let word = codes(heap, part(parts.next())?)?;
        let mut copies = Vec::new(heap);
        for (number, copy) in parts.enumerate() {
            copies.push(Damaged::parse(heap, number, copy)?)?;
        }
        Ok(Case {
            line,
            carriers,
            points,
            negatives,
            message,
            word,
            copies,
        })
    }
}

/// z − a, given the negative of a.
fn modulus(negative: u16) -> [u16; MODULUS_CODES]
    ensures { result ≡ negative ∷ 1 ∷ replicate 7 0 }
{
    let mut modulus = [0; MODULUS_CODES];
    modulus[0] = negative;
    modulus[1] = 1;
    modulus
}

/// An answer under a plan: as the input writes it, but a refusal as every refusal is shown.
#[derive(Clone, Copy)]
struct Answered<'a>(Answer<'a>);

impl<'a> fmt::Display for Answered<'a> {
    fn fmt<W: fmt::Write>(&self, f: &mut fmt::Formatter<W>) -> fmt::Result {
        match self.0 {
            Ok(reading) => {
                let codes = Numbers(reading.message);
                write!(f, "reads {} {}{codes}", reading.margin, reading.wrong)
            }
            Err(fault) => write!(f, "{}", fault.ground()),
        }
    }
}

/// How often the library answered as the script expects, by what it answered, and how often otherwise.
#[derive(Clone, Copy, Default)]
struct Tally {
    words: u32,
    read_back: u32,
    read_as_another: u32,
    too_much_missing: u32,
    no_message: u32,
    disagreements: u32,
}

// Saturating, so that no proof has to bound how often each thing happens.
fn more(count: &mut u32) {
    *count = count.saturating_add(1);
}

impl Tally {
    /// Counts an answer that is the expected one.
    fn count(&mut self, sent: &[u16], answer: &Answer) {
        more(match answer {
            Ok(reading) if reading.message == sent => &mut self.read_back,
            Ok(_) => &mut self.read_as_another,
            Err(ReaderFault::TooMuchMissing(_)) => &mut self.too_much_missing,
            Err(ReaderFault::NoMessage) => &mut self.no_message,
        });
    }
}

impl fmt::Display for Tally {
    fn fmt<W: fmt::Write>(&self, f: &mut fmt::Formatter<W>) -> fmt::Result {
        write!(
            f,
            "{} words equal, {} copies read back, {} read as another message, {} refused on 18, {} refused on 19, {} disagreements",
            self.words,
            self.read_back,
            self.read_as_another,
            self.too_much_missing,
            self.no_message,
            self.disagreements
        )
    }
}

impl Case {
    /// Whether the field has the negatives that the script computed.
    fn has_negatives<F: Field>(&self) -> bool {
        self.points
            .iter()
            .map(|&point| F::negative(point))
            .eq(self.negatives.iter().copied())
    }

    fn moduli(&self, heap: Global) -> anyhow::Result<Vec<u16>> {
        let mut moduli = Vec::new(heap);
        for &negative in &self.negatives {
            moduli.extend_from_slice(&modulus(negative))?;
        }
        Ok(moduli)
    }

    /// Encodes the message, and holds its word against the script's.
    fn compare_word<F: Field, R: Print + AllocGlobal>(
        &self,
        rt: &R,
        plan: &Plan<F>,
        tally: &mut Tally,
    ) -> anyhow::Result<()> {
        let mut word = vec![in rt.alloc(); 0; plan.word_length()]?;
        match plan.encode(&self.message, &mut word) {
            Ok(()) if word == self.word => more(&mut tally.words),
            Ok(()) => {
                more(&mut tally.disagreements);
                let (came, expected) = (Numbers(&word), Numbers(&self.word));
                println!(rt; "line {}: the word is{came}, expected{expected}", self.line)?;
            }
            Err(fault) => {
                more(&mut tally.disagreements);
                println!(rt; "line {}: no word, {}", self.line, fault.ground())?;
            }
        }
        Ok(())
    }

    /// Measures and reads a copy, and holds both answers against the script's.
    fn compare_copy<'a, F: Field, R: Print>(
        &'a self,
        rt: &R,
        plan: &'a Plan<F>,
        copy: &'a Damaged,
        tally: &mut Tally,
    ) -> anyhow::Result<()> {
        let (line, number) = (self.line, copy.number);
        let residues = received(plan, &copy.codes, &copy.present);
        let arrived = Arrived {
            plan,
            residues: &residues,
        };
        let margin = arrived.measure(&self.message);
        if margin != copy.margin {
            more(&mut tally.disagreements);
            println!(rt;
                "line {line}, copy {number}: margin {margin}, expected {}",
                copy.margin
            )?;
        }
        let answer = arrived.read();
        let (came, expected) = (seen(&answer), told(&copy.answer));
        if came == expected {
            tally.count(&self.message, &came);
        } else {
            more(&mut tally.disagreements);
            let (came, expected) = (Answered(came), Answered(expected));
            println!(rt; "line {line}, copy {number}: {came}, expected {expected}")?;
        }
        Ok(())
    }

    fn compare<F: Field, R: Print + AllocGlobal>(
        &self,
        rt: &R,
        tally: &mut Tally,
    ) -> anyhow::Result<()> {
        if !self.has_negatives::<F>() {
            more(&mut tally.disagreements);
            println!(rt; "line {}: other negatives", self.line)?;
        }
        let moduli = self.moduli(rt.alloc())?;
        match Plan::<F>::new(self.carriers, &moduli) {
            Ok(plan) => {
                self.compare_word(rt, &plan, tally)?;
                for copy in &self.copies {
                    self.compare_copy(rt, &plan, copy, tally)?;
                }
            }
            Err(fault) => {
                more(&mut tally.disagreements);
                println!(rt; "line {}: no plan, {}", self.line, fault.ground())?;
            }
        }
        Ok(())
    }
}

#[derive(Clone, Copy, Default)]
struct Tallies {
    bytes: Tally,
    clock: Tally,
}

fn compare<R: Print + AllocGlobal>(
    rt: &R,
    line: usize,
    text: &str,
    tallies: &mut Tallies,
) -> anyhow::Result<()> {
    let mut parts = text.splitn(2, '|');
    let field = part(parts.next())?.trim();
    let case = Case::parse(rt.alloc(), line, part(parts.next())?)?;
    match field {
        "bytes" => case.compare::<Bytes, R>(rt, &mut tallies.bytes),
        "clock" => case.compare::<Clock, R>(rt, &mut tallies.clock),
        _ => Err(anyhow!("no such field")),
    }
}

fn run(rt: &HostRuntime) -> anyhow::Result<()> {
    let mut tallies = Tallies::default();
    for (line, text) in rt.lines(rt.alloc()).enumerate() {
        compare(rt, line, text?.as_str(), &mut tallies).context(format_args!("line {line}"))?;
    }
    println!(rt; "bytes: {}", tallies.bytes)?;
    println!(rt; "clock: {}", tallies.clock)?;
    Ok(())
}

fn main(rt: HostRuntime) -> anyhow::Result<()> {
    run(&rt)
}
