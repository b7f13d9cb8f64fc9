//! The plan of the tour, what it makes of a message, and a list of moduli that is no plan.
ghost use Rattle.std.specs.Prelude.{◌≡◌, [], ◌∷◌, IfOk};
ghost use Rattle.plan.specs.Held.{scheme};
ghost use Rattle.plan.specs.Schemes.{word};

use crate::shown::Word;
use anyhow::anyhow;
use fault::Fault;
use field::Bits;
use plan::Plan;

/// Codes of a message under the plan of the tour.
pub(crate) const MESSAGE_CODES: usize = 2;

/// Codes of a word under it.
pub(crate) const WORD_CODES: usize = 7;

/// Over bits: z, z + 1, z^2 + z + 1 and z^3 + z + 1, nine codes each, lowest power first. The first two carry.
pub(crate) const MODULI: [u16; 36] = [
    0, 1, 0, 0, 0, 0, 0, 0, 0, 1, 1, 0, 0, 0, 0, 0, 0, 0, 1, 1, 1, 0, 0, 0, 0, 0, 0, 1, 1, 0, 1, 0,
    0, 0, 0, 0,
];

/// A plan, and the words of two messages under it.
#[derive(Drop)]
pub(crate) struct Sample {
    pub(crate) plan: Plan<Bits>,
    /// Of 1 1, the polynomial 1 + z.
    pub(crate) first: [u16; WORD_CODES],
    /// Of 0 1, the polynomial z.
    pub(crate) second: [u16; WORD_CODES],
}

fn word_of(plan: &Plan<Bits>, message: &[u16]) -> anyhow::Result<[u16; WORD_CODES]>
    ensures { IfOk result (λ codes. codes ≡ word (scheme plan.now) message.now) }
{
    let mut codes = [0; WORD_CODES];
    plan.encode(message, &mut codes).map_err(|fault| anyhow!(
        "the message has no word: {}",
        fault.ground()
    ))?;
    Ok(codes)
}

impl Sample {
    pub(crate) fn new() -> anyhow::Result<Sample>
        ensures first { IfOk result (λ sample. sample.first ≡ word (scheme sample.plan) (1 ∷ 1 ∷ [])) }
        ensures second { IfOk result (λ sample. sample.second ≡ word (scheme sample.plan) (0 ∷ 1 ∷ [])) }
    {
        let plan = Plan::<Bits>::new(2, &MODULI).map_err(|fault| anyhow!(
            "the moduli make no plan: {}",
            fault.ground()
        ))?;
        let first = word_of(&plan, &[1, 1])?;
        let second = word_of(&plan, &[0, 1])?;
        Ok(Sample {
            plan,
            first,
            second,
        })
    }
}

/// Two moduli that share a factor make no plan.
fn show_refusal<R: Print>(rt: &R) -> anyhow::Result<()> {
    let moduli = [1, 1, 0, 0, 0, 0, 0, 0, 0, 1, 0, 1, 0, 0, 0, 0, 0, 0];
    match Plan::<Bits>::new(1, &moduli) {
        Ok(_) => println!(rt; "  z + 1 and z^2 + 1 make a plan over bits.")?,
        Err(fault) => println!(rt;
            "  z + 1 and z^2 + 1 = (z + 1)(z + 1) make no plan over bits: {}",
            fault.ground()
        )?,
    }
    Ok(())
}

/// Says what a plan is made of, what it makes of a message, and what makes no plan.
pub(crate) fn show_plans<R: Print>(rt: &R, sample: &Sample) -> anyhow::Result<()> {
    let plan = &sample.plan;
    let positions = plan.positions();
    let carriers = plan.carriers();
    let message_length = plan.message_length();
    let word_length = plan.word_length();
    let word = Word {
        plan,
        codes: &sample.first,
    };
    println!(rt; "Plans: a message is carried as its remainders by moduli that share no factor.")?;
    println!(rt;
        "  Over bits, {positions} moduli, of which the first {carriers} carry the message and the others guard it:"
    )?;
    println!(rt; "  a message has {message_length} codes and its word {word_length}.")?;
    println!(rt; "  The message 1 1, the polynomial 1 + z, has the word {word}")?;
    show_refusal(rt)
}
