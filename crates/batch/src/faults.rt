//! Why lists of calls are not run: no plan, or a memory that does not fit.
ghost use Rattle.std.specs.Prelude.{◌≡◌, Some};
ghost use Rattle.batch.specs.Refusals.{load_ground, pair_ground};
ghost use Rattle.batch.specs.Sentences.{load_sentence, pair_sentence};
ghost use Rattle.batch.specs.declared.faults.LoadFault.TheVariants as load;
ghost use Rattle.batch.specs.declared.faults.PairFault.TheVariants as pair;

use fault::{Fault, Ground, ShortText};
use plan::PlanFault;
use rack::FitFault;
use std::error::Error;
use std::fmt;

/// Why no rack was made.
#[derive(Clone, Copy, PartialEq, Eq, Debug)]
pub enum LoadFault {
    /// k and the moduli make no plan.
    Plan(PlanFault),
    /// The number of slots is out of its range, or the memory does not fit.
    Rack(FitFault),
}

impl Fault for LoadFault {
    ghost meaning = { load_ground };

    ghost saying = { load_sentence };

    fn ground(&self) -> Ground {
        match self {
            LoadFault::Plan(fault) => fault.ground(),
            LoadFault::Rack(fault) => fault.ground(),
        }
    }

    fn sentence(&self) -> ShortText {
        match self {
            LoadFault::Plan(fault) => fault.sentence(),
            LoadFault::Rack(fault) => fault.sentence(),
        }
    }
}

impl fmt::Display for LoadFault {
    ghost output = { λ fault. Some (load_sentence fault) };

    fn fmt<W: fmt::Write>(&self, f: &mut fmt::Formatter<W>) -> fmt::Result {
        f.write_str(self.sentence().as_str())
    }
}

impl Error for LoadFault {}

impl From<PlanFault> for LoadFault {
    ghost from_gives = { λ cause fault. fault ≡ load.Plan cause };

    fn from(cause: PlanFault) -> LoadFault {
        LoadFault::Plan(cause)
    }
}

impl From<FitFault> for LoadFault {
    ghost from_gives = { λ cause fault. fault ≡ load.Rack cause };

    fn from(cause: FitFault) -> LoadFault {
        LoadFault::Rack(cause)
    }
}

/// Why no two racks were made.
#[derive(Clone, Copy, PartialEq, Eq, Debug)]
pub enum PairFault {
    /// k and the moduli make no plan.
    Plan(PlanFault),
    /// The first number of slots is out of its range, or the first memory does not fit.
    First(FitFault),
    /// The first fits; the second number of slots is out of its range, or the second memory does not fit.
    Second(FitFault),
}

impl From<PlanFault> for PairFault {
    ghost from_gives = { λ cause fault. fault ≡ pair.Plan cause };

    fn from(cause: PlanFault) -> PairFault {
        PairFault::Plan(cause)
    }
}

impl Fault for PairFault {
    ghost meaning = { pair_ground };

    ghost saying = { pair_sentence };

    fn ground(&self) -> Ground {
        match self {
            PairFault::Plan(fault) => fault.ground(),
            PairFault::First(fault) => fault.ground(),
            PairFault::Second(fault) => fault.ground(),
        }
    }

    fn sentence(&self) -> ShortText {
        match self {
            PairFault::Plan(fault) => fault.sentence(),
            PairFault::First(fault) => {
                ShortText::new("of the first rack, ").text(fault.sentence().as_str())
            }
            PairFault::Second(fault) => {
                ShortText::new("of the second rack, ").text(fault.sentence().as_str())
            }
        }
    }
}

impl fmt::Display for PairFault {
    ghost output = { λ fault. Some (pair_sentence fault) };

    fn fmt<W: fmt::Write>(&self, f: &mut fmt::Formatter<W>) -> fmt::Result {
        f.write_str(self.sentence().as_str())
    }
}

impl Error for PairFault {}
