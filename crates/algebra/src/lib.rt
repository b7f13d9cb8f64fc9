//! The algebra that the other crates stand on: finite fields by their codes, and polynomials over them by
//! their coefficients. Its definitions are in specs/, its theorems in proofs/. The functions here do nothing:
//! each asks for a theorem.
#![tactic(auto)]

ghost use Rattle.algebra.specs.Theorems.{CodesFormAField, DivisionIsUnique, CoprimeOrShared, ResiduesJoin};
ghost use Rattle.algebra.specs.Theorems.{EuclidStops, ReconstructionStands, EveryMessageIsFound, OneMessageAtMost};
ghost use Rattle.algebra.specs.Theorems.{ReductionIsRemainder, ByteProductIsRemainder};

/// The laws on codes make the codes below the order a field.
pub fn codes_form_a_field()
    ensures { CodesFormAField }
{}

/// Division with remainder exists, and there is only one.
pub fn division_is_unique()
    ensures { DivisionIsUnique }
{}

/// Two polynomials share a factor or are coprime.
pub fn coprime_or_shared()
    ensures { CoprimeOrShared }
{}

/// The Chinese remainder theorem.
pub fn residues_join()
    ensures { ResiduesJoin }
{}

/// Euclid's extended algorithm reaches the remainder that a reader needs.
pub fn euclid_stops()
    ensures { EuclidStops }
{}

/// That remainder is a multiple of the message by a known factor, whatever the errors within half the redundancy.
pub fn reconstruction_stands()
    ensures { ReconstructionStands }
{}

/// So every message within reach is found, from the residues that are present.
pub fn every_message_is_found()
    ensures { EveryMessageIsFound }
{}

/// No two messages explain the same residues within the redundancy.
pub fn one_message_at_most()
    ensures { OneMessageAtMost }
{}

/// Reducing a bit polynomial answers its remainder, and there is only one.
pub fn reduction_is_remainder()
    ensures { ReductionIsRemainder }
{}

/// The product of two bytes is the remainder of their product as bit polynomials by 0x11D.
pub fn byte_product_is_remainder()
    ensures { ByteProductIsRemainder }
{}
