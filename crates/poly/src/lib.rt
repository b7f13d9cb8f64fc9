//! Polynomials on slices of codes, lowest power first, over any field: inner work, so each function asks for
//! codes of the field and for buffers that fit. Nothing is allocated. Slices and no type of their own: they
//! are parts of what callers hold, whole buffers too are handed on in parts, and a type would ask at each
//! call, where it is made, for the same codes.
#![tactic(auto)]

mod degrees;
mod divisions;
mod divisors;
mod products;
mod remainders;
mod steps;
mod sums;

pub use degrees::{degree, significant};
pub use divisions::divide;
pub use divisors::{CAPACITY, coprime, gcd};
pub use products::{multiply, subtract_product};
pub use remainders::reduce;
pub use steps::Euclid;
pub use sums::{add_scaled, add_to, subtract_from};
