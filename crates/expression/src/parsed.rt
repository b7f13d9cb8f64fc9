//! What a reader answers: what it read, or where it stopped.

/// What was read, and the place after it.
#[derive(Clone, Copy, Drop)]
pub struct Parsed<T> {
    pub value: T,
    pub end: usize,
}

/// Where nothing was read: the first place at which what should stand there does not go on.
#[derive(Clone, Copy, PartialEq, Eq, Debug)]
pub struct Stop {
    pub place: usize,
}
