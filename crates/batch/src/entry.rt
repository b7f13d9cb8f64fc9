//! A list of calls is written as entries: a call, and room for how it ended.
ghost use Rattle.std.specs.Prelude.{◌≡◌, None};

use rack::{Answer, Call, RackFault};

/// A call with a place for its outcome, so that running a list of calls allocates nothing.
#[derive(Drop)]
pub struct Entry {
    pub call: Call,
    /// How the call ended; overwritten when it is run.
    pub outcome: Option<Result<Answer, RackFault>>,
}

impl Entry {
    /// A call that is still to be run.
    pub fn new(call: Call) -> Entry
        ensures { result ≡ record { call = call; outcome = None } }
    {
        Entry {
            call,
            outcome: None,
        }
    }
}
