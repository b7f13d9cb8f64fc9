//! A call that was run, and the line that says how it ended.
ghost use Rattle.std.specs.Prelude.{◌≤◌, length};
ghost use Rattle.rack.specs.Racks.{given_by};
ghost use Rattle.transcript.specs.Buffers.{buffer_in};
ghost use Rattle.plan.specs.Limits.{most_total};

use rack::{Answer, Call, RackFault};

/// A call that was run, and how it ended. Its buffer holds no more codes than a word.
#[derive(Drop)]
pub struct Ended {
    pub call: Call,
    pub outcome: Result<Answer, RackFault>,
    ghost short: { length (buffer_in (given_by call)) ≤ most_total },
}
