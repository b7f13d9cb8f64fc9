//! What a sheet is read from, and what its lines are written to. Of std's readers and writers no clause says
//! when they fail; these two say it, so that a function over any of them cannot make up an error.
ghost use Rattle.std.specs.Prelude.{◌≡◌, ℕ, ◌<◌, ◌≤◌, List, Option, IfOk, IfErr, length, ⊤};
ghost use Rattle.std.specs.Io.KnownBytes.{Keeps, ReadConsumes, WriteAppends};
ghost use Rattle.std.specs.declared.io.Error.{Error};

use std::io::{self, ErrorKind, Read, Write};

/// What a sheet is read from. Every std reader is one.
pub trait Source {
    /// The bytes that are still to come, where they are known.
    ghost left: { Self → Option (List ℕ) };

    /// Asked for bytes, it may fail by this error.
    ghost fails: { Self → Error → Self → Type 0 };

    /// Puts bytes at the front of the buffer, and answers how many: none only at the end, or where the buffer
    /// has no room.
    fn take_some(&mut self, buffer: &mut [u8]) -> io::Result<usize>
        ensures within { IfOk result (λ n. n ≤ length buffer.new) }
        ensures bytes { ReadConsumes (left self.old) (left self.new) result buffer.new }
        ensures failed { IfErr result (λ error. fails self.old error self.new) };
}

/// What lines are written to. Every std writer is one.
pub trait Sink {
    /// The bytes that it holds, where they are known.
    ghost holds: { Self → Option (List ℕ) };

    /// Handed bytes, or asked to send them on, it may fail by this error.
    ghost fails: { Self → Error → Self → Type 0 };

    /// Takes bytes from the front, at least one where there is one, and answers how many.
    fn put_some(&mut self, bytes: &[u8]) -> io::Result<usize>
        ensures within { IfOk result (λ n. n ≤ length bytes.now) }
        ensures some { IfOk result (λ n. 0 < length bytes.now → 0 < n) }
        ensures bytes { WriteAppends (holds self.old) (holds self.new) result bytes.now }
        ensures failed { IfErr result (λ error. fails self.old error self.new) };

    /// Sends on what it took.
    fn send(&mut self) -> io::Result<()>
        ensures bytes { Keeps (holds self.old) (holds self.new) }
        ensures failed { IfErr result (λ error. fails self.old error self.new) };
}

impl<R: Read> Source for R {
    ghost left = { R.remaining };

    ghost fails = { λ _ _ _. ⊤ };

    // An interrupted read is made again. A reader of unknown bytes may be interrupted for ever.
    fn take_some(&mut self, buffer: &mut [u8]) -> io::Result<usize> {
        for _ in 0..u64::MAX {
            match self.read(buffer) {
                Err(error) if error.kind() == ErrorKind::Interrupted => {}
                answer => return answer,
            }
        }
        Err(io::Error::from(ErrorKind::Interrupted))
    }
}

impl<W: Write> Sink for W {
    ghost holds = { W.contents };

    ghost fails = { λ _ _ _. ⊤ };

    // A writer that takes none of some bytes is full.
    fn put_some(&mut self, bytes: &[u8]) -> io::Result<usize> {
        for _ in 0..u64::MAX {
            match self.write(bytes) {
                Ok(0) if !bytes.is_empty() => return Err(io::Error::from(ErrorKind::WriteZero)),
                Err(error) if error.kind() == ErrorKind::Interrupted => {}
                answer => return answer,
            }
        }
        Err(io::Error::from(ErrorKind::Interrupted))
    }

    fn send(&mut self) -> io::Result<()> {
        self.flush()
    }
}
