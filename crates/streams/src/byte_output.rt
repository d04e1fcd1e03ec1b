//! Bytes that go outside, to an output that may fail.
ghost use Rattle.std.specs.Prelude.{◌<◌, ℕ, length, List, IfOk, OnErr, OnOk, Option, None, ⊤};
ghost use Rattle.std.specs.Io.{WritesAtMost};
ghost use Rattle.std.specs.Io.KnownBytes.{Appends, Keeps, WriteAppends};
ghost use Rattle.streams.specs.ByteInput.{CountsRefusal};

use crate::byte_input::Failed;
use std::io::{ErrorKind, Write};

/// An output of bytes, one after another.
pub trait ByteOutput {
    // The bytes that it has taken, as far as it tells.
    ghost contents: { Self → Option (List ℕ) };

    // How often it has failed, if that is counted.
    ghost failures: { Self → Option ℕ } = { λ _. None };

    // A write has failed, as far as it tells.
    ghost lost: { Self → Type 0 } = { λ _. ⊤ };

    /// Takes bytes from the front of `buf`, and answers how many they are: none only if there are none. Refused if the
    /// output failed, which then takes none.
    fn write(&mut self, buf: &[u8]) -> Result<usize, Failed>
        ensures bound { WritesAtMost result buf.now }
        ensures some { IfOk result (λ n. 0 < length buf.now → 0 < n) }
        ensures bytes { WriteAppends (contents self.old) (contents self.new) result buf.now }
        ensures failures { CountsRefusal (failures self.old) (failures self.new) result }
        ensures lost { OnErr result (lost self.new) };

    /// Hands on what it has taken.
    fn flush(&mut self) -> Result<(), Failed>
        ensures bytes { Keeps (contents self.old) (contents self.new) }
        ensures failures { CountsRefusal (failures self.old) (failures self.new) result }
        ensures lost { OnErr result (lost self.new) };
}

/// Every writer is an output. What it has taken is told as far as the writer knows it, and its failures aren't counted.
/// A write that was interrupted is made again; a writer that takes none of some bytes has failed, and so has one that is
/// interrupted `u64::MAX` times in one call.
impl<W: Write> ByteOutput for W {
    ghost contents = { λ w. W.contents w };

    /// Writes bytes from the front of `buf`, and answers how many were taken; tries again after an interruption.
    fn write(&mut self, buf: &[u8]) -> Result<usize, Failed> {
        'tries: for _ in 0..u64::MAX {
            match Write::write(self, buf) {
                Ok(0) if !buf.is_empty() => return Err(Failed),
                Ok(count) => return Ok(count),
                Err(error) if error.kind() == ErrorKind::Interrupted => {}
                Err(_) => return Err(Failed),
            }
        }
        Err(Failed)
    }

    /// Flushes the writer.
    fn flush(&mut self) -> Result<(), Failed> {
        match Write::flush(self) {
            Ok(()) => Ok(()),
            Err(_) => Err(Failed),
        }
    }
}

/// Writes all these bytes, one write after another. Refused if one of them failed; how much was taken by then isn't
/// said.
pub fn write_all<O: ByteOutput>(to: &mut O, bytes: &[u8]) -> Result<(), Failed>
    ensures bytes { OnOk result (Appends (O.contents to.old) (O.contents to.new) bytes.now) }
    ensures lost { OnErr result (O.lost to.new) }
{
    let mut rest = bytes;
    'rest: while !rest.is_empty() {
        let count = to.write(rest)?;
        rest = &rest[count..];
    }
    Ok(())
}
