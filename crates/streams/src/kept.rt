//! An output with the bytes that it took.
ghost use Rattle.std.specs.Prelude.{◌≡◌, ◌++◌, ◌<◌, [], Some, IfOk, length, take, MatchResult, true, false};
ghost use Rattle.std.specs.Io.{WritesAtMost};
ghost use Rattle.std.specs.Io.KnownBytes.{Keeps, WriteAppends};
ghost use Rattle.streams.specs.ByteInput.{CountsRefusal};

use crate::byte_input::Failed;
use crate::byte_output::ByteOutput;
use crate::log::Log;

/// An output, all bytes that it has taken since it was made, and whether it has failed since then.
#[derive(Drop)]
pub struct Kept<O> {
    inner: O,
    failed: bool,
    log: Log,
}

impl<O: ByteOutput> Kept<O> {
    /// Begins to note what `inner` takes.
    pub fn new(inner: O) -> Kept<O>
        ensures none { result.log.bytes ≡ [] }
        ensures sound { result.failed ≡ false }
        ensures inner { result.inner ≡ inner }
    {
        Kept {
            inner,
            failed: false,
            log: Log::new(),
        }
    }
}

/// What it has taken is known, whatever the output is, and so is whether it has failed.
impl<O: ByteOutput> ByteOutput for Kept<O> {
    ghost contents = { λ w. Some w.log.bytes };

    ghost failures = { λ w. O.failures w.inner };

    ghost lost = { λ w. w.failed ≡ true };

    /// Writes to the output, and notes what it took, or that it failed.
    fn write(&mut self, buf: &[u8]) -> Result<usize, Failed>
        ensures bound { WritesAtMost result buf.now }
        ensures some { IfOk result (λ n. 0 < length buf.now → 0 < n) }
        ensures bytes { MatchResult result (λ n. self.new.log.bytes ≡ self.old.log.bytes ++ take n buf.now)
            (λ _. self.new.log.bytes ≡ self.old.log.bytes) }
        ensures failures { CountsRefusal (O.failures self.old.inner) (O.failures self.new.inner) result }

        // It has failed if it had, or if this write fails.
        ensures lost { MatchResult result (λ _. self.new.failed ≡ self.old.failed) (λ _. self.new.failed ≡ true) }

        // What the output holds, if that is known, grows by the same bytes.
        ensures handed { WriteAppends (O.contents self.old.inner) (O.contents self.new.inner) result buf.now }
    {
        match self.inner.write(buf) {
            Ok(count) => {
                self.log.note(&buf[..count]);
                Ok(count)
            }
            Err(failed) => {
                self.failed = true;
                Err(failed)
            }
        }
    }

    /// Flushes the output, which takes no bytes, and notes whether that failed.
    fn flush(&mut self) -> Result<(), Failed>
        ensures bytes { self.new.log.bytes ≡ self.old.log.bytes }
        ensures failures { CountsRefusal (O.failures self.old.inner) (O.failures self.new.inner) result }
        ensures lost { MatchResult result (λ _. self.new.failed ≡ self.old.failed) (λ _. self.new.failed ≡ true) }
        ensures handed { Keeps (O.contents self.old.inner) (O.contents self.new.inner) }
    {
        match self.inner.flush() {
            Ok(()) => Ok(()),
            Err(failed) => {
                self.failed = true;
                Err(failed)
            }
        }
    }
}
