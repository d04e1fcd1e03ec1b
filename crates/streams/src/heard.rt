//! An input with the bytes that it gave.
ghost use Rattle.std.specs.Prelude.{◌≡◌, ◌≤◌, ◌<◌, ◌++◌, ℕ, [], take, length, IfOk, MatchResult, true, false};
ghost use Rattle.std.specs.Io.{ReadsAtMost};
ghost use Rattle.streams.specs.ByteInput.{CountsRefusal};
ghost use Rattle.streams.specs.InTurn.{grows_none, grows_on};

use crate::byte_input::{ByteInput, Failed};
use crate::log::Log;

/// An input, all bytes that it has given since it was made, whether its last read met its end, and whether one has failed.
#[derive(Drop)]
pub struct Heard<I> {
    inner: I,
    ended: bool,
    failed: bool,
    log: Log,
}

impl<I: ByteInput> Heard<I> {
    /// Begins to note what `inner` gives.
    pub fn new(inner: I) -> Heard<I>
        ensures none { result.log.bytes ≡ [] }
        ensures open { result.ended ≡ false }
        ensures sound { result.failed ≡ false }
        ensures inner { result.inner ≡ inner }
    {
        Heard {
            inner,
            ended: false,
            failed: false,
            log: Log::new(),
        }
    }

    /// Whether the last read met the input's end.
    pub(crate) fn has_ended(&self) -> bool
        ensures { result ≡ self.now.ended }
    {
        self.ended
    }
}

/// What it gave is known, whatever the input is; where the input itself tells what it gave, that is the same.
impl<I: ByteInput> ByteInput for Heard<I> {
    ghost gave = { λ s t bytes. (t.log.bytes ≡ s.log.bytes ++ bytes) × I.gave s.inner t.inner bytes };

    ghost ended = { λ s. (s.ended ≡ true) × I.ended s.inner };

    ghost failures = { λ s. I.failures s.inner };

    ghost lost = { λ s. s.failed ≡ true };

    /// Reads from the input, and notes what it gave, or that it failed.
    fn read(&mut self, buf: &mut [u8]) -> Result<usize, Failed>
        ensures bound { ReadsAtMost result buf.new }
        ensures bytes { MatchResult result (λ n. (self.new.log.bytes ≡ self.old.log.bytes ++ take n buf.new)
            × I.gave self.old.inner self.new.inner (take n buf.new)) (λ _. (self.new.log.bytes ≡ self.old.log.bytes ++ [])
            × I.gave self.old.inner self.new.inner []) }
        ensures end { IfOk result (λ n. n ≡ 0 → 0 < length buf.new
            → (self.new.ended ≡ true) × I.ended self.new.inner) }
        ensures failures { CountsRefusal (I.failures self.old.inner) (I.failures self.new.inner) result }

        // It has failed if it had, or if this read fails.
        ensures lost { MatchResult result (λ _. self.new.failed ≡ self.old.failed) (λ _. self.new.failed ≡ true) }

        // No end is met that the input didn't meet.
        ensures met { IfOk result (λ n. self.new.ended ≡ true → I.ended self.new.inner) }
    {
        let has_room = !buf.is_empty();
        match self.inner.read(buf) {
            Ok(count) => {
                self.log.note(&buf[..count]);
                self.ended = count == 0 && has_room;
                Ok(count)
            }
            Err(failed) => {
                self.failed = true;
                Err(failed)
            }
        }
    }

    ghost gave_none = { λ s. (grows_none s.log.bytes, I.gave_none s.inner) };

    ghost gave_on = { λ s t u front back first second. (
      grows_on s.log.bytes t.log.bytes u.log.bytes front back first.0 second.0,
      I.gave_on s.inner t.inner u.inner front back first.1 second.1,
    ) };
}
