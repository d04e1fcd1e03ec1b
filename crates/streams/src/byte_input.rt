//! Bytes that come from outside, from an input that may fail.
ghost use Rattle.std.specs.Prelude.{◌≡◌, ◌≤◌, ◌<◌, ◌++◌, ℕ, take, length, IfOk, OnErr, List, [], MatchResult, Option, None, ⊤};
ghost use Rattle.std.specs.Io.{ReadsAtMost};
ghost use Rattle.std.specs.Io.KnownBytes.{Consumes, IsAtEnd};
ghost use Rattle.std.specs.Result.{IsErrOf};
ghost use Rattle.streams.specs.ByteInput.{CountsNone, CountsOne, CountsRefusal, IsAllWanted};
ghost use Rattle.streams.specs.InTurn.{consumes_none, consumes_on};
ghost use Rattle.streams.specs.declared.byte_input.ReadFault.TheVariants.{Failed as failed, Memory};

use std::alloc::{AllocError, Global};
use std::io::{ErrorKind, Read};
use thiserror::Error;

/// How many bytes are asked for at once at most.
const PIECE: usize = 4096;

/// An input or an output failed.
#[derive(Clone, Copy, Debug, PartialEq, Eq, Drop, Error)]
#[error("the stream failed")]
pub struct Failed;

/// An input of bytes from outside, one after another.
pub trait ByteInput {
    // From the first state to the second its reads gave these bytes, as far as it tells.
    ghost gave: { Self → Self → List ℕ → Type 0 };

    // The last read met its end, as far as it tells.
    ghost ended: { Self → Type 0 };

    // How often it has failed, if that is counted.
    ghost failures: { Self → Option ℕ } = { λ _. None };

    // A read has failed, as far as it tells.
    ghost lost: { Self → Type 0 } = { λ _. ⊤ };

    /// Puts the next bytes into the front of `buf`, and answers how many they are: none only at the end, or if `buf`
    /// has no room. Refused if the input failed, which then gives none of its bytes.
    fn read(&mut self, buf: &mut [u8]) -> Result<usize, Failed>
        ensures bound { ReadsAtMost result buf.new }
        ensures bytes { MatchResult result (λ n. gave self.old self.new (take n buf.new))
            (λ _. gave self.old self.new []) }
        ensures end { IfOk result (λ n. n ≡ 0 → 0 < length buf.new → ended self.new) }
        ensures failures { CountsRefusal (failures self.old) (failures self.new) result }
        ensures lost { OnErr result (lost self.new) };

    // Where nothing is read, nothing is given; and what is given by several reads is given in their order.
    ghost gave_none: { (s : Self) → gave s s [] };

    ghost gave_on: { (s t u : Self) (front back : List ℕ) → gave s t front → gave t u back → gave s u (front ++ back) };
}

/// Every reader is an input. What its reads gave is told as far as the reader knows the bytes still to come, and its
/// failures aren't counted. A read that was interrupted is made again; a reader that is interrupted `u64::MAX` times in
/// one call has failed.
impl<R: Read> ByteInput for R {
    ghost gave = { λ s t bytes. Consumes (R.remaining s) (R.remaining t) bytes };

    ghost ended = { λ s. IsAtEnd (R.remaining s) };

    /// Reads from the reader into the front of `buf`, and answers how many bytes came, none only at its end or without
    /// room; tries again after an interruption.
    fn read(&mut self, buf: &mut [u8]) -> Result<usize, Failed> {
        'tries: for _ in 0..u64::MAX {
            match Read::read(self, buf) {
                Ok(count) => return Ok(count),
                Err(error) if error.kind() == ErrorKind::Interrupted => {}
                Err(_) => return Err(Failed),
            }
        }
        Err(Failed)
    }

    ghost gave_none = { λ s. consumes_none (R.remaining s) };

    ghost gave_on = { λ s t u front back. consumes_on (R.remaining s) (R.remaining t) (R.remaining u) front back };
}

/// Why an input can't be read.
#[derive(Clone, Copy, Debug, PartialEq, Eq, Drop, Error)]
pub enum ReadFault {
    #[error("the input failed")]
    Failed,
    #[error("out of memory")]
    Memory,
}

impl From<Failed> for ReadFault {
    ghost from_gives = { λ _ fault. fault ≡ failed };

    /// Lets `?` answer a failure of the input while all of it is read.
    fn from(_failed: Failed) -> ReadFault {
        ReadFault::Failed
    }
}

impl From<AllocError> for ReadFault {
    ghost from_gives = { λ _ fault. fault ≡ Memory };

    /// Lets `?` answer a refused allocation as want of memory for the bytes read.
    fn from(_error: AllocError) -> ReadFault {
        ReadFault::Memory
    }
}

/// Reads the first `limit` bytes that `input` has to give, or all if there are no more: so a program's file or a run
/// file is read before it is judged. `Failed` only if the input failed in this call, `Memory` if there is none for the
/// bytes.
pub fn read_all<I: ByteInput>(
    alloc: Global,
    input: &mut I,
    limit: u64,
) -> Result<Vec<u8>, ReadFault>
    ensures bytes { IfOk result (λ bytes. I.gave input.old input.new bytes.items) }
    ensures all { IfOk result (λ bytes. IsAllWanted limit (I.ended input.new) bytes.items) }
    ensures limit { IfOk result (λ bytes. length bytes.items ≤ limit) }
    ensures failed { IsErrOf result ReadFault.Failed → CountsOne (I.failures input.old) (I.failures input.new) }
    ensures unfailed { ¬ (IsErrOf result ReadFault.Failed) → CountsNone (I.failures input.old) (I.failures input.new) }
    ensures lost { IsErrOf result ReadFault.Failed → I.lost input.new }
{
    let mut bytes = Vec::new(alloc);
    'pieces: while (bytes.len() as u64) < limit {
        let mut piece = [0; PIECE];
        let room = (limit - bytes.len() as u64).min(PIECE as u64) as usize;
        let count = input.read(&mut piece[..room])?;
        if count == 0 {
            return Ok(bytes);
        }
        bytes.extend_from_slice(&piece[..count])?;
    }
    Ok(bytes)
}
