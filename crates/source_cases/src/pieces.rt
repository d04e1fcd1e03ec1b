//! An input over memory that gives its bytes in pieces, and can fail.
ghost use Rattle.std.specs.Prelude.{if◌then◌else◌, Some};
ghost use Rattle.std.specs.Io.KnownBytes.{Consumes, IsAtEnd};
ghost use Rattle.streams.specs.InTurn.{consumes_none, consumes_on};

use std::io::Read;
use streams::byte_input::{ByteInput, Failed};

/// Bytes, some at a time. One read may fail; the reads after it go on from there.
#[derive(Drop)]
pub struct Pieces<'a> {
    rest: &'a [u8],
    /// The most bytes that a read gives; 0 stands for 1.
    most: usize,
    /// How many reads are made before the one that fails.
    reads_left: u64,
    has_failed: bool,
}

impl<'a> Pieces<'a> {
    /// An input of these bytes, of which a read gives at most `most`; the read after the first `reads_left` fails. With
    /// `u64::MAX` none fails.
    pub fn new(bytes: &'a [u8], most: usize, reads_left: u64) -> Self {
        Pieces {
            rest: bytes,
            most,
            reads_left,
            has_failed: false,
        }
    }

    /// How many reads are left before the one that fails, from which a case counts those made.
    pub fn reads_left(&self) -> u64 {
        self.reads_left
    }

    /// The bytes that are still to come, by which a case sees how many were taken.
    pub fn rest(&self) -> &'a [u8] {
        self.rest
    }
}

impl ByteInput for Pieces<'_> {
    ghost gave = { λ s t bytes. Consumes (Some s.rest.now) (Some t.rest.now) bytes };

    ghost ended = { λ s. IsAtEnd (Some s.rest.now) };

    ghost failures = { λ pieces. Some (if pieces.has_failed then 1 else 0) };

    /// Reads the next bytes, at most `most`, or fails once after the reads that were left; `read_all` must
    /// then refuse the whole.
    fn read(&mut self, buf: &mut [u8]) -> Result<usize, Failed> {
        if self.reads_left == 0 && !self.has_failed {
            self.has_failed = true;
            return Err(Failed);
        }
        self.reads_left = self.reads_left.saturating_sub(1);
        let mut front = &self.rest[..self.rest.len().min(self.most.max(1))];
        match Read::read(&mut front, buf) {
            Ok(count) => {
                self.rest = &self.rest[count..];
                Ok(count)
            }
            Err(_) => Err(Failed),
        }
    }

    ghost gave_none = { λ s. consumes_none (Some s.rest.now) };

    ghost gave_on = { λ s t u front back. consumes_on (Some s.rest.now) (Some t.rest.now) (Some u.rest.now) front back };
}
