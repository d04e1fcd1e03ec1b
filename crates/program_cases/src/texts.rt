//! Readers and writers of a case's texts, which can fail.
use crate::spelled::Spelled;
use std::alloc::Global;
use std::cell::Cell;
use std::io;
use std::io::{Read, Write};

/// The most bytes that a read gives or a write takes, few enough that most calls are made in parts.
const PIECE: usize = 7;

/// Calls of one kind, numbered from 0, of which one may fail.
#[derive(Drop)]
pub struct Calls {
    made: Cell<u64>,
    failing: Option<u64>,
}

impl Calls {
    /// Calls, none made yet, of which the one of this number fails, and no other; with `None` none does.
    pub fn new(failing: Option<u64>) -> Self {
        Calls {
            made: Cell::new(0),
            failing,
        }
    }

    /// How many calls were made, so that a case can make each of them fail in turn.
    pub fn made(&self) -> u64 {
        self.made.get()
    }

    /// Counts the next call, and fails if it is the one that has to.
    fn make(&self) -> io::Result<()> {
        let number = self.made.get();
        self.made.set(number.saturating_add(1));
        if self.failing == Some(number) {
            return Err(io::Error::from(io::ErrorKind::Other));
        }
        Ok(())
    }
}

/// A text to be read, a few bytes at a time. Every other call is interrupted, which counts as no read.
#[derive(Drop)]
pub struct Input<'a> {
    text: Spelled<'a>,
    reads: &'a Calls,
    is_interrupted: bool,
}

impl<'a> Input<'a> {
    /// An input of this text of a case, whose reads are counted among `reads`, together with those of other inputs.
    pub fn new(text: &'a str, reads: &'a Calls) -> Self {
        Input {
            text: Spelled::new(text),
            reads,
            is_interrupted: false,
        }
    }
}

impl Read for Input<'_> {
    /// Reads at most seven bytes, so that the program must read on; every other call fails as interrupted, which it
    /// must make again, and another one fails if the case wants it.
    fn read(&mut self, buf: &mut [u8]) -> io::Result<usize> {
        self.is_interrupted = !self.is_interrupted;
        if self.is_interrupted {
            return Err(io::Error::from(io::ErrorKind::Interrupted));
        }
        self.reads.make()?;
        let size = buf.len().min(PIECE);
        for at in 0..size {
            let Some(byte) = self.text.next_byte() else {
                return Ok(at);
            };
            buf[at] = byte;
        }
        Ok(size)
    }
}

/// What is written.
#[derive(Drop)]
pub struct Output {
    bytes: Vec<u8>,
    writes: Calls,
}

impl Output {
    /// An output that keeps what the program writes, and of which the write of this number fails.
    pub fn new(alloc: Global, failing: Option<u64>) -> Self {
        Output {
            bytes: Vec::new(alloc),
            writes: Calls::new(failing),
        }
    }

    /// How many writes were made to the output, so that each can be made to fail in turn.
    pub fn writes(&self) -> u64 {
        self.writes.made()
    }

    /// Whether what was written here begins with what was written to `front`, the output of a run that was cut off.
    pub fn begins_with(&self, front: &Output) -> bool {
        self.bytes.as_slice().starts_with(front.bytes.as_slice())
    }

    /// Whether what was written begins with this text, as the case's part `begins` says.
    pub fn begins(&self, text: &str) -> bool {
        let mut wanted = Spelled::new(text);
        for byte in self.bytes.as_slice() {
            match wanted.next_byte() {
                Some(now) if now == *byte => {}
                Some(_) => return false,
                None => return true,
            }
        }
        wanted.next_byte().is_none()
    }

    /// Whether this text was written, and no more, as the case's parts `out` and `err` say.
    pub fn is(&self, text: &str) -> bool {
        let mut wanted = Spelled::new(text);
        for byte in self.bytes.as_slice() {
            if wanted.next_byte() != Some(*byte) {
                return false;
            }
        }
        wanted.next_byte().is_none()
    }

    /// Whether this text, of one line and without a backslash, stands in what was written, as the case's part `usage`
    /// says of standard error.
    pub fn has(&self, text: &str) -> bool {
        self.bytes
            .as_slice()
            .windows(text.len().max(1))
            .any(|window| window == text.as_bytes())
    }
}

impl Write for Output {
    /// Keeps at most seven bytes of what the program writes, so that it must write the rest anew; fails if this is the
    /// write that has to.
    fn write(&mut self, buf: &[u8]) -> io::Result<usize> {
        self.writes.make()?;
        let size = buf.len().min(PIECE);
        self.bytes.extend_from_slice(&buf[..size])?;
        Ok(size)
    }

    /// Does nothing: whatever is written is kept at once.
    fn flush(&mut self) -> io::Result<()> {
        Ok(())
    }
}
