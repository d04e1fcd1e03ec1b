//! A copy of the bytes whose changes a stop waits for, as they were at a board's clock.
ghost use Rattle.std.specs.Prelude.{◌≡◌, ◌<◌, ◌^◌, IfOk, IsTrue, OnErr, length};
ghost use Rattle.probe.specs.Met.{AreRenewed, HasRoom, IsCopy, IsCovered, IsOneRenewed, IsRecopied, differs_copied};
ghost use Rattle.probe_texts.specs.Requests.{HasBytes, asks_changes};

use board::board::Board;
use events::access::Access;
use probe_texts::stops::Stop;
use std::alloc::{AllocError, Global};

/// A copy of the bytes from an address on, as they were a clock ago: by it a stop on changes sees whether a written
/// byte has changed.
#[derive(Drop)]
pub(crate) struct Copied {
    first: u32,
    bytes: Vec<u8>,
}

impl Copied {
    /// Makes an empty copy, for a stop that waits for no change of bytes.
    pub(crate) fn none(alloc: Global) -> Copied
        ensures first { result.first ≡ 0 }
        ensures none { length result.bytes.items ≡ 0 }
    {
        Copied {
            first: 0,
            bytes: Vec::new(alloc),
        }
    }

    /// Makes room for a copy of the bytes whose changes a stop waits for, when it is added; an empty copy for other
    /// stops. A run then copies the bytes.
    pub(crate) fn new(alloc: Global, stop: &Stop) -> Result<Copied, AllocError>
        requires { HasBytes stop.now }
        ensures covers { IfOk result (λ copied. IsCovered copied stop.now) }
        ensures room { IfOk result HasRoom }
        ensures changes { OnErr result (IsTrue (asks_changes stop.now)) }
    {
        match stop {
            Stop::Changes(first, count) => Copied::zeros(alloc, *first, *count),
            Stop::Standing(_) | Stop::When(_) => Ok(Copied::none(alloc)),
        }
    }

    /// Makes room for a copy of `count` bytes from the address `first` on.
    fn zeros(alloc: Global, first: u32, count: u32) -> Result<Copied, AllocError>
        ensures first { IfOk result (λ copied. copied.first ≡ first) }
        ensures count { IfOk result (λ copied. length copied.bytes.items ≡ count) }
    {
        let bytes = vec![in alloc; 0; count as usize]?;
        Ok(Copied { first, bytes })
    }

    /// Copies all the bytes anew from the board, when a run begins.
    pub(crate) fn copy(&mut self, board: &Board)
        requires { HasRoom self.old }
        ensures { IsRecopied board.now.plain self.old self.new }
    {
        for index in 0..self.bytes.len() {
            self.bytes[index] = board.byte(self.first + index as u32);
        }
    }

    /// Whether the byte at an address differs from its copy, so that a stop on its changes is met; no if the address
    /// has no copy.
    pub(crate) fn differs(&self, address: u32, board: &Board) -> bool
        requires { address < 2 ^ 20 }
        ensures { result ≡ differs_copied self.now address board.now.plain }
    {
        if address < self.first {
            return false;
        }
        match self.bytes.get((address - self.first) as usize) {
            Some(byte) => *byte != board.byte(address),
            None => false,
        }
    }

    /// Brings the copy up to date with the bytes that the accesses of the clock just made have written; the next
    /// clock's check compares with it.
    pub(crate) fn renew(&mut self, accesses: &[Access], board: &Board)
        requires { HasRoom self.old }
        ensures { AreRenewed accesses.now board.now.plain self.old self.new }
    {
        for access in accesses {
            self.renew_by(*access, board);
        }
    }

    /// Brings the copy up to date with the byte that an access has written, if the access is a write to an address that
    /// is copied.
    fn renew_by(&mut self, access: Access, board: &Board)
        requires { HasRoom self.old }
        ensures { IsOneRenewed access board.now.plain self.old self.new }
    {
        let Access::Write(address, _) = access else {
            return;
        };
        if address < self.first {
            return;
        }
        let place = (address - self.first) as usize;
        if place < self.bytes.len() {
            self.bytes[place] = board.byte(address);
        }
    }
}
