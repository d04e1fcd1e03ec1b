//! The keyboard and its latch (IBM PC Technical Reference, "Keyboard"; "System Board I/O", ports 60h and 61h).
ghost use Rattle.std.specs.Prelude.{◌≡◌, ◌≤◌, ◌↔◌, IfOk, IsTrue, length, slice_get};
ghost use Rattle.keyboard.specs.Keyboard.{power_on, after_arrival, after_settling};

use board_types::bits::bit;
use circular_buffer::HeapCircularBuffer;
use std::alloc::{AllocError, Global};
use std::marker::Model;

/// How many codes can wait.
pub const QUEUE_LENGTH: usize = 16;

/// Codes that wait, the latch that holds the code for the processor, and the number of lost codes.
#[derive(Drop)]
pub struct Keyboard {
    waiting: HeapCircularBuffer<u8>,
    latch: Option<u8>,
    lost: u64,
}

impl Model for Keyboard {
    ghost use Rattle.std.specs.Prelude.{◌≡◌};
    ghost use Rattle.keyboard.specs.Keyboard.{KeyboardState};

    ghost Value = { KeyboardState };

    ghost view = { λ k. record { waiting = k.waiting.items; latch = k.latch; lost = k.lost } };

    ghost invariant = { λ k. k.waiting.capacity ≡ 16 };
}

impl Keyboard {
    /// A keyboard with no code waiting, an empty latch and no code lost, for a board at power-on. Fails only if there
    /// is no memory for the queue.
    pub fn new(alloc: Global) -> Result<Keyboard, AllocError>
        ensures { IfOk result (λ keyboard. keyboard ≡ power_on) }
    {
        Ok(Keyboard {
            waiting: HeapCircularBuffer::with_capacity(alloc, QUEUE_LENGTH)?,
            latch: None,
            lost: 0,
        })
    }

    /// A copy of the keyboard for a copied board, in memory of its own. Fails only if there is no memory for it.
    #[tactic(auto, using(crate::proofs::Copied::parts_kept))]
    pub fn copy(&self) -> Result<Keyboard, AllocError>
        ensures { IfOk result (λ keyboard. keyboard ≡ self.now) }
    {
        let mut waiting = HeapCircularBuffer::with_capacity(
            *self.waiting.allocator(),
            QUEUE_LENGTH,
        )?;
        // both slices fit: no more than QUEUE_LENGTH codes wait
        let _count = self.waiting.len();
        let (first, rest) = self.waiting.as_slices();
        waiting.extend_from_slice(first);
        waiting.extend_from_slice(rest);
        Ok(Keyboard {
            waiting,
            latch: self.latch,
            lost: self.lost,
        })
    }

    /// Takes the scan code `code` of a key that comes at this clock: the code waits after the others, or is lost and
    /// counted if `QUEUE_LENGTH` codes wait.
    #[tactic(auto, unfolding(crate::specs::Keyboard::after_arrival))]
    pub fn arrive(&mut self, code: u8)
        ensures { self.new ≡ after_arrival self.old code }
    {
        if self.waiting.try_push_back(code).is_err() {
            self.lost = self.lost.saturating_add(1);
        }
    }

    /// Follows the levels of port B's eight lines after anything has changed: line 7 empties the latch; with it low and
    /// line 6 high, the first waiting code moves into an empty latch, where the processor reads it at port 60h.
    #[tactic(auto, unfolding(crate::specs::Keyboard::after_settling))]
    pub fn settle(&mut self, port_b: u8)
        ensures { self.new ≡ after_settling self.old port_b }
    {
        if bit(port_b, 7) {
            self.latch = None;
        } else if bit(port_b, 6) && self.latch.is_none() {
            self.latch = self.waiting.pop_front();
        }
    }

    /// Whether settling to these levels of port B's eight lines would change nothing, so that the board may spare it
    /// and lag.
    #[tactic(auto, unfolding(crate::specs::Keyboard::after_settling))]
    pub fn has_settled(&self, port_b: u8) -> bool
        ensures { IsTrue result ↔ after_settling self.now port_b ≡ self.now }
    {
        if bit(port_b, 7) {
            return self.latch.is_none();
        }
        !bit(port_b, 6) || self.latch.is_some() || self.waiting.is_empty()
    }

    /// The code in the latch, which port A shows and whose presence drives IR1 of the interrupt controller; `None` if
    /// it is empty.
    pub fn latch(&self) -> Option<u8>
        ensures { result ≡ self.now.latch }
    {
        self.latch
    }

    /// The waiting code at `index`, for a view of the keyboard; the one that moves first is at 0. `None` if no more
    /// wait.
    pub fn waiting(&self, index: usize) -> Option<u8>
        ensures code { result ≡ slice_get self.now.waiting index }
        ensures few { length self.now.waiting ≤ 16 }
    {
        // no more than QUEUE_LENGTH codes wait
        let _count = self.waiting.len();
        self.waiting.get(index).copied()
    }

    /// How many codes were lost since power-on because the queue was full, for reports; counted up to the greatest
    /// `u64`.
    pub fn lost(&self) -> u64
        ensures { result ≡ self.now.lost }
    {
        self.lost
    }
}
