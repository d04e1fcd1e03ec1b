//! The key codes that reach the keyboard, each with its clock.
ghost use Rattle.std.specs.Prelude.{◌≡◌, [], ◌∷◌, ◌++◌, OnOk, OnErr, IfOk, IsTrue, ◌↔◌, length, MatchOption, IsOkUnless};
ghost use Rattle.board_types.specs.Keys.{IsInOrder, push_fault, key_fault_number, last_stamp, names_key};

use crate::clock::Clock;
use std::alloc::{AllocError, Global};
use std::marker::Model;
use thiserror::Error;

/// A key code and the clock at which it reaches the keyboard.
#[derive(Clone, Copy, Debug, PartialEq, Eq)]
pub struct StampedKey {
    pub stamp: Clock,
    /// A scan code: a make code, 01h to 53h, or a break code, 80h more.
    pub code: u8,
}

/// Why a key code isn't taken.
#[derive(Clone, Copy, Debug, PartialEq, Eq, Drop, Error)]
pub enum KeyFault {
    #[error("no key has this scan code")]
    BadScan,
    #[error("the stamp lies before the one of the key before")]
    StampsFall,
    #[error("out of memory")]
    Memory,
}

impl KeyFault {
    /// The number by which the user and a calling program are told the fault.
    pub fn number(self) -> u8
        ensures { result ≡ key_fault_number self }
    {
        match self {
            KeyFault::BadScan => 33,
            KeyFault::StampsFall => 34,
            KeyFault::Memory => 37,
        }
    }
}

/// Whether some key of the keyboard sends `code`, on its way down (01h to 53h) or up (81h to D3h): other codes from a
/// run file or a command are refused.
pub fn is_scan_code(code: u8) -> bool
    ensures { result ≡ names_key code }
{
    matches!(code, 0x01..=0x53 | 0x81..=0xD3)
}

/// Stamped key codes in the order of their arrival: each is a scan code, and no stamp is earlier than that of the key
/// before.
#[derive(Drop)]
pub struct Keys {
    keys: Vec<StampedKey>,
}

impl Model for Keys {
    ghost use Rattle.std.specs.Prelude.{List};
    ghost use Rattle.board_types.specs.declared.keys.StampedKey.{StampedKey};
    ghost use Rattle.board_types.specs.Keys.{IsInOrder};

    ghost Value = { List StampedKey };

    ghost view = { λ k. k.keys.items };

    ghost invariant = { λ k. IsInOrder k.keys.items };
}

impl Keys {
    /// A list with no key codes, to which a run's are added.
    pub fn new(alloc: Global) -> Self
        ensures { result ≡ [] }
    {
        Keys {
            keys: Vec::new(alloc),
        }
    }

    /// How many key codes there are.
    pub fn len(&self) -> usize
        ensures { result ≡ length self.now }
    {
        self.keys.len()
    }

    /// Whether there are no key codes.
    pub fn is_empty(&self) -> bool
        ensures { IsTrue result ↔ (self.now ≡ []) }
    {
        self.keys.is_empty()
    }

    /// The key codes, the first to arrive first, for a board that lets them arrive.
    pub fn as_slice(&self) -> &[StampedKey]
        ensures keys { result.now ≡ self.now }
        ensures in_order { IsInOrder result.now }
    {
        self.keys.as_slice()
    }

    /// Adds `code`, which reaches the keyboard at the clock `stamp`. Refused as `BadScan` if no key sends it, else as
    /// `StampsFall` if the last key's stamp is later than `stamp`, else as `Memory` if the list can't grow. A refusal
    /// changes nothing.
    pub fn push(&mut self, stamp: Clock, code: u8) -> Result<(), KeyFault>
        ensures ok { OnOk result (self.new ≡ self.old ++ (record { stamp = stamp; code = code }) ∷ []) }
        ensures err { OnErr result (self.new ≡ self.old) }
        ensures judged { MatchOption (push_fault self.old stamp code) (IsOkUnless result KeyFault.Memory)
            (λ fault. result ≡ Err fault) }
    {
        if !is_scan_code(code) {
            return Err(KeyFault::BadScan);
        }
        if stamp.get() < self.last_stamp() {
            return Err(KeyFault::StampsFall);
        }
        match self.keys.push(StampedKey { stamp, code }) {
            Ok(()) => Ok(()),
            Err(_) => Err(KeyFault::Memory),
        }
    }

    /// A copy of the key codes for a copied board or one more run, in memory of its own. Fails only if there is no
    /// memory for it.
    pub fn copy(&self) -> Result<Keys, AllocError>
        ensures { IfOk result (λ keys. keys ≡ self.now) }
    {
        Ok(Keys {
            keys: self.keys.clone()?,
        })
    }

    /// The clock of the last key, 0 if there is none: `push` refuses a key that is earlier.
    fn last_stamp(&self) -> u64
        ensures { result ≡ last_stamp self.now }
    {
        match self.keys.last() {
            Some(key) => key.stamp.get(),
            None => 0,
        }
    }
}
