//! Keys that are typed in a session.
ghost use Rattle.std.specs.Prelude.{◌≡◌, ◌<◌, IfOk, OnErr, OnOk, None};
ghost use Rattle.std.specs.Result.{IfErr};
ghost use Rattle.board_plain.specs.Plain.{clock_of};
ghost use Rattle.debugger_meaning.specs.Stands.{Stands};
ghost use Rattle.events.specs.WithKey.{inserted, with_key};

use crate::session::Session;
use board::board::Board;
use board_types::keys::{Keys, StampedKey};
use debugger_meaning::fault::DebugFault;
use std::alloc::{Allocator, Global};

impl<A: Allocator> Session<A> {
    /// Takes a key that is still to come, for the inquiry `key`, as if it had been there when the session began: the
    /// board, the first one and the kept copies before its stamp have it from now on. Refused as `Memory`, with nothing
    /// changed.
    pub fn take_key(&mut self, alloc: Global, key: &StampedKey) -> Result<(), DebugFault>
        requires { clock_of self.old.board.plain < key.now.stamp }
        ensures first { OnOk result
            (self.new.first ≡ record self.old.first { plain = with_key self.old.first.plain key.now }) }
        ensures board { OnOk result
            (self.new.board ≡ record self.old.board { plain = with_key self.old.board.plain key.now }) }
        ensures stops { OnOk result (self.new.stops ≡ self.old.stops) }
        ensures stands { Stands self.new }
        ensures err { OnErr result (self.new ≡ self.old) }
        ensures fault { IfErr result (λ fault. fault ≡ DebugFault.Memory None) }
    {
        let first = keys_with(alloc, &self.first, key)?;
        let now = keys_with(alloc, &self.board, key)?;
        self.checkpoints.take_key(alloc, key);
        self.first.take_keys(first);
        self.board.take_keys(now);
        Ok(())
    }
}

/// Returns a board's list of keys with one more, made before anything changes, so that want of memory leaves the
/// session as it is.
pub(crate) fn keys_with(alloc: Global, board: &Board, key: &StampedKey) -> Result<Keys, DebugFault>
    ensures keys { IfOk result (λ keys. keys ≡ inserted board.now.plain.keys key.now) }
    ensures fault { IfErr result (λ fault. fault ≡ DebugFault.Memory None) }
{
    match board.keys_with(alloc, *key) {
        Ok(keys) => Ok(keys),
        Err(_) => Err(DebugFault::Memory(None)),
    }
}
