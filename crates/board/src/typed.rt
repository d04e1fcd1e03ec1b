//! Keys that are typed while a board stands at a clock.
ghost use Rattle.std.specs.Prelude.{◌≡◌, ◌+◌, ◌++◌, IfOk, OnOk};
ghost use Rattle.std.specs.Result.{IfErr};
ghost use Rattle.events.specs.WithKey.{inserted};

use crate::arrivals::{count_before, so_far};
use crate::board::Board;
use crate::engine::Engine;
use board_plain::fault::BoardFault;
use board_types::keys::{Keys, StampedKey};
use std::alloc::{Allocator, Global};
use std::mem;

impl<A: Allocator> Board<A> {
    /// The board's keys with one more, a typed one, placed after all that aren't stamped later, for `take_keys`; the
    /// board stays as it is. Refused as `Memory` if there is none for them, or if no key sends the code.
    pub fn keys_with(&self, alloc: Global, key: StampedKey) -> Result<Keys, BoardFault>
        ensures keys { IfOk result (λ keys. keys ≡ inserted self.now.plain.keys key) }
        ensures fault { IfErr result (λ fault. fault ≡ BoardFault.Memory) }
    {
        let older = self.engine.keys.as_slice();
        let place = count_before(older, older.len(), key.stamp.get() + 1);
        let mut keys = Keys::new(alloc);
        push_all(&mut keys, &older[..place])?;
        push_all(&mut keys, &[key])?;
        push_all(&mut keys, &older[place..])?;
        Ok(keys)
    }

    /// Takes these keys in place of its own, for a session in which a key is typed: those that are stamped later than
    /// the board's clock are still to come, and all others count as arrived.
    pub fn take_keys(&mut self, keys: Keys)
        ensures { self.new ≡ record self.old { plain = record self.old.plain { keys = keys } } }
    {
        self.engine.take_keys(keys);
    }
}

impl Engine {
    /// Takes these keys in place of the engine's, counts how many have arrived by now, and forgets what was known of
    /// the next one.
    fn take_keys(&mut self, keys: Keys)
        ensures { self.new ≡ record self.old { keys = keys } }
    {
        let next = self.chips.clock().get() + 1;
        let count = count_before(keys.as_slice(), keys.len(), next);
        self.arrived = so_far(keys.as_slice(), count);
        self.quiet.to = 0;
        drop(mem::replace(&mut self.keys, keys));
    }
}

/// Adds keys to a list in their order, for `keys_with`.
fn push_all(keys: &mut Keys, more: &[StampedKey]) -> Result<(), BoardFault>
    ensures ok { OnOk result (keys.new ≡ keys.old ++ more.now) }
    ensures fault { IfErr result (λ fault. fault ≡ BoardFault.Memory) }
{
    for key in more {
        if keys.push(key.stamp, key.code).is_err() {
            return Err(BoardFault::Memory);
        }
    }
    Ok(())
}
