//! Bytes that clauses alone can read.
ghost use Rattle.std.specs.Prelude.{◌≡◌, ℕ, List, [], ◌++◌};
ghost use Rattle.std.specs.Borrow.{ftrue};

use std::marker::{Model, PhantomData};

/// The bytes that a stream gave or took, in order.
#[derive(Drop)]
pub struct Log {
    marker: PhantomData<u8>,
    pub ghost bytes: { List ℕ },
}

impl Model for Log {
    ghost also_owns = { λ _. ftrue };
}

impl Log {
    /// No bytes.
    pub(crate) fn new() -> Log
        ensures { result.bytes ≡ [] }
    {
        Log {
            marker: PhantomData,
        }
    }

    /// Adds these bytes.
    pub(crate) fn note(&mut self, _bytes: &[u8])
        ensures { self.new.bytes ≡ self.old.bytes ++ _bytes.now }
    {}
}
