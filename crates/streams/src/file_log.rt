//! Files that were read, for clauses alone.
ghost use Rattle.std.specs.Prelude.{◌≡◌, ℕ, Bool, List, [], ◌∷◌, ◌++◌};
ghost use Rattle.std.specs.Borrow.{ftrue};

use std::marker::{Model, PhantomData};

/// The files that were read, in order: the name of each, whether a read met its end, and what its reads gave.
#[derive(Drop)]
pub struct FileLog {
    marker: PhantomData<u8>,
    pub ghost files: { List (List ℕ × (Bool × List ℕ)) },
}

impl Model for FileLog {
    ghost also_owns = { λ _. ftrue };
}

impl FileLog {
    /// No files.
    pub(crate) fn new() -> FileLog
        ensures { result.files ≡ [] }
    {
        FileLog {
            marker: PhantomData,
        }
    }

    /// Adds a file.
    pub(crate) fn note(&mut self, _name: &[u8], _bytes: &[u8], _ended: bool)
        ensures { self.new.files ≡ self.old.files ++ (_name.now, (_ended, _bytes.now)) ∷ [] }
    {}
}
