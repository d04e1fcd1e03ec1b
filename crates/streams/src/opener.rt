//! Where a program finds its files.
ghost use Rattle.std.specs.Prelude.{ℕ, List, Option, None, IfOk, IfSome, IsErr, IsOk};
ghost use Rattle.streams.specs.ByteInput.{ReadsAs};

use crate::byte_input::ByteInput;
use std::io;

/// Opens files for reading by their names.
pub trait Opener {
    type Input: ByteInput + Drop;

    // the bytes of the file with this name, if they are known
    ghost file_bytes: { Self → List ℕ → Option (List ℕ) } = { λ _ _. None };

    // no file with this name can be opened
    ghost lacks: { Self → List ℕ → Type 0 } = { λ _ _. ⊥ };

    // the file with this name can be opened
    ghost opens: { Self → List ℕ → Type 0 } = { λ _ _. ⊥ };

    /// Opens the file at `path`.
    fn open(&self, path: &str) -> io::Result<Self::Input>
        ensures bytes { IfSome (file_bytes self.now path.now)
            (λ bytes. IfOk result (λ file. ReadsAs Self.Input.gave Self.Input.ended file bytes)) }
        ensures lacking { lacks self.now path.now → IsErr result }
        ensures opened { opens self.now path.now → IsOk result };
}
