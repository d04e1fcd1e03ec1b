//! The files of a run, read one by one, and what was read of them.
ghost use Rattle.std.specs.Prelude.{◌≡◌, ℕ, List, [], take, IfErr, IfOk, IfSome, ⊤, true, false};
ghost use Rattle.std.specs.Result.{IsErrOf};
ghost use Rattle.streams.specs.ByteInput.{CountsOne};
ghost use Rattle.streams.specs.FileLists.{NotesFile};

use crate::byte_input::{ReadFault, read_all};
use crate::file_log::FileLog;
use crate::heard::Heard;
use crate::opener::Opener;
use std::alloc::Global;

/// Files that are read by their names.
pub trait Files {
    // From the first state to the second one file was read, the one with this name, up to this many bytes, and its reads
    // gave these bytes, as far as it tells.
    ghost gave: { Self → Self → List ℕ → ℕ → List ℕ → Type 0 };

    // no file with this name can be opened
    ghost lacks: { Self → List ℕ → Type 0 } = { λ _ _. ⊥ };

    // An opening or a read has failed, as far as it tells.
    ghost lost: { Self → Type 0 } = { λ _. ⊤ };

    /// Reads the first `limit` bytes of the file at `path`, or all if there are no more.
    fn read(&mut self, alloc: Global, path: &str, limit: u64) -> Result<Vec<u8>, ReadFault>
        ensures gave { IfOk result (λ bytes. gave self.old self.new path.now limit bytes.items) }
        ensures lacking { lacks self.old path.now → IsErrOf result ReadFault.Failed }
        ensures lacks_on { (name : List ℕ) → lacks self.old name → lacks self.new name }
        ensures lost { IsErrOf result ReadFault.Failed → lost self.new };
}

/// The files that an opener opens, what was read of them, and whether an opening or a read has failed.
#[derive(Drop)]
pub struct ReadFiles<F> {
    opener: F,
    failed: bool,
    log: FileLog,
}

impl<F: Opener> ReadFiles<F> {
    /// Begins to note what is read of files.
    pub fn new(opener: F) -> ReadFiles<F>
        ensures none { result.log.files ≡ [] }
        ensures sound { result.failed ≡ false }
        ensures opener { result.opener ≡ opener }
    {
        ReadFiles {
            opener,
            failed: false,
            log: FileLog::new(),
        }
    }
}

/// What was read is known, whatever the opener is; of a file whose bytes are known, that is the front of these.
impl<F: Opener> Files for ReadFiles<F> {
    ghost gave = { λ s t name limit bytes. NotesFile s.log.files t.log.files name limit bytes };

    ghost lacks = { λ s name. F.lacks s.opener name };

    ghost lost = { λ s. s.failed ≡ true };

    /// Opens the file at `path`, reads it, and notes what its reads gave.
    fn read(&mut self, alloc: Global, path: &str, limit: u64) -> Result<Vec<u8>, ReadFault>
        ensures gave { IfOk result
            (λ bytes. NotesFile self.old.log.files self.new.log.files path.now limit bytes.items) }
        ensures lacking { F.lacks self.old.opener path.now → IsErrOf result ReadFault.Failed }
        ensures lacks_on { (name : List ℕ) → F.lacks self.old.opener name → F.lacks self.new.opener name }
        ensures known { IfOk result (λ bytes. IfSome (F.file_bytes self.old.opener path.now)
            (λ all. bytes.items ≡ take limit all)) }

        // They have failed if they had, or if this fails; and if the file can be opened, only if a read of it failed.
        ensures lost { IsErrOf result ReadFault.Failed → self.new.failed ≡ true }
        ensures sound { ¬ (IsErrOf result ReadFault.Failed) → self.new.failed ≡ self.old.failed }
        ensures opened { F.opens self.old.opener path.now → IsErrOf result ReadFault.Failed
            → (file : F.Input) × ((after : F.Input) × CountsOne (F.Input.failures file) (F.Input.failures after)) }

        // A file that isn't read is not listed.
        ensures none { IfErr result (λ _. self.new.log.files ≡ self.old.log.files) }
    {
        let Ok(file) = self.opener.open(path) else {
            self.failed = true;
            return Err(ReadFault::Failed);
        };
        let mut file = Heard::new(file);
        match read_all(alloc, &mut file, limit) {
            Ok(bytes) => {
                self.log
                    .note(path.as_bytes(), bytes.as_slice(), file.has_ended());
                Ok(bytes)
            }
            Err(fault) => {
                self.failed = self.failed || fault == ReadFault::Failed;
                Err(fault)
            }
        }
    }
}
