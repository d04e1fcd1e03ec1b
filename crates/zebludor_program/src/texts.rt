//! The files of a program, as texts in the caller's memory.
ghost use Rattle.std.specs.Prelude.{◌≡◌, MatchOption, None, Some};
ghost use Rattle.zebludor_program.specs.Programs.{IsFront, file_named};

use std::alloc::Global;
use streams::byte_input::ReadFault;
use streams::files::Files;

/// The two files that a program's words can name.
#[derive(Clone, Copy)]
pub(crate) struct Texts<'a> {
    /// What the word `FILE` names.
    pub(crate) file: &'a [u8],
    /// What the word `RUN` names.
    pub(crate) run: &'a [u8],
}

impl<'a> Texts<'a> {
    /// The text of this name; there are no others than `FILE` and `RUN`.
    fn named(&self, name: &str) -> Option<&'a [u8]>
        ensures { MatchOption result (file_named self.now.file.now self.now.run.now name.now ≡ None)
            (λ text. file_named self.now.file.now self.now.run.now name.now ≡ Some text.now) }
    {
        let name = name.as_bytes();
        if name == b"FILE".as_slice() {
            return Some(self.file);
        }
        if name == b"RUN".as_slice() {
            return Some(self.run);
        }
        None
    }
}

impl<'a> Files for Texts<'a> {
    ghost gave = { λ s t name limit bytes. (t ≡ s) × IsFront s.file.now s.run.now name limit bytes };

    ghost lacks = { λ s name. file_named s.file.now s.run.now name ≡ None };

    /// The first `limit` bytes of the caller's text of this name, or all if there are no more.
    fn read(&mut self, alloc: Global, path: &str, limit: u64) -> Result<Vec<u8>, ReadFault> {
        let Some(text) = self.named(path) else {
            return Err(ReadFault::Failed);
        };
        let length = (text.len() as u64).min(limit) as usize;
        let mut bytes = Vec::new(alloc);
        bytes.extend_from_slice(&text[..length])?;
        Ok(bytes)
    }
}
