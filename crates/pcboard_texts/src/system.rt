//! The words of the command line and the files of the system, for a program's `main`.
use crate::telling::{with_unreadable_words, without_words};
use std::fs::File;
use std::io::ErrorKind;
use std::process::ExitCode;
use std::{env, fs, io};
use streams::byte_output::ByteOutput;
use streams::opener::Opener;

/// The files of the system.
#[derive(Clone, Copy)]
pub struct SystemFiles<'a> {
    rt: &'a HostRuntime,
}

impl Opener for SystemFiles<'_> {
    type Input = File;

    /// Opens a file of the system for reading, by the path that the command line names.
    fn open(&self, path: &str) -> io::Result<File> {
        fs::open(self.rt, path)
    }
}

/// Runs a program, for its `main`, on the words of the command line and the system's files; the program answers its
/// exit status. If the words can't be had, it isn't run, and standard error says why.
pub fn run_on_system<P>(rt: &HostRuntime, program: P) -> ExitCode
where
    P: FnOnce(&[&str], &SystemFiles<'_>) -> u8 + Drop,
    requires { P.IsAlwaysCallable program }
{
    match status_of(rt, program) {
        Ok(status) => ExitCode::from(status),
        Err(error) => ExitCode::from(status_without_words(&error, &mut rt.stderr())),
    }
}

/// Collects the command line's words after the program's name, runs the program on them, and answers its exit status.
/// Fails if there is no memory for the words, or if one of them isn't UTF-8.
fn status_of<P>(rt: &HostRuntime, program: P) -> io::Result<u8>
where
    P: FnOnce(&[&str], &SystemFiles<'_>) -> u8 + Drop,
    requires { P.IsAlwaysCallable program }
{
    let mut args = Vec::new(rt.alloc());
    for arg in env::args(rt)? {
        args.push(arg)?;
    }
    let mut words = Vec::new(rt.alloc());
    for arg in args.iter().skip(1) {
        words.push(arg.as_str())?;
    }
    Ok(program(words.as_slice(), &SystemFiles { rt }))
}

/// Says on `err` why the command line's words can't be had, and answers the exit status for that.
fn status_without_words<E: ByteOutput>(error: &io::Error, err: &mut E) -> u8 {
    match error.kind() {
        ErrorKind::OutOfMemory => without_words(err),
        ErrorKind::InvalidData => with_unreadable_words(err),
        _ => 3,
    }
}
