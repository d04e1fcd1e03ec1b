//! One run of the program on a case.
use crate::case::Case;
use crate::texts::{Calls, Input, Output};
use anyhow::Result;
use pcboard_program::program::program;
use std::alloc::Global;
use std::io;
use streams::files::ReadFiles;
use streams::heard::Heard;
use streams::kept::Kept;
use streams::opener::Opener;

/// The numbers, from 0, of the calls that fail: a read of the files and standard input together, a write of standard
/// output, and one of standard error.
#[derive(Clone, Copy)]
pub struct Failing {
    pub read: Option<u64>,
    pub out: Option<u64>,
    pub err: Option<u64>,
}

impl Failing {
    /// No call fails.
    pub const NONE: Failing = Failing {
        read: None,
        out: None,
        err: None,
    };
}

/// What a run came to.
#[derive(Drop)]
pub struct Ran {
    pub status: u8,
    pub out: Output,
    pub err: Output,
    /// How many reads were made.
    pub reads: u64,
}

impl Ran {
    /// Whether the run ended as it has to at a read or a write that failed: status 3, standard error empty, and
    /// standard output the beginning of that of `whole`, the run without failures.
    pub fn is_cut_off(&self, whole: &Ran) -> bool {
        self.status == 3 && self.err.is("") && whole.out.begins_with(&self.out)
    }
}

/// The files of a case.
#[derive(Clone, Copy)]
struct Files<'a> {
    case: Case<'a>,
    reads: &'a Calls,
}

impl<'a> Opener for Files<'a> {
    type Input = Input<'a>;

    /// Opens the file of this name for the program: a text of the case, or NotFound if it has none. Its reads count
    /// among those of the run.
    fn open(&self, path: &str) -> io::Result<Input<'a>> {
        match self.case.file(path) {
            Some(text) => Ok(Input::new(text, self.reads)),
            None => Err(io::Error::from(io::ErrorKind::NotFound)),
        }
    }
}

/// Runs `pcboard` on a case's words, files and input, with these calls failing, for the case to judge what it came to.
/// Fails if there is no memory for it.
pub fn run(alloc: Global, case: Case<'_>, failing: Failing) -> Result<Ran> {
    let mut words = Vec::new(alloc);
    for word in case.part("words").unwrap_or("").split(' ') {
        if !word.is_empty() {
            words.push(word)?;
        }
    }
    let reads = Calls::new(failing.read);
    let files = Files {
        case,
        reads: &reads,
    };
    let input = Input::new(case.part("input").unwrap_or(""), &reads);
    let mut out = Output::new(alloc, failing.out);
    let mut err = Output::new(alloc, failing.err);
    let status = program(
        alloc,
        words.as_slice(),
        &mut ReadFiles::new(files),
        &mut Heard::new(input),
        &mut Kept::new(&mut out),
        &mut Kept::new(&mut err),
    );
    let reads = reads.made();
    Ok(Ran {
        status,
        out,
        err,
        reads,
    })
}
