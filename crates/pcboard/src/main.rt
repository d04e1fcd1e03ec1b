//! The program `pcboard`, on the files and streams of the system.
#![tactic(auto)]

use pcboard_program::program::program;
use pcboard_texts::system::run_on_system;
use std::process::ExitCode;
use streams::files::ReadFiles;
use streams::heard::Heard;
use streams::kept::Kept;

/// Runs `pcboard` on the words of its command line, the system's files and its standard streams, and ends with its exit
/// status.
fn main(rt: HostRuntime) -> ExitCode {
    run_on_system(&rt, |words, files| {
        program(
            rt.alloc(),
            words,
            &mut ReadFiles::new(*files),
            &mut Heard::new(rt.stdin()),
            &mut Kept::new(rt.stdout()),
            &mut Kept::new(rt.stderr()),
        )
    })
}
