//! The program `pcprobe`, on the files and streams of the system.
#![tactic(auto)]

use pcboard_texts::system::run_on_system;
use pcprobe_program::program::program;
use std::process::ExitCode;
use streams::files::ReadFiles;
use streams::heard::Heard;
use streams::kept::Kept;

/// Runs `pcprobe` on the words of its command line, the system's files and standard streams: begins a session and
/// answers the lines typed until `quit`.
fn main(rt: HostRuntime) -> ExitCode {
    run_on_system(&rt, |words, files| {
        program(
            rt.alloc(),
            words,
            &mut ReadFiles::new(*files),
            &mut Heard::new(rt.stdin()),
            &mut Kept::new(rt.stdout()),
            &mut Kept::new(rt.stderr()),
        )
    })
}
