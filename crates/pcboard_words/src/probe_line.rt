//! Reading the words of the command line of `pcprobe`.
ghost use Rattle.std.specs.Prelude.{◌≡◌, IfOk, map, false};
ghost use Rattle.clap.specs.Words.{app_of, found_of, rows_of};
ghost use Rattle.pcboard_words.specs.CommandLine.{has_globals};
ghost use Rattle.pcboard_words.specs.ProbeLine.{AnswersProbe, HoldsFiles, IsSessionOf, probe_app};

use crate::line::{board_command, is_given, line_fault, text_in};
use crate::task::{LineFault, Task};
use clap::{ArgMatches, Command};
use std::alloc::{AllocError, Global};

/// Reads the words after the name of the program `pcprobe`, `FILE RUN [--hex]`, as the task of a session. Refused as
/// `Usage`, with the text of `clap`, if that refuses the words, and as `Memory` for want of memory.
#[tactic(auto, unfolding(crate::specs::ProbeLine::AnswersProbe))]
pub fn read_probe_words<'a>(alloc: Global, words: &'a [&'a str]) -> Result<Task<'a>, LineFault>
    ensures { AnswersProbe (map (λ word. word.now) words.entry.now) result }
{
    let command = match probe_command(alloc) {
        Ok(command) => command,
        Err(_) => return Err(LineFault::Memory),
    };
    match command.try_get_matches_from(words) {
        Ok(matches) => {
            let task = probe_task(&matches);
            drop(matches);
            Ok(task)
        }
        Err(error) => {
            let fault = line_fault(alloc, &error);
            drop(error);
            Err(fault)
        }
    }
}

/// Describes the command line of `pcprobe`, `FILE RUN [--hex]`, to `clap`, which reads the words by it.
fn probe_command<'a>(alloc: Global) -> Result<Command<'a>, AllocError>
    ensures { IfOk result (λ command. app_of command ≡ probe_app) }
{
    let command = board_command(
        alloc,
        "pcprobe",
        "Answers commands from standard input about a program's board, as `pcboard debug` does, and inquiries",
    )?;
    Ok(command.bin_name("pcprobe")?.no_binary_name(true))
}

/// Turns what `clap` found in the words of `pcprobe` into the task that the program does: a session about a program's
/// board.
fn probe_task<'a>(matches: &ArgMatches<'a>) -> Task<'a>
    requires { HoldsFiles (rows_of (found_of matches.now)) }
    ensures { IsSessionOf (rows_of (found_of matches.now)) result }
{
    Task::Debug {
        file: text_in(matches, "FILE"),
        run: text_in(matches, "RUN"),
        hex: is_given(matches, "hex"),
    }
}
