//! Reading the words of the command line.
ghost use Rattle.std.specs.Prelude.{◌≡◌, ◌≢◌, IfOk, IfSome, map, true, false};
ghost use Rattle.clap.specs.Words.{app_of, with_subcommand, found_of, kind_of, rows_of, rule_of, subcommand_rows_of};
ghost use Rattle.pcboard_words.specs.CommandLine.{Answers, HasText, HoldsTask, IsTaskOf, OnUsage, app, asm_command, board_command, flag, has_globals, is_given, is_there, required_word};

use crate::task::{LineFault, Task};
use clap::error::ErrorKind;
use clap::{Arg, ArgAction, ArgMatches, Command, Error};
use std::alloc::{AllocError, Global};

/// Reads the words after the name of the program `pcboard` as its task: no word for the stored run, or `asm FILE
/// [--list]`, `run FILE RUN [--hex]` or `debug FILE RUN [--hex]`. Refused as `Usage`, with the text of `clap`, if that
/// refuses the words, and as `Memory` for want of memory.
#[tactic(auto, unfolding(crate::specs::CommandLine::Answers))]
pub fn read_words<'a>(alloc: Global, words: &'a [&'a str]) -> Result<Task<'a>, LineFault>
    ensures { Answers (map (λ word. word.now) words.entry.now) result }
{
    let command = match command(alloc) {
        Ok(command) => command,
        Err(_) => return Err(LineFault::Memory),
    };
    match command.try_get_matches_from(words) {
        Ok(matches) => {
            let task = task(&matches);
            drop(matches);
            Ok(task)
        }
        Err(error) => {
            let fault = line_fault(alloc, &error);
            drop(error);
            Err(fault)
        }
    }
}

/// Describes the command line of `pcboard` to `clap`, which reads the words by it: the subcommands `asm`, `run` and
/// `debug`, and none for a run from standard input.
fn command<'a>(alloc: Global) -> Result<Command<'a>, AllocError>
    ensures { IfOk result (λ command. app_of command ≡ app) }
{
    let command = Command::new(alloc, "pcboard")
        .about(
            "An IBM PC 5150 board. Without a subcommand it reads a run file and a source from standard input",
        )
        .bin_name("pcboard")?
        .no_binary_name(true)
        .disable_help_subcommand(true);
    let command = with_asm(alloc, command)?;
    let command = with_board(
        alloc,
        command,
        "run",
        "Runs a program and prints the report",
    )?;
    with_board(
        alloc,
        command,
        "debug",
        "Answers commands from standard input about a program's board",
    )
}

/// Adds the subcommand `asm`, which assembles a source, to a command line's description. `clap` may lack memory for it;
/// the description is dropped then.
fn with_asm<'a>(alloc: Global, command: Command<'a>) -> Result<Command<'a>, AllocError>
    ensures { IfOk result (λ r. app_of r ≡ with_subcommand (app_of command.entry) asm_command.top) }
{
    match asm_command(alloc) {
        Ok(added) => command.subcommand(added),
        Err(error) => {
            drop(command);
            Err(error)
        }
    }
}

/// Adds a subcommand that puts a program on a board, `run` or `debug`, to a command line's description. `clap` may lack
/// memory for it; the description is dropped then.
fn with_board<'a>(
    alloc: Global,
    command: Command<'a>,
    name: &'a str,
    about: &'a str,
) -> Result<Command<'a>, AllocError>
    ensures { IfOk result (λ r. app_of r ≡ with_subcommand (app_of command.entry) (board_command name.entry.now).top) }
{
    match board_command(alloc, name, about) {
        Ok(added) => command.subcommand(added),
        Err(error) => {
            drop(command);
            Err(error)
        }
    }
}

/// Describes the subcommand `asm FILE [--list]` to `clap`, with its text of help.
fn asm_command<'a>(alloc: Global) -> Result<Command<'a>, AllocError>
    ensures shape { IfOk result (λ command. app_of command ≡ asm_command) }
    ensures local { IfOk result (λ command. has_globals command ≡ false) }
{
    Command::new(alloc, "asm")
        .about("Assembles a source and prints its bytes as Intel HEX, or with --list its listing")
        .arg(required_word(alloc, "FILE", "The program's source"))?
        .arg(flag(
            alloc,
            "list",
            "Prints the listing in place of the Intel HEX text",
        ))
}

/// Describes the words that put a program on a board, `FILE RUN [--hex]`, to `clap`: for the subcommands `run` and
/// `debug` of `pcboard`, and for the whole command line of `pcprobe`.
pub(crate) fn board_command<'a>(
    alloc: Global,
    name: &'a str,
    about: &'a str,
) -> Result<Command<'a>, AllocError>
    ensures shape { IfOk result (λ command. app_of command ≡ board_command name.entry.now) }
    ensures local { IfOk result (λ command. has_globals command ≡ false) }
{
    Command::new(alloc, name)
        .about(about)
        .arg(required_word(alloc, "FILE", "The program's source, or its Intel HEX text"))?
        .arg(required_word(alloc, "RUN", "The run file"))?
        .arg(flag(alloc, "hex", "FILE is an Intel HEX text, not a source"))
}

/// Describes an argument that must be there, such as a file's name, to `clap`.
fn required_word<'a>(alloc: Global, name: &'a str, help: &'a str) -> Arg<'a>
    ensures rule { rule_of result ≡ required_word name.entry.now }
    ensures local { result.global ≡ false }
{
    Arg::new(alloc, name)
        .required(true)
        .action(ArgAction::Set)
        .help(help)
}

/// Describes an option `--NAME` without a value, such as `--hex`, to `clap`.
fn flag<'a>(alloc: Global, name: &'a str, help: &'a str) -> Arg<'a>
    ensures rule { rule_of result ≡ flag name.entry.now }
    ensures local { result.global ≡ false }
{
    Arg::new(alloc, name)
        .long(name)
        .action(ArgAction::SetTrue)
        .help(help)
}

/// Turns what `clap` found in the words of `pcboard` into the task that the program does.
fn task<'a>(matches: &ArgMatches<'a>) -> Task<'a>
    requires { IfSome (subcommand_rows_of matches.now) HoldsTask }
    ensures { IsTaskOf (subcommand_rows_of matches.now) result }
{
    match matches.subcommand() {
        None => Task::Stored,
        Some(("asm", found)) => Task::Asm {
            file: text_in(found, "FILE"),
            list: is_given(found, "list"),
        },
        Some(("run", found)) => Task::Run {
            file: text_in(found, "FILE"),
            run: text_in(found, "RUN"),
            hex: is_given(found, "hex"),
        },
        Some((_, found)) => Task::Debug {
            file: text_in(found, "FILE"),
            run: text_in(found, "RUN"),
            hex: is_given(found, "hex"),
        },
    }
}

/// Returns the text of an argument that `clap` has found, such as a file's name. Only arguments that must be there are
/// asked for, so the empty text is never taken in its place.
#[tactic(auto, using(crate::proofs::Matches::first_rows))]
pub(crate) fn text_in<'a>(matches: &ArgMatches<'a>, name: &str) -> &'a str
    requires { is_there name.now (rows_of (found_of matches.now)) ≡ true }
    ensures { HasText name.now (rows_of (found_of matches.now)) result.now }
{
    matches.get_str(name).unwrap_or("")
}

/// Whether an option such as `--hex` is among the words: `clap` gives it the value `true` then.
#[tactic(auto, using(crate::proofs::Matches::first_rows))]
pub(crate) fn is_given(matches: &ArgMatches<'_>, name: &str) -> bool
    ensures { result ≡ is_given name.now (rows_of (found_of matches.now)) }
{
    matches.get_str(name) == Some("true")
}

/// Turns the error with which `clap` refuses the words into why they name no task: `Memory` if it ran out, or else
/// `Usage` with its text, which the program prints to standard error.
pub(crate) fn line_fault(alloc: Global, error: &Error) -> LineFault
    ensures { OnUsage result (kind_of error.now ≢ ErrorKind.OutOfMemory) }
{
    if error.kind() == ErrorKind::OutOfMemory {
        return LineFault::Memory;
    }
    match format!(in alloc; "{error}") {
        Ok(text) => LineFault::Usage(text),
        Err(_) => LineFault::Memory,
    }
}
