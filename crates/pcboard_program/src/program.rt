//! The program, over any files, standard input and writers.
ghost use Rattle.std.specs.Prelude.{◌≡◌, ◌≢◌, ◌≤◌, map, ◌⊎◌, IfErr, IsErrAnd, Ok, OnErr, OnOk, Some, string_bytes, true};
ghost use Rattle.std.specs.Io.KnownBytes.{Appends};
ghost use Rattle.streams.specs.ByteInput.{CountsNone};
ghost use Rattle.pcboard_words.specs.CommandLine.{Answers as AnswersWords};
ghost use Rattle.pcboard_words.specs.Files.{LacksFile, hex_of};
ghost use Rattle.pcboard_words.specs.declared.task.Task.{Task};
ghost use Rattle.pcboard_texts.specs.Given.{given_by, noted};
ghost use Rattle.pcboard_texts.specs.Answer.{Prints, PrintsFor, PrintsTask};
ghost use Rattle.pcboard_texts.specs.Refusal.{EndsUnjudged, IsTrueOfWordsFor, IsTrueOfTask, IsTrueOfWords, IsWantOfTask, PrintsNoAnswer, PrintsNoAnswerFor, PrintsReplies, RefusesWordsFor, RefusesWords, TellsA, want_of_file};
ghost use Rattle.pcboard_texts.specs.Unanswered.{EndsFor, IsUnjudged, UnlessFailed, WhereFailed, WhereRefused};

use crate::debugging::print_session;
use crate::ready::{read_board, read_report, stored_report};
use crate::report::Report;
use crate::tool::{Pcboard, Tool};
use pcboard_texts::assembled::print_assembled;
use pcboard_texts::telling::{print, refused, told, without_words};
use pcboard_texts::unanswered::Unanswered;
use pcboard_words::task::{LineFault, Task};
use std::alloc::Global;
use streams::byte_input::ByteInput;
use streams::byte_output::ByteOutput;
use streams::files::{Files, ReadFiles};
use streams::heard::Heard;
use streams::kept::Kept;
use streams::opener::Opener;

/// Runs `pcboard`: does what `words`, those after its name, ask for, and answers the exit status: 0; 1 for a refusal, a
/// line on `err`; 2 for words that name no task, with the usage on `err`; 3, with no text, if an opening, a read or a
/// write failed. What it promises is told of the bytes that the reads gave and the writes took, whatever the files, the
/// input and the writers are.
pub fn program<F: Opener, I: ByteInput, O: ByteOutput, E: ByteOutput>(
    alloc: Global,
    words: &[&str],
    files: &mut ReadFiles<F>,
    input: &mut Heard<I>,
    out: &mut Kept<O>,
    err: &mut Kept<E>,
) -> u8
    ensures status { result ≤ 3 }

    // At status 0 the writes of `out` took exactly the stated text of the answer to the task that the words name, by the
    // bytes that the reads of this run gave.
    ensures printed { result ≡ 0 → Prints (map (λ word. word.now) words.entry.now)
        (noted files.old.log.files files.new.log.files input.old.log.bytes input.new.log.bytes input.new.ended)
        (Some out.old.log.bytes) (Some out.new.log.bytes) }

    // At status 0 nothing is written to `err`.
    ensures untold { result ≡ 0 → err.new.log.bytes ≡ err.old.log.bytes }

    // At status 1 the writes of `err` took exactly the line of a refusal that is true of what was read.
    ensures told { result ≡ 1 → TellsA (IsTrueOfWords (map (λ word. word.now) words.entry.now)
        (noted files.old.log.files files.new.log.files input.old.log.bytes input.new.log.bytes input.new.ended))
        (Some err.old.log.bytes) (Some err.new.log.bytes) }

    // At status 1 the writes of `out` took nothing; or the words name a session, and they took the replies to the first
    // ones of the lines that were typed.
    ensures withheld { result ≡ 1 → PrintsNoAnswer (map (λ word. word.now) words.entry.now)
        (noted files.old.log.files files.new.log.files input.old.log.bytes input.new.log.bytes input.new.ended)
        (Some out.old.log.bytes) (Some out.new.log.bytes) }

    // At status 2 the words name no task, and the writes of `err` took the text that says so.
    ensures usage { result ≡ 2 → RefusesWords (map (λ word. word.now) words.entry.now) (Some err.old.log.bytes)
        (Some err.new.log.bytes) }

    // At status 2 nothing is printed.
    ensures unprinted { result ≡ 2 → out.new.log.bytes ≡ out.old.log.bytes }

    // If a file that the words name can't be opened, nothing is judged.
    ensures lacking { (task : Task) → AnswersWords (map (λ word. word.now) words.entry.now) (Ok task)
        → LacksFile task (F.lacks files.old.opener)
        → EndsUnjudged task result (Some err.old.log.bytes) (Some err.new.log.bytes) }

    // At any status but 3 no read of the input has failed.
    ensures unfailed { result ≢ 3 → CountsNone (I.failures input.old.inner) (I.failures input.new.inner) }

    // At status 3 an opening, a read or a write has failed.
    ensures lost { result ≡ 3 → (files.new.failed ≡ true) ⊎ (input.new.failed ≡ true)
        ⊎ (out.new.failed ≡ true) ⊎ (err.new.failed ≡ true) }
{
    program_of::<Pcboard, ReadFiles<F>, Heard<I>, Kept<O>, Kept<E>>(
        alloc, words, files, input, out, err,
    )
}

/// Runs a program that shares all with `pcboard` but its words and its answers to typed lines, which are the tool's,
/// and answers the exit status, as `program` does; `pcprobe` is one.
pub fn program_of<T: Tool, F: Files, I: ByteInput, O: ByteOutput, E: ByteOutput>(
    alloc: Global,
    words: &[&str],
    files: &mut F,
    input: &mut I,
    out: &mut O,
    err: &mut E,
) -> u8
    ensures status { result ≤ 3 }
    ensures printed { result ≡ 0 → PrintsFor T.reads T.answers (map (λ word. word.now) words.entry.now)
        (given_by F.gave files.old files.new I.gave I.ended input.old input.new) (O.contents out.old) (O.contents out.new) }
    ensures untold { result ≡ 0 → E.contents err.new ≡ E.contents err.old }
    ensures told { result ≡ 1 → TellsA (IsTrueOfWordsFor T.reads (map (λ word. word.now) words.entry.now)
        (given_by F.gave files.old files.new I.gave I.ended input.old input.new)) (E.contents err.old) (E.contents err.new) }
    ensures withheld { result ≡ 1 → PrintsNoAnswerFor T.reads T.answers (map (λ word. word.now) words.entry.now)
        (given_by F.gave files.old files.new I.gave I.ended input.old input.new) (O.contents out.old) (O.contents out.new) }
    ensures usage { result ≡ 2 → RefusesWordsFor T.reads (map (λ word. word.now) words.entry.now) (E.contents err.old)
        (E.contents err.new) }
    ensures unprinted { result ≡ 2 → O.contents out.new ≡ O.contents out.old }
    ensures lacking { (task : Task) → T.reads (map (λ word. word.now) words.entry.now) (Ok task)
        → LacksFile task (F.lacks files.old) → EndsUnjudged task result (E.contents err.old) (E.contents err.new) }
    ensures unfailed { result ≢ 3 → CountsNone (I.failures input.old) (I.failures input.new) }
    ensures lost { result ≡ 3 → F.lost files.new ⊎ I.lost input.new ⊎ O.lost out.new ⊎ E.lost err.new }
{
    let task = match T::read(alloc, words) {
        Ok(task) => task,
        Err(LineFault::Usage(text)) => return told(err, text.as_str(), 2),
        Err(LineFault::Memory) => return without_words(err),
    };
    match print_task::<T, F, I, O>(alloc, task, files, input, out) {
        Ok(()) => 0,
        Err(Unanswered::Refused(fault)) => refused(err, fault),
        Err(Unanswered::Failed) => 3,
    }
}

/// Prints the answer to the task that the command line names: a report, a HEX text, a listing, or a session's replies.
fn print_task<T: Tool, F: Files, I: ByteInput, O: ByteOutput>(
    alloc: Global,
    task: Task<'_>,
    files: &mut F,
    input: &mut I,
    out: &mut O,
) -> Result<(), Unanswered>
    ensures printed { OnOk result (PrintsTask T.answers task.entry
        (given_by F.gave files.old files.new I.gave I.ended input.old input.new) (O.contents out.old) (O.contents out.new)) }
    ensures withheld { IfErr result (WhereRefused (O.contents out.new ≡ O.contents out.old
        ⊎ PrintsReplies T.answers task.entry (given_by F.gave files.old files.new I.gave I.ended input.old input.new) (O.contents out.old)
        (O.contents out.new))) }
    ensures end { IfErr result (EndsFor (IsWantOfTask task.entry)
        (IsTrueOfTask task.entry (given_by F.gave files.old files.new I.gave I.ended input.old input.new))) }
    ensures lacking { LacksFile task.entry (F.lacks files.old)
        → IsErrAnd result (IsUnjudged (λ fault. fault ≡ want_of_file (hex_of task.entry))) }
    ensures unfailed { UnlessFailed (CountsNone (I.failures input.old) (I.failures input.new)) result }
    ensures lost { IfErr result (WhereFailed (F.lost files.new ⊎ I.lost input.new ⊎ O.lost out.new)) }
{
    match task {
        Task::Stored => {
            let report = stored_report(alloc, input)?;
            print_report(report, out)
        }
        Task::Asm { file, list } => print_assembled(alloc, files, file, list, out),
        Task::Run { file, run, hex } => {
            let report = read_report(alloc, files, file, run, hex)?;
            print_report(report, out)
        }
        Task::Debug { file, run, hex } => {
            let board = read_board(alloc, files, file, run, hex)?;
            print_session::<T, I, O>(alloc, board, input, out)
        }
    }
}

/// Prints the report of a run, and drops the report with its board.
fn print_report<O: ByteOutput>(report: Report, out: &mut O) -> Result<(), Unanswered>
    ensures printed { OnOk result (Appends (O.contents out.old) (O.contents out.new)
        (string_bytes report.text)) }
    ensures kept { IfErr result (WhereRefused (O.contents out.new ≡ O.contents out.old)) }
    ensures end { IfErr result (λ end. end ≡ Unanswered.Failed) }
    ensures lost { OnErr result (O.lost out.new) }
{
    let printed = print(out, report.text.as_str());
    drop(report);
    Ok(printed?)
}
