//! The programs `pcboard` and `pcprobe`, over texts in memory.
ghost use Rattle.std.specs.Prelude.{◌≡◌, ◌≢◌, ◌≤◌, ◌<◌, map, None, Ok, Some};
ghost use Rattle.std.specs.Io.KnownBytes.{Appends};
ghost use Rattle.board_types.specs.TextLines.{text_lines};
ghost use Rattle.pcboard_words.specs.CommandLine.{Answers as AnswersWords};
ghost use Rattle.pcboard_words.specs.ProbeLine.{AnswersProbe};
ghost use Rattle.pcboard_words.specs.Files.{LacksFile};
ghost use Rattle.pcboard_words.specs.declared.task.Task.{Task};
ghost use Rattle.pcboard_texts.specs.Answer.{PrintsFor};
ghost use Rattle.pcboard_texts.specs.Refusal.{EndsUnjudged, IsTrueOfWordsFor, PrintsNoAnswerFor, RefusesWordsFor, TellsA, want_of_board};
ghost use Rattle.pcboard_texts.specs.RunFaults.{fault_text};
ghost use Rattle.pcboard_texts.specs.Transcript.{AnswersCommand};
ghost use Rattle.pcprobe_program.specs.Probing.{AnswersProbing};
ghost use Rattle.zebludor_program.specs.Programs.{Ends, IsEnd, file_named, read_of};

use crate::buffer::hand_text;
use crate::texts::Texts;
use crate::words::{NoWords, words_in};
use pcboard_program::program::program_of;
use pcboard_program::tool::{Pcboard, Tool};
use pcboard_texts::telling::{with_unreadable_words, without_words};
use pcprobe_program::tool::Pcprobe;
use std::alloc::Global;

/// How a program ended.
#[repr(C)]
#[derive(Clone, Copy)]
pub struct Ended {
    /// How many bytes standard output has. If they are more than `out` has room for, `out` is as it was.
    pub out: u64,
    /// How many bytes standard error has. If they are more than `err` has room for, `err` is as it was.
    pub err: u64,
    /// The exit status.
    pub status: u8,
}

/// Runs `pcboard` for a caller in C on the lines of `words`, with the files `FILE` and `RUN` and this standard input,
/// and writes standard output into `out` and standard error into `err`.
#[unsafe(no_mangle)]
pub extern "C" fn zebludor_pcboard(
    alloc: Global,
    words: &[u8],
    file: &[u8],
    run: &[u8],
    input: &[u8],
    out: &mut [u8],
    err: &mut [u8],
    ended: &mut Ended,
)
    ensures { Ends AnswersWords AnswersCommand words.now file.now run.now input.now out.old out.new err.old err.new
        ended.new }
{
    *ended = run_program::<Pcboard>(alloc, words, Texts { file, run }, input, out, err);
}

/// Runs `pcprobe` for a caller in C on the lines of `words`, as `zebludor_pcboard` does `pcboard`.
#[unsafe(no_mangle)]
pub extern "C" fn zebludor_pcprobe(
    alloc: Global,
    words: &[u8],
    file: &[u8],
    run: &[u8],
    input: &[u8],
    out: &mut [u8],
    err: &mut [u8],
    ended: &mut Ended,
)
    ensures { Ends AnswersProbe AnswersProbing words.now file.now run.now input.now out.old out.new err.old err.new
        ended.new }
{
    *ended = run_program::<Pcprobe>(alloc, words, Texts { file, run }, input, out, err);
}

/// Runs a program for a caller in C, and hands both of its texts over.
fn run_program<T: Tool>(
    alloc: Global,
    words: &[u8],
    texts: Texts<'_>,
    input: &[u8],
    out: &mut [u8],
    err: &mut [u8],
) -> Ended
    ensures { Ends T.reads T.answers words.now texts.entry.file.now texts.entry.run.now input.now out.old out.new err.old
        err.new result }
{
    let mut printed = Vec::new(alloc);
    let mut told = Vec::new(alloc);
    let mut typed = input;
    let status = status_of::<T>(alloc, words, texts, &mut typed, &mut printed, &mut told);
    Ended {
        out: hand_text(printed, out),
        err: hand_text(told, err),
        status,
    }
}

/// Runs a program on the lines of `words`, and gives its exit status; what it prints and tells is put after what the
/// two vectors hold, and what it doesn't read of the input is left.
fn status_of<T: Tool>(
    alloc: Global,
    words: &[u8],
    texts: Texts<'_>,
    typed: &mut &[u8],
    printed: &mut Vec<u8>,
    told: &mut Vec<u8>,
) -> u8
    ensures { IsEnd T.reads T.answers (text_lines words.now)
        (read_of texts.entry.file.now texts.entry.run.now typed.old.now typed.new.now)
        (λ name. file_named texts.entry.file.now texts.entry.run.now name ≡ None)
        printed.old.items printed.new.items told.old.items told.new.items result }
{
    match words_in(alloc, words) {
        Ok(list) => program_over::<T>(alloc, list.as_slice(), texts, typed, printed, told),
        Err(NoWords::Unreadable) => with_unreadable_words(told),
        Err(NoWords::Memory) => without_memory(told),
    }
}

/// Tells that there is no memory for the words, and gives the exit status; nothing was judged then.
fn without_memory(told: &mut Vec<u8>) -> u8
    ensures above { 0 < result }
    ensures within { result ≤ 3 }
    ensures status { result ≢ 2 }
    ensures told { result ≡ 1 → Appends (Some told.old.items) (Some told.new.items) (fault_text want_of_board) }
    ensures unjudged { (task : Task) → EndsUnjudged task result (Some told.old.items) (Some told.new.items) }
{
    without_words(told)
}

/// Runs a program on words, as `status_of` does, with the clauses of the programs' contract.
fn program_over<T: Tool>(
    alloc: Global,
    words: &[&str],
    texts: Texts<'_>,
    typed: &mut &[u8],
    printed: &mut Vec<u8>,
    told: &mut Vec<u8>,
) -> u8
    ensures status { result ≤ 3 }
    ensures printed { result ≡ 0 → PrintsFor T.reads T.answers (map (λ word. word.now) words.entry.now)
        (read_of texts.entry.file.now texts.entry.run.now typed.old.now typed.new.now) (Some printed.old.items)
        (Some printed.new.items) }
    ensures untold { result ≡ 0 → told.new.items ≡ told.old.items }
    ensures told { result ≡ 1 → TellsA (IsTrueOfWordsFor T.reads (map (λ word. word.now) words.entry.now)
        (read_of texts.entry.file.now texts.entry.run.now typed.old.now typed.new.now)) (Some told.old.items)
        (Some told.new.items) }
    ensures withheld { result ≡ 1 → PrintsNoAnswerFor T.reads T.answers (map (λ word. word.now) words.entry.now)
        (read_of texts.entry.file.now texts.entry.run.now typed.old.now typed.new.now) (Some printed.old.items)
        (Some printed.new.items) }
    ensures usage { result ≡ 2 → RefusesWordsFor T.reads (map (λ word. word.now) words.entry.now) (Some told.old.items)
        (Some told.new.items) }
    ensures unprinted { result ≡ 2 → printed.new.items ≡ printed.old.items }
    ensures lacking { (task : Task) → T.reads (map (λ word. word.now) words.entry.now) (Ok task)
        → LacksFile task (λ name. file_named texts.entry.file.now texts.entry.run.now name ≡ None)
        → EndsUnjudged task result (Some told.old.items) (Some told.new.items) }
{
    let mut files = texts;
    program_of::<T, Texts<'_>, &[u8], Vec<u8>, Vec<u8>>(
        alloc, words, &mut files, typed, printed, told,
    )
}
