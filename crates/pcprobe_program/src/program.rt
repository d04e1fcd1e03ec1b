//! The program, over any files, standard input and writers.
ghost use Rattle.std.specs.Prelude.{◌≡◌, ◌≢◌, ◌≤◌, ◌⊎◌, map, Ok, Some, true};
ghost use Rattle.streams.specs.ByteInput.{CountsNone};
ghost use Rattle.pcboard_words.specs.Files.{LacksFile};
ghost use Rattle.pcboard_words.specs.ProbeLine.{AnswersProbe as AnswersWords};
ghost use Rattle.pcboard_words.specs.declared.task.Task.{Task};
ghost use Rattle.pcboard_texts.specs.Given.{noted};
ghost use Rattle.pcboard_texts.specs.Refusal.{EndsUnjudged, TellsA};
ghost use Rattle.pcprobe_program.specs.Probing.{IsTrueOfProbeWords, PrintsNoProbing, PrintsProbing, RefusesProbeWords};

use crate::tool::Pcprobe;
use pcboard_program::program::program_of;
use std::alloc::Global;
use streams::byte_input::ByteInput;
use streams::byte_output::ByteOutput;
use streams::files::ReadFiles;
use streams::heard::Heard;
use streams::kept::Kept;
use streams::opener::Opener;

/// Runs `pcprobe`: does what `words`, those after its name, ask for, and answers the exit status: 0; 1 for a refusal, a
/// line on `err`; 2 for words that name no task, with the usage on `err`; 3, with no text, if an opening, a read or a
/// write failed. What it promises is told of the bytes that the reads gave and the writes took, whatever the files, the
/// input and the writers are.
pub fn program<F: Opener, I: ByteInput, O: ByteOutput, E: ByteOutput>(
    alloc: Global,
    words: &[&str],
    files: &mut ReadFiles<F>,
    input: &mut Heard<I>,
    out: &mut Kept<O>,
    err: &mut Kept<E>,
) -> u8
    ensures status { result ≤ 3 }

    // At status 0 the writes of `out` took exactly the stated text of the answer to the task that the words name, by the
    // bytes that the reads of this run gave.
    ensures printed { result ≡ 0 → PrintsProbing (map (λ word. word.now) words.entry.now)
        (noted files.old.log.files files.new.log.files input.old.log.bytes input.new.log.bytes input.new.ended)
        (Some out.old.log.bytes) (Some out.new.log.bytes) }

    // At status 0 nothing is written to `err`.
    ensures untold { result ≡ 0 → err.new.log.bytes ≡ err.old.log.bytes }

    // At status 1 the writes of `err` took exactly the line of a refusal that is true of what was read.
    ensures told { result ≡ 1 → TellsA (IsTrueOfProbeWords (map (λ word. word.now) words.entry.now)
        (noted files.old.log.files files.new.log.files input.old.log.bytes input.new.log.bytes input.new.ended))
        (Some err.old.log.bytes) (Some err.new.log.bytes) }

    // At status 1 the writes of `out` took nothing; or the words name a session, and they took the replies to the first
    // ones of the lines that were typed.
    ensures withheld { result ≡ 1 → PrintsNoProbing (map (λ word. word.now) words.entry.now)
        (noted files.old.log.files files.new.log.files input.old.log.bytes input.new.log.bytes input.new.ended)
        (Some out.old.log.bytes) (Some out.new.log.bytes) }

    // At status 2 the words name no task, and the writes of `err` took the text that says so.
    ensures usage { result ≡ 2 → RefusesProbeWords (map (λ word. word.now) words.entry.now) (Some err.old.log.bytes)
        (Some err.new.log.bytes) }

    // At status 2 nothing is printed.
    ensures unprinted { result ≡ 2 → out.new.log.bytes ≡ out.old.log.bytes }

    // If a file that the words name can't be opened, nothing is judged.
    ensures lacking { (task : Task) → AnswersWords (map (λ word. word.now) words.entry.now) (Ok task)
        → LacksFile task (F.lacks files.old.opener)
        → EndsUnjudged task result (Some err.old.log.bytes) (Some err.new.log.bytes) }

    // At any status but 3 no read of the input has failed.
    ensures unfailed { result ≢ 3 → CountsNone (I.failures input.old.inner) (I.failures input.new.inner) }

    // At status 3 an opening, a read or a write has failed.
    ensures lost { result ≡ 3 → (files.new.failed ≡ true) ⊎ (input.new.failed ≡ true)
        ⊎ (out.new.failed ≡ true) ⊎ (err.new.failed ≡ true) }
{
    program_of::<Pcprobe, ReadFiles<F>, Heard<I>, Kept<O>, Kept<E>>(
        alloc, words, files, input, out, err,
    )
}
