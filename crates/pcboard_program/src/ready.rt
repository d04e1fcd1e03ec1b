//! What a task's files and input give: the report of a run, or a board for a session.
ghost use Rattle.std.specs.Prelude.{◌≡◌, false, ◌⊎◌, IfErr, IfOk, IsErrAnd, string_bytes};
ghost use Rattle.streams.specs.ByteInput.{CountsNone};
ghost use Rattle.pcboard_texts.specs.Given.{GaveTwo, Of, OfTwo};
ghost use Rattle.pcboard_texts.specs.Answer.{IsBoardOf, IsReport, IsTrueRefusal, run_text_of, source_of};
ghost use Rattle.pcboard_texts.specs.Refusal.{IsWantOfRun, want_of_file};
ghost use Rattle.pcboard_texts.specs.Unanswered.{EndsFor, IsUnjudged, UnlessFailed, WhereFailed};

use crate::report::Report;
use crate::run::{new_board, run_texts};
use assembler::fault::AsmFault;
use board::board::Board;
use pcboard_texts::fault::Fault;
use pcboard_texts::input::{read_files, read_whole};
use pcboard_texts::texts::{parted, read_texts};
use pcboard_texts::unanswered::Unanswered;
use std::alloc::Global;
use streams::byte_input::ByteInput;
use streams::files::Files;

/// Runs what stands on standard input, a run file in its first line and then a source, and answers the report, for the
/// program called without a file.
pub(crate) fn stored_report<I: ByteInput>(
    alloc: Global,
    input: &mut I,
) -> Result<Report, Unanswered>
    ensures report { IfOk result (λ report. I.ended input.new × Of (I.gave input.old input.new)
        (λ text. IsReport false (source_of text) (run_text_of text) (string_bytes report.text))) }
    ensures end { IfErr result (EndsFor (IsWantOfRun false) (λ fault. I.ended input.new
        × Of (I.gave input.old input.new) (λ text. IsTrueRefusal false (source_of text) (run_text_of text) fault))) }
    ensures unfailed { UnlessFailed (CountsNone (I.failures input.old) (I.failures input.new)) result }
    ensures lost { IfErr result (WhereFailed (I.lost input.new)) }
{
    let text = read_whole(alloc, input, Fault::Source(AsmFault::Memory))?;
    let (run, source) = parted(text.as_slice());
    Ok(run_texts(alloc, false, source, run)?)
}

/// Runs the program in `file` (a HEX text if `hex`, else a source) as the run file in `run` says, and answers the
/// report to be printed.
pub(crate) fn read_report<F: Files>(
    alloc: Global,
    files: &mut F,
    file: &str,
    run: &str,
    hex: bool,
) -> Result<Report, Unanswered>
    ensures report { IfOk result (λ report. OfTwo (GaveTwo F.gave files.old files.new) file.now hex run.now
        (λ bytes said. IsReport hex bytes said (string_bytes report.text))) }
    ensures end { IfErr result (EndsFor (IsWantOfRun hex) (λ fault. OfTwo (GaveTwo F.gave files.old files.new) file.now
        hex run.now (λ bytes said. IsTrueRefusal hex bytes said fault))) }
    ensures lacking { F.lacks files.old file.now ⊎ F.lacks files.old run.now
        → IsErrAnd result (IsUnjudged (λ fault. fault ≡ want_of_file hex)) }
    ensures lost { IfErr result (WhereFailed (F.lost files.new)) }
{
    let (bytes, said) = read_files(alloc, files, file, run, hex)?;
    Ok(run_texts(alloc, hex, bytes.as_slice(), said.as_slice())?)
}

/// Reads the two files of `debug`, the program `file` (a HEX text if `hex`, else a source) and the run file `run`,
/// and returns the board at power-on that they describe. Refused with the files' first fault or for want of memory;
/// fails if a file can't be opened or read.
pub fn read_board<F: Files>(
    alloc: Global,
    files: &mut F,
    file: &str,
    run: &str,
    hex: bool,
) -> Result<Board, Unanswered>
    ensures board { IfOk result (λ board. OfTwo (GaveTwo F.gave files.old files.new) file.now hex run.now
        (λ bytes said. IsBoardOf hex bytes said board)) }
    ensures end { IfErr result (EndsFor (IsWantOfRun hex) (λ fault. OfTwo (GaveTwo F.gave files.old files.new) file.now
        hex run.now (λ bytes said. IsTrueRefusal hex bytes said fault))) }
    ensures lacking { F.lacks files.old file.now ⊎ F.lacks files.old run.now
        → IsErrAnd result (IsUnjudged (λ fault. fault ≡ want_of_file hex)) }
    ensures lost { IfErr result (WhereFailed (F.lost files.new)) }
{
    let (bytes, said) = read_files(alloc, files, file, run, hex)?;
    Ok(board_of(alloc, hex, bytes.as_slice(), said.as_slice())?)
}

/// The board at power-on, for a session, of a HEX text, if `hex`, else of a source, under the text of a run file; or
/// the first refusal: the program's, the run file's or the board's.
pub fn board_of(alloc: Global, hex: bool, bytes: &[u8], run: &[u8]) -> Result<Board, Fault>
    ensures board { IfOk result (IsBoardOf hex bytes.now run.now) }
    ensures fault { IfErr result (IsTrueRefusal hex bytes.now run.now) }
{
    let (image, run) = read_texts(alloc, hex, bytes, run)?;
    new_board(alloc, &image, &run)
}
