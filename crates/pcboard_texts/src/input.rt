//! What the program reads.
ghost use Rattle.std.specs.Prelude.{◌≡◌, ◌⊎◌, true, ℕ, List, IfErr, IfOk, OnErr, OnOk, IsErrAnd, IsErrOf};
ghost use Rattle.streams.specs.ByteInput.{CountsNone, IsAllWanted};
ghost use Rattle.pcboard_texts.specs.Refusal.{want_of_file, want_of_run_file};
ghost use Rattle.pcboard_texts.specs.Unanswered.{IsUnjudged, UnlessFailed, WhereFailed};
ghost use Rattle.pcboard_texts.specs.Given.{GaveTwo, limit_of};
ghost use Rattle.pcboard_texts.specs.Taking.{GivesByte};

use crate::fault::Fault;
use crate::unanswered::Unanswered;
use assembler::fault::AsmFault;
use loader::hex_fault::HexFault;
use loader::run_fault::RunFault;
use std::alloc::Global;
use streams::byte_input::{ByteInput, ReadFault, read_all};
use streams::files::Files;

/// One byte more than a source may have, so that a longer one is seen to be too long.
const SOURCE_READ_LIMIT: u64 = 1_048_577;

/// Reads a program's file: a HEX text as a whole, if `hex`, else as much of a source as shows whether it is too long.
pub(crate) fn read_program<F: Files>(
    alloc: Global,
    files: &mut F,
    path: &str,
    hex: bool,
) -> Result<Vec<u8>, Unanswered>
    ensures bytes { IfOk result (λ bytes. F.gave files.old files.new path.now (limit_of hex) bytes.items) }
    ensures end { IfErr result (IsUnjudged (λ fault. fault ≡ want_of_file hex)) }
    ensures lacking { F.lacks files.old path.now → IsErrOf result Unanswered.Failed }
    ensures lacks_on { (name : List ℕ) → F.lacks files.old name → F.lacks files.new name }
    ensures lost { IfErr result (WhereFailed (F.lost files.new)) }
{
    if hex {
        read_file(alloc, files, path, u64::MAX, Fault::Hex(HexFault::Memory))
    } else {
        let want = Fault::Source(AsmFault::Memory);
        read_file(alloc, files, path, SOURCE_READ_LIMIT, want)
    }
}

/// Reads the first `limit` bytes of a file, or all. `want` is the refusal if there is no memory for them.
fn read_file<F: Files>(
    alloc: Global,
    files: &mut F,
    path: &str,
    limit: u64,
    want: Fault,
) -> Result<Vec<u8>, Unanswered>
    ensures bytes { IfOk result (λ bytes. F.gave files.old files.new path.now limit bytes.items) }
    ensures end { IfErr result (IsUnjudged (λ fault. fault ≡ want)) }
    ensures lacking { F.lacks files.old path.now → IsErrOf result Unanswered.Failed }
    ensures lacks_on { (name : List ℕ) → F.lacks files.old name → F.lacks files.new name }
    ensures lost { IfErr result (WhereFailed (F.lost files.new)) }
{
    match files.read(alloc, path, limit) {
        Ok(bytes) => Ok(bytes),
        Err(ReadFault::Failed) => Err(Unanswered::Failed),
        Err(ReadFault::Memory) => Err(Unanswered::Refused(want)),
    }
}

/// Reads the files that a run or a session names: the program's, as `read_program` does, and the run file. Both are
/// read before either is judged, so that nothing is judged if one can't be opened.
pub fn read_files<F: Files>(
    alloc: Global,
    files: &mut F,
    file: &str,
    run: &str,
    hex: bool,
) -> Result<(Vec<u8>, Vec<u8>), Unanswered>
    ensures bytes { IfOk result (λ read. GaveTwo F.gave files.old files.new file.now (limit_of hex) read.0.items
        run.now (limit_of true) read.1.items) }
    ensures end { IfErr result (IsUnjudged (λ fault. fault ≡ want_of_file hex ⊎ fault ≡ want_of_run_file)) }
    ensures lacking { F.lacks files.old file.now ⊎ F.lacks files.old run.now
        → IsErrAnd result (IsUnjudged (λ fault. fault ≡ want_of_file hex)) }
    ensures lost { IfErr result (WhereFailed (F.lost files.new)) }
{
    let bytes = read_program(alloc, files, file, hex)?;
    let said = read_file(alloc, files, run, u64::MAX, Fault::Run(RunFault::Memory))?;
    Ok((bytes, said))
}

/// Reads all that `input` still has to give, for a stored run on standard input. `want` is the refusal if there is no
/// memory for it.
pub fn read_whole<I: ByteInput>(
    alloc: Global,
    input: &mut I,
    want: Fault,
) -> Result<Vec<u8>, Unanswered>
    ensures bytes { IfOk result (λ bytes. I.gave input.old input.new bytes.items) }
    ensures all { OnOk result (I.ended input.new) }
    ensures end { IfErr result (IsUnjudged (λ fault. fault ≡ want)) }
    ensures unfailed { UnlessFailed (CountsNone (I.failures input.old) (I.failures input.new)) result }
    ensures lost { IfErr result (WhereFailed (I.lost input.new)) }
{
    // Memory can hold no more bytes than this.
    let bytes = read_front(alloc, input, u64::MAX, want)?;
    Ok(bytes)
}

/// Reads the first `limit` bytes that `input` has to give, or all of them if there are no more. `want` is the refusal
/// if there is no memory for them.
fn read_front<I: ByteInput>(
    alloc: Global,
    input: &mut I,
    limit: u64,
    want: Fault,
) -> Result<Vec<u8>, Unanswered>
    ensures bytes { IfOk result (λ bytes. I.gave input.old input.new bytes.items) }
    ensures all { IfOk result (λ bytes. IsAllWanted limit (I.ended input.new) bytes.items) }
    ensures end { IfErr result (IsUnjudged (λ fault. fault ≡ want)) }
    ensures unfailed { UnlessFailed (CountsNone (I.failures input.old) (I.failures input.new)) result }
    ensures lost { IfErr result (WhereFailed (I.lost input.new)) }
{
    match read_all(alloc, input, limit) {
        Ok(bytes) => Ok(bytes),
        Err(ReadFault::Failed) => Err(Unanswered::Failed),
        Err(ReadFault::Memory) => Err(Unanswered::Refused(want)),
    }
}

/// Reads the next byte of what is typed, for `next_line`; `None` at the end of the input.
pub(crate) fn next_byte<I: ByteInput>(input: &mut I) -> Result<Option<u8>, Unanswered>
    ensures byte { IfOk result (GivesByte (I.gave input.old input.new) (I.ended input.new)) }
    ensures end { IfErr result (λ end. end ≡ Unanswered.Failed) }
    ensures unfailed { UnlessFailed (CountsNone (I.failures input.old) (I.failures input.new)) result }
    ensures lost { OnErr result (I.lost input.new) }
{
    let mut byte = [0];
    match input.read(&mut byte)? {
        0 => Ok(None),
        _ => Ok(Some(byte[0])),
    }
}
