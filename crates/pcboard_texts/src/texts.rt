//! What a program's bytes and the text of a run file give, and how one text has both for a stored run.
ghost use Rattle.std.specs.Prelude.{◌≡◌, ◌<◌, ◌==◌, position, ℕ, List, length, IfErr, IfOk, IfSome, MatchResult, Ok};
ghost use Rattle.loader.specs.declared.run_file.RunFile.{RunFile};
ghost use Rattle.loader.specs.RunFile.{Answers, run_of_text};
ghost use Rattle.pcboard_texts.specs.Answer.{GivesImage, IsTrueRefusal, run_text_of, source_of};
ghost use Rattle.pcboard_texts.specs.RunFaults.{IsWantOfMemory};

use crate::fault::Fault;
use assembler::assembly::assemble;
use board_types::image::Image;
use loader::hex_reader::read_hex;
use loader::run_file::RunFile;
use loader::run_reader::read_run_text;
use std::alloc::Global;

/// What a run needs of its two texts: the image of a HEX text, if `hex`, else of a source, and what the run file says;
/// or the first fault, in which the program's comes before the run file's.
pub fn read_texts(
    alloc: Global,
    hex: bool,
    bytes: &[u8],
    run: &[u8],
) -> Result<(Image, RunFile), Fault>
    ensures gives { IfOk result (λ read. GivesImage hex bytes.now read.0) }
    ensures says { IfOk result (λ read. Answers (Ok read.1) (run_of_text run.now)) }
    ensures fault { IfErr result (IsTrueRefusal hex bytes.now run.now) }

    // If both texts give something, the answer is just that, or want of memory.
    ensures accepted { (image : List (ℕ × ℕ)) → GivesImage hex bytes.now image → (run_file : RunFile)
        → Answers (Ok run_file) (run_of_text run.now)
        → MatchResult result (λ read. (read.0 ≡ image) × (read.1 ≡ run_file)) IsWantOfMemory }
{
    let image = read_image(alloc, hex, bytes)?;
    let run = read_run_text(alloc, run)?;
    Ok((image, run))
}

/// The image of a HEX text, if `hex`, else of a source, for a run; or the text's first fault.
fn read_image(alloc: Global, hex: bool, bytes: &[u8]) -> Result<Image, Fault>
    ensures gives { IfOk result (GivesImage hex bytes.now) }
    ensures fault { IfErr result (λ fault. (run : List ℕ) → IsTrueRefusal hex bytes.now run fault) }
    ensures accepted { (image : List (ℕ × ℕ)) → GivesImage hex bytes.now image
        → MatchResult result (λ given. given ≡ image) IsWantOfMemory }
{
    if hex {
        Ok(read_hex(alloc, bytes)?)
    } else {
        Ok(assemble(alloc, bytes)?.into_image())
    }
}

/// Splits a stored run's text in two: the run file, which is its first line, and the source, which is all after that
/// line's end; empty if there is no second line.
#[tactic(auto, using(crate::proofs::Parted::front, crate::proofs::Parted::back, crate::proofs::Parted::front_all, crate::proofs::Parted::back_none))]
pub fn parted(text: &[u8]) -> (&[u8], &[u8])
    ensures run { result.0.now ≡ run_text_of text.now }
    ensures source { result.1.now ≡ source_of text.now }
{
    match first_line_end(text) {
        Some(at) => (text.split_at(at).0, text.split_at(at + 1).1),
        None => (text, &[]),
    }
}

/// Where the first line feed stands in the text; `None` if there is none.
fn first_line_end(text: &[u8]) -> Option<usize>
    ensures end { result ≡ position (λ byte. byte == 10) text.now }
    ensures bound { IfSome result (λ at. at < length text.now) }
{
    text.iter().position(|byte| *byte == b'\n')
}
