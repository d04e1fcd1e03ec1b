//! What an assembler prints of a source: its HEX text or its listing.
ghost use Rattle.std.specs.Prelude.{◌≡◌, ◌⊎◌, List, [], length, IfErr, IsErrAnd, OnOk, false};
ghost use Rattle.std.specs.Io.KnownBytes.{Appends};
ghost use Rattle.board_types.specs.TextLines.{text_lines};
ghost use Rattle.assembler.specs.Gives.{Gives};
ghost use Rattle.assembler.specs.LocatedLines.{AreLocatedLines, LocatedLine, names_of};
ghost use Rattle.loader.specs.HexText.{hex_text};
ghost use Rattle.pcboard_texts.specs.Given.{Of, limit_of};
ghost use Rattle.pcboard_texts.specs.Answer.{AppendsA, IsAssembled, IsListingOf};
ghost use Rattle.pcboard_texts.specs.Refusal.{IsTrueOfText, want_of_file};
ghost use Rattle.pcboard_texts.specs.Unanswered.{EndsFor, IsUnjudged, WhereFailed, WhereRefused};

use crate::fault::Fault;
use crate::input::read_program;
use crate::listing::listing_text;
use crate::telling::print;
use crate::unanswered::Unanswered;
use assembler::assembly::assemble;
use assembler::fault::AsmFault;
use assembler::listing::Listing;
use board_types::image::Image;
use loader::hex_writer::write_hex;
use std::alloc::Global;
use streams::byte_output::{ByteOutput, write_all};
use streams::files::Files;

/// Assembles the source `file` for `asm` on the command line: prints its listing if `list`, else the HEX text of its
/// image. Refused with the source's first fault, and then nothing is printed.
pub fn print_assembled<F: Files, O: ByteOutput>(
    alloc: Global,
    files: &mut F,
    file: &str,
    list: bool,
    out: &mut O,
) -> Result<(), Unanswered>
    ensures printed { OnOk result (Of (F.gave files.old files.new file.now (limit_of false))
        (λ source. AppendsA (IsAssembled list source) (O.contents out.old) (O.contents out.new))) }
    ensures kept { IfErr result (WhereRefused (O.contents out.new ≡ O.contents out.old)) }
    ensures end { IfErr result (EndsFor (λ fault. fault ≡ want_of_file false)
        (λ fault. Of (F.gave files.old files.new file.now (limit_of false)) (λ source. IsTrueOfText source fault))) }
    ensures lacking { F.lacks files.old file.now → IsErrAnd result (IsUnjudged (λ fault. fault ≡ want_of_file false)) }
    ensures lost { IfErr result (WhereFailed (F.lost files.new ⊎ O.lost out.new)) }
{
    let source = read_program(alloc, files, file, false)?;
    let listing = assemble(alloc, source.as_slice())?;
    if list {
        print_listing(alloc, &listing, source.len(), out)
    } else {
        print_hex(alloc, listing.image(), out)
    }
}

/// Prints the listing of an assembled source of `size` bytes, for `asm` with `--list`.
fn print_listing<O: ByteOutput>(
    alloc: Global,
    listing: &Listing,
    size: usize,
    out: &mut O,
) -> Result<(), Unanswered>
    requires size { size ≡ length listing.now.source }
    requires gives { Gives listing.now.source listing.now.image }
    requires names { (rows : List LocatedLine) → AreLocatedLines [] (text_lines listing.now.source) rows
        → listing.now.names ≡ names_of rows }
    ensures printed { OnOk result (AppendsA (IsListingOf listing.now.source) (O.contents out.old) (O.contents out.new)) }
    ensures kept { IfErr result (WhereRefused (O.contents out.new ≡ O.contents out.old)) }
    ensures end { IfErr result (IsUnjudged (λ fault. fault ≡ want_of_file false)) }
    ensures lost { IfErr result (WhereFailed (O.lost out.new)) }
{
    let text = listing_text(alloc, listing, size)?;
    Ok(print(out, text.as_str())?)
}

/// Prints the HEX text of an assembled source's image, for `asm` without `--list`.
fn print_hex<O: ByteOutput>(alloc: Global, image: &Image, out: &mut O) -> Result<(), Unanswered>
    ensures printed { OnOk result (Appends (O.contents out.old) (O.contents out.new) (hex_text image.now)) }
    ensures kept { IfErr result (WhereRefused (O.contents out.new ≡ O.contents out.old)) }
    ensures end { IfErr result (IsUnjudged (λ fault. fault ≡ want_of_file false)) }
    ensures lost { IfErr result (WhereFailed (O.lost out.new)) }
{
    let mut text = Vec::new(alloc);
    // A vector takes all that is written while there is memory for it.
    if write_hex(image, &mut text).is_err() {
        return Err(Unanswered::Refused(Fault::Source(AsmFault::Memory)));
    }
    write_all(out, text.as_slice())?;
    Ok(out.flush()?)
}
