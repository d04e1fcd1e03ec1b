//! The listing of a source as one text.
ghost use Rattle.std.specs.Prelude.{◌≡◌, ◌++◌, [], ◌∷◌, List, length, IfErr, IfOk, OnOk, string_bytes};
ghost use Rattle.board_types.specs.TextLines.{text_lines};
ghost use Rattle.assembler.specs.Gives.{Gives};
ghost use Rattle.assembler.specs.LocatedLines.{AreLocatedLines, LocatedLine, names_of};
ghost use Rattle.pcboard_texts.specs.Answer.{IsListingOf};

use assembler::fault::AsmFault;
use assembler::listing::Listing;
use std::alloc::{AllocError, Global};

/// All lines of an assembled source's listing as one text, to be printed. `size` is the source's size in bytes, which
/// has no more lines than that.
pub(crate) fn listing_text(
    alloc: Global,
    listing: &Listing,
    size: usize,
) -> Result<String, AsmFault>
    requires size { size ≡ length listing.now.source }
    requires gives { Gives listing.now.source listing.now.image }
    requires names { (rows : List LocatedLine) → AreLocatedLines [] (text_lines listing.now.source) rows
        → listing.now.names ≡ names_of rows }
    ensures listing { IfOk result (λ text. IsListingOf listing.now.source (string_bytes text)) }
    ensures fault { IfErr result (λ fault. fault ≡ AsmFault.Memory) }
{
    let mut text = String::new(alloc);
    for i in 0..size {
        let Some(line) = listing.line(alloc, i)? else {
            break;
        };
        push_line(&mut text, &line)?;
    }
    Ok(text)
}

/// Appends a line and its line feed to the text of a listing.
fn push_line(text: &mut String, line: &str) -> Result<(), AllocError>
    ensures { OnOk result (string_bytes text.new ≡ string_bytes text.old ++ (line.now ++ 10 ∷ [])) }
{
    text.push_str(line)?;
    text.push('\n')
}
