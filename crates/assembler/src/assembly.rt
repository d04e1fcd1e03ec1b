//! The assembler: from a source to the image that it gives.
ghost use Rattle.std.specs.Prelude.{◌≡◌, [], ℕ, List, IfOk, IfErr, MatchResult};
ghost use Rattle.board_types.specs.TextLines.{text_lines};
ghost use Rattle.assembler.specs.declared.fault.AsmFault.TheVariants.{Memory};
ghost use Rattle.assembler.specs.FirstFault.{IsFirst};
ghost use Rattle.assembler.specs.Gives.{Gives};
ghost use Rattle.assembler.specs.LocatedLines.{AreLocatedLines, LocatedLine, names_of};

use crate::fault::AsmFault;
use crate::listing::Listing;
use crate::placing::place_all;
use crate::reading::read_source;
use std::alloc::Global;

/// How many bytes a source may have at most.
const SOURCE_LIMIT: usize = 1_048_576;

/// Assembles a source in two passes: gives its listing, which has its image, or its first fault. Want of memory is
/// answered only if an allocation was really refused.
pub fn assemble(alloc: Global, source: &[u8]) -> Result<Listing, AsmFault>
    ensures source { IfOk result (λ listing. listing.source ≡ source.now) }
    ensures gives { IfOk result (λ listing. Gives source.now listing.image) }
    ensures names { IfOk result (λ listing. (located_lines : List LocatedLine) → AreLocatedLines [] (text_lines source.now) located_lines
        → listing.names ≡ names_of located_lines) }
    ensures fault { IfErr result (IsFirst source.now) }

    // If the source gives an image, the answer is that image, or want of memory.
    ensures refused { (image : List (ℕ × ℕ)) → Gives source.now image
        → MatchResult result (λ listing. listing.image ≡ image) (λ fault. fault ≡ Memory) }
{
    if source.len() > SOURCE_LIMIT {
        return Err(AsmFault::SourceTooLong);
    }
    let reading = read_source(alloc, source)?;
    let image = place_all(alloc, &reading)?;
    Ok(Listing { reading, image })
}
