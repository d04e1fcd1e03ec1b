//! The assembler as a library: a source becomes the HEX text of its bytes, or is refused with its first fault and that
//! one's line.
ghost use Rattle.std.specs.Prelude.{◌≡◌, ℕ, List, IfOk, MatchResult};
ghost use Rattle.std.specs.Result.{IfErr};
ghost use Rattle.assembler.specs.Gives.{Gives};
ghost use Rattle.assembler.specs.FirstFault.{IsFirst};
ghost use Rattle.loader.specs.HexText.{hex_text};
ghost use Rattle.parts_alone.specs.Source.{IsHexOf};

use assembler::assembly::assemble;
use assembler::fault::AsmFault;
use loader::hex_writer::write_hex;
use std::alloc::Global;

/// A loop of two instructions at 0040:0000.
pub const GOOD: &[u8] = b"SEGMENT MAIN AT 40h
again:  IN AL,60h
        JMP SHORT again
ENDS
";

/// The source `GOOD` with a name that no line defines.
pub const MISTYPED: &[u8] = b"SEGMENT MAIN AT 40h
again:  IN AL,60h
        JMP SHORT agian
ENDS
";

/// The HEX text of the image that a source gives, or the source's first fault: the assembler used as a library.
pub fn hex_of(alloc: Global, source: &[u8]) -> Result<Vec<u8>, AsmFault>
    ensures hex { IfOk result (λ text. IsHexOf source.now text.items) }
    ensures fault { IfErr result (IsFirst source.now) }

    // If the source gives an image, no other text comes, and no fault but the want of memory.
    ensures refused { (image : List (ℕ × ℕ)) → Gives source.now image
        → MatchResult result (λ text. text.items ≡ hex_text image) (λ fault. fault ≡ AsmFault.Memory) }
{
    let listing = assemble(alloc, source)?;
    let mut text = Vec::new(alloc);
    match write_hex(listing.image(), &mut text) {
        Ok(()) => Ok(text),
        Err(_) => Err(AsmFault::Memory), // a Vec takes all but what it has no room for
    }
}
