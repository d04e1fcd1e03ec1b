//! The text of an instruction, and what it assembles to.

use crate::code::{Code, OFFSET};
use anyhow::Result;
use assembler::assembly::assemble;
use board_types::image::Image;
use disassembler::text::InstrText;
use isa::form::Instr;
use std::alloc::Global;

/// The text of an instruction as it stands at offset 4000h, for a `back` case to assemble again.
pub fn text_of(alloc: Global, instr: &Instr) -> Result<String> {
    let shown = InstrText { instr, ip: OFFSET };
    Ok(format!(in alloc; "{shown}")?)
}

/// Whether the text, assembled at 1000:4000, gives an instruction of the same text, so that a disassembly leads back to
/// the bytes' meaning.
pub fn reads_back_alike(alloc: Global, text: &str) -> Result<bool> {
    let source = format!(in alloc; "SEGMENT CODE AT 1000h\nORG 4000h\n{text}\n")?;
    match instruction_of(alloc, source.as_bytes()) {
        Some(instr) => is_text_of(alloc, text, &instr),
        None => Ok(false),
    }
}

/// The instruction that a source places at 1000:4000; `None` if the source is refused or nothing stands there.
fn instruction_of(alloc: Global, source: &[u8]) -> Option<Instr> {
    let image = image_of(alloc, source)?;
    Code::of_image(&image).instruction()
}

/// The image that a source is assembled to; `None` if it is refused.
fn image_of(alloc: Global, source: &[u8]) -> Option<Image> {
    match assemble(alloc, source) {
        Ok(listing) => Some(listing.into_image()),
        Err(_) => None,
    }
}

/// Whether a text is that of the instruction it was assembled to, but for a displacement of 0, NOP and exchanged
/// operands.
fn is_text_of(alloc: Global, text: &str, instr: &Instr) -> Result<bool> {
    let again = text_of(alloc, instr)?;
    let before = plain(alloc, text)?;
    let after = plain(alloc, again.as_str())?;
    is_same(alloc, before.as_str(), after.as_str())
}

/// Whether two texts of instructions are the same but for the order of exchanged operands.
fn is_same(alloc: Global, before: &str, after: &str) -> Result<bool> {
    Ok(before == after || exchanged(alloc, before)?.as_str() == after)
}

/// An instruction's text without a displacement of 0, and with NOP as the XCHG that it is, so that it can be compared
/// with another form's.
fn plain(alloc: Global, text: &str) -> Result<String> {
    Ok(if let Some((front, back)) = text.split_once("+00000h]") {
        format!(in alloc; "{front}]{back}")?
    } else if let Some((front, back)) = text.split_once("NOP") {
        format!(in alloc; "{front}XCHG AX,AX{back}")?
    } else {
        String::from_str(alloc, text)?
    })
}

/// The text of XCHG or TEST with its operands exchanged, since either order is the same operation; of any other
/// instruction the text.
fn exchanged(alloc: Global, text: &str) -> Result<String> {
    for word in ["XCHG ", "TEST "] {
        if let Some((front, operands)) = text.split_once(word)
            && let Some((first, second)) = operands.split_once(',')
        {
            return Ok(format!(in alloc; "{front}{word}{second},{first}")?);
        }
    }
    Ok(String::from_str(alloc, text)?)
}
