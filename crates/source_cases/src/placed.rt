//! What a line places in a whole source.
use assembler::assembly::assemble;
use assembler::fault::AsmFault;
use board_types::image::Image;
use std::alloc::{AllocError, Global};

/// The lines before the case's.
const BEFORE: &str =
    "five EQU 5\nlow EQU -3\nbig EQU 1234h\nSEGMENT A AT 1000h\n ORG 0FF0h\nback: DB 0\n ORG 1000h\n";

/// The lines after the case's.
const AFTER: &str = "\n ORG 1040h\nfore: DB 0\nlater EQU 7\n";

/// The number of the case's line in the source.
const LINE: u32 = 8;

/// The address at which the case's bytes begin.
const PLACE: u32 = 0x11000;

/// The address of `fore`.
const END: u32 = 0x11040;

/// The answer to a case of a line in a whole source: the bytes that the assembler places for it amid the fixed lines
/// around it, or the source's fault.
pub fn answer_to(alloc: Global, line: &str) -> Result<String, AllocError> {
    let source = format!(in alloc; "{BEFORE}{line}{AFTER}")?;
    match assemble(alloc, source.as_bytes()) {
        Ok(listing) => code_text(alloc, listing.image()),
        Err(fault) => fault_text(alloc, fault),
    }
}

/// The bytes of an assembled source from the case's place on, up to the first address without one or `END`; `none` for
/// no byte.
fn code_text(alloc: Global, image: &Image) -> Result<String, AllocError> {
    let mut text = String::new(alloc);
    push_bytes(alloc, &mut text, image, PLACE, END)?;
    if text.is_empty() {
        text.push_str("none")?;
    }
    Ok(text)
}

/// Adds an image's bytes from an address on to an answer, two digits each, up to `end` or the first address without
/// one.
pub fn push_bytes(
    alloc: Global,
    text: &mut String,
    image: &Image,
    place: u32,
    end: u32,
) -> Result<(), AllocError> {
    for addr in place..end {
        let Some(byte) = image.get(addr) else {
            break;
        };
        text.push_str(format!(in alloc; "{byte:02X}")?.as_str())?;
    }
    Ok(())
}

/// The answer for a source that is refused: the fault's number, and its line if it isn't the case's own.
fn fault_text(alloc: Global, fault: AsmFault) -> Result<String, AllocError> {
    let number = fault.number();
    match fault.line() {
        Some(line) if line != LINE => format!(in alloc; "fault {number} line {line}"),
        _ => format!(in alloc; "fault {number}"),
    }
}
