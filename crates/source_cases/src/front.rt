//! The first bytes of a source.
use crate::placed::push_bytes;
use anyhow::{Context, Result};
use assembler::assembly::assemble;
use assembler::fault::AsmFault;
use board_types::image::Image;
use std::alloc::{AllocError, Global};

/// The source that is cut: examples/hello.asm.
const SOURCE: &str =
    "SEGMENT M AT 0F000h\ngo: MOV AX,0B000h\n MOV ES,AX\n MOV DI,0\n MOV AX,0748h\n STOSW\n MOV AX,0749h\n STOSW\n MOV DX,3B8h\n MOV AL,8\n OUT DX,AL\n HLT\nENDS\nSEGMENT R AT 0FFFFh\n JMP FAR go\nENDS\n";

/// The first address of each run of bytes of the image, and one after its end.
const PLACES: [(u32, u32); 2] = [(0xF_0000, 0xF_0040), (0xF_FFF0, 0x10_0030)];

/// The answer to a `front` case: what the assembler makes of as many first bytes of the example source as the text
/// says.
pub fn answer_to(alloc: Global, text: &str) -> Result<String> {
    let front = front_in(text).context("no front")?;
    Ok(assembled(alloc, front)?)
}

/// The first bytes of the example source, as many as `front SIZE` says; `None` if it can't be read or the source is
/// shorter.
fn front_in(text: &str) -> Option<&'static [u8]> {
    let digits = text.strip_prefix("front ")?;
    let size = digits.parse::<u8>().ok()?;
    SOURCE.as_bytes().get(..usize::from(size))
}

/// The answer's text for what the assembler makes of a source: the image's bytes, or its fault.
fn assembled(alloc: Global, source: &[u8]) -> Result<String, AllocError> {
    match assemble(alloc, source) {
        Ok(listing) => image_text(alloc, listing.image()),
        Err(fault) => fault_text(alloc, fault),
    }
}

/// The text of a `front` case's answer for an image: for each place at which a run can begin, its address and its
/// bytes, up to the first address without one.
fn image_text(alloc: Global, image: &Image) -> Result<String, AllocError> {
    let mut text = String::from_str(alloc, "front")?;
    for (place, end) in PLACES {
        if image.get(place).is_some() {
            text.push_str(format!(in alloc; " {place:05X}:")?.as_str())?;
            push_bytes(alloc, &mut text, image, place, end)?;
        }
    }
    Ok(text)
}

/// The text of a `front` case's answer for a source that is refused: the fault's number, and its line if it has one.
fn fault_text(alloc: Global, fault: AsmFault) -> Result<String, AllocError> {
    let number = fault.number();
    match fault.line() {
        Some(line) => format!(in alloc; "front fault {number} line {line}"),
        None => format!(in alloc; "front fault {number}"),
    }
}
