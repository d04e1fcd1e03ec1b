//! What a HEX text gives.
use anyhow::Result;
use board_types::image::Image;
use loader::hex_fault::HexFault;
use loader::hex_reader::read_hex;
use loader::hex_writer::write_hex;
use std::alloc::{AllocError, Global};

/// The answer to a `hex:` case: the HEX text that is written of the image that `text` gives, or `text`'s fault. In the
/// answer `|` stands for a line feed.
pub fn answer_to(alloc: Global, text: String) -> Result<String> {
    match read_hex(alloc, text.as_bytes()) {
        Ok(image) => written(alloc, &image),
        Err(fault) => Ok(fault_text(alloc, fault)?),
    }
}

/// The HEX text that the loader writes of an image, with `|` for each line feed, as a case has it in one line.
fn written(alloc: Global, image: &Image) -> Result<String> {
    let mut text = Vec::new(alloc);
    write_hex(image, &mut text)?;
    Ok(std::str::from_utf8(text.as_slice())?.replace(alloc, '\n', "|")?)
}

/// The answer for a HEX text that is refused: the fault's number, and its line if it has one.
fn fault_text(alloc: Global, fault: HexFault) -> Result<String, AllocError> {
    let number = fault.number();
    match fault.line() {
        Some(line) => format!(in alloc; "{number} {line}"),
        None => format!(in alloc; "{number}"),
    }
}
