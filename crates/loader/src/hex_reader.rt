//! Reading HEX texts.
ghost use Rattle.std.specs.Prelude.{◌≡◌, ◌+◌, ◌<◌, ◌^◌, IfErr, IfOk, Ok, OnOk, length, true};
ghost use Rattle.loader.specs.Records.{are_loadable, is_loadable, placed_bytes, record_of, with_bytes};
ghost use Rattle.loader.specs.RecordViews.{IsSmall, Refuses, RefusesBytes, view_of};
ghost use Rattle.loader.specs.Reading.{Fails, after_end, after_line, after_record, image_of, load_state};
ghost use Rattle.std.specs.BTreeMap.{insert_entry};
ghost use Rattle.std.specs.Ordering.{nat_cmp};
ghost use Rattle.board_types.specs.TextLines.{text_lines};

use crate::hex_fault::{HexFault, RecordFault};
use crate::hex_record::{Extension, Record, RecordError, record_bytes, record_in};
use crate::spaces::without_spaces;
use board_types::image::{Image, is_loadable};
use board_types::text::next_line;
use std::alloc::Global;

/// Reads an Intel HEX text: gives the image to load the board with, or the text's first fault, with its line.
#[tactic(auto, unfolding(crate::specs::Reading::image_of))]
pub fn read_hex(alloc: Global, text: &[u8]) -> Result<Image, HexFault>
    ensures image { IfOk result (λ image. image_of text.now ≡ Ok image) }
    ensures fault { IfErr result (λ fault. Fails fault (image_of text.now)) }
{
    let mut image = Image::new(alloc);
    let mut extension = Extension::Segment(0);
    let mut number = 0;
    let mut rest = text;
    while let Some((line, after)) = next_line(rest) {
        number += 1;
        rest = after;
        match read_line(alloc, &mut image, extension, without_spaces(line)) {
            Ok(Some(next)) => extension = next,
            Ok(None) => return ended(image, number, rest),
            Err(RecordError::Fault(fault)) => return Err(HexFault::InLine(fault, number)),
            Err(RecordError::Memory) => return Err(HexFault::Memory),
        }
    }
    Err(HexFault::NoEnd)
}

/// The image of a HEX text whose end record was line `number`, if only blank lines follow it, `text`; else the fault of
/// the first that isn't.
fn ended(image: Image, number: u64, text: &[u8]) -> Result<Image, HexFault>
    requires { number + length text.now < 2 ^ 64 }
    ensures image { IfOk result (λ given. after_end number image (text_lines text.now) ≡ Ok given) }
    ensures fault { IfErr result (λ fault. Fails fault (after_end number image (text_lines text.now))) }
{
    let mut number = number;
    let mut rest = text;
    while let Some((line, after)) = next_line(rest) {
        number += 1;
        rest = after;
        if !without_spaces(line).is_empty() {
            return Err(HexFault::InLine(RecordFault::AfterEnd, number));
        }
    }
    Ok(image)
}

/// Reads a line of a HEX text, without the spaces at its end, and puts the bytes of a data record into the image. Gives
/// the extension of the offsets in the lines after it, `None` after the end record, or the line's fault; a blank line
/// changes nothing.
#[tactic(auto, unfolding(crate::specs::Reading::after_line, crate::specs::Records::record_of))]
fn read_line(
    alloc: Global,
    image: &mut Image,
    extension: Extension,
    line: &[u8],
) -> Result<Option<Extension>, RecordError>
    ensures ok { IfOk result (λ next. after_line extension image.old line.now ≡ Ok (load_state next image.new)) }
    ensures err { IfErr result (λ error. Refuses error (after_line extension image.old line.now)) }
{
    if line.is_empty() {
        return Ok(Some(extension));
    }
    let bytes = record_bytes(alloc, line)?;
    match record_in(bytes.as_slice()) {
        Ok(found) => take_record(image, extension, found),
        Err(fault) => Err(RecordError::Fault(fault)),
    }
}

/// Does what a record of a HEX text says: puts a data record's bytes into the image. Gives the extension of the offsets
/// after it, which only an extension record changes, or `None` after the end record.
fn take_record(
    image: &mut Image,
    extension: Extension,
    found: Record<'_>,
) -> Result<Option<Extension>, RecordError>
    requires { IsSmall (view_of found) }
    ensures ok { IfOk result (λ next. after_record extension image.old (view_of found.entry)
        ≡ Ok (load_state next image.new)) }
    ensures err { IfErr result (λ error. Refuses error (after_record extension image.old (view_of found.entry))) }
{
    match found {
        Record::Bytes { offset, bytes } => {
            put_bytes(image, extension, offset, bytes)?;
            Ok(Some(extension))
        }
        Record::End => Ok(None),
        Record::Extension(next) => Ok(Some(next)),
        Record::Start => Ok(Some(extension)),
    }
}

/// Puts the bytes of a data record into the image, from its load offset on, each at the address that the extension
/// gives it. Fails at the first address at which the board can't be loaded.
fn put_bytes(
    image: &mut Image,
    extension: Extension,
    offset: u16,
    bytes: &[u8],
) -> Result<(), RecordError>
    requires { length bytes.now < 2 ^ 16 }
    ensures loadable { OnOk result (are_loadable (placed_bytes extension offset bytes.now) ≡ true) }
    ensures placed_bytes { OnOk result (image.new ≡ with_bytes image.old (placed_bytes extension offset bytes.now)) }
    ensures refused { IfErr result (λ error. RefusesBytes error
        (are_loadable (placed_bytes extension offset bytes.now))) }
{
    let mut at = u64::from(offset);
    for byte in bytes {
        put_byte(image, extension.address(at), *byte)?;
        at += 1;
    }
    Ok(())
}

/// Puts a byte of a data record into the image, in place of an earlier one. Fails if the board can't be loaded at the
/// address, or there is no memory.
fn put_byte(image: &mut Image, address: u64, byte: u8) -> Result<(), RecordError>
    ensures loadable { OnOk result (is_loadable address ≡ true) }
    ensures put { OnOk result (image.new ≡ insert_entry nat_cmp image.old address byte) }
    ensures refused { IfErr result (λ error. RefusesBytes error (is_loadable address)) }
{
    match u32::try_from(address) {
        Ok(address) if is_loadable(address) => match image.put(address, byte) {
            Ok(()) => Ok(()),
            Err(_) => Err(RecordError::Memory),
        },
        _ => Err(RecordError::Fault(RecordFault::NotLoadable)),
    }
}
