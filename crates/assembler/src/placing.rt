//! The second pass: the bytes of the lines at their addresses.
ghost use Rattle.std.specs.Prelude.{◌≡◌, ◌≤◌, ◌<◌, ◌+◌, ◌^◌, true, length, None, Some, IfOk, IfErr, OnOk};
ghost use Rattle.std.specs.List.{list_all, list_any};
ghost use Rattle.isa.specs.Encoding.{FitsForm};
ghost use Rattle.board_types.specs.Image.{IsImage};
ghost use Rattle.assembler.specs.declared.kept_line.Content.TheVariants.{Code};
ghost use Rattle.assembler_syntax.specs.Weights.{is_item_within, is_operand_within};
ghost use Rattle.assembler.specs.FirstFault.{IsFirst};
ghost use Rattle.assembler.specs.Gives.{Gives};
ghost use Rattle.assembler.specs.KeptLines.{IsContent, IsSteady, Reads};
ghost use Rattle.assembler.specs.Placement.{address_after, addresses_from, bytes_by, bytes_from, fields_of, is_loadable, is_past_end};
ghost use Rattle.assembler.specs.SecondPass.{KeepsSize, StopsAt, content_fault, data_fault, entries_by, has_byte, kept_fault, placing_fault, with_entries};
ghost use Rattle.assembler_meaning.specs.Values.{AreSmall, term_limit};

use crate::fault::{AsmFault, SourceFault};
use crate::kept_line::{Content, KeptLine};
use crate::reading::Reading;
use assembler_form::fields::values_of;
use assembler_meaning::bytes::{data_bytes, instruction_bytes};
use assembler_meaning::data::{are_items_known, do_items_fit};
use assembler_meaning::instruction::numbers_of;
use assembler_meaning::symbol::{Location, Symbols};
use assembler_syntax::statement::{DataWidth, Instruction, Item};
use board_types::address::physical;
use board_types::image::{Image, is_loadable};
use isa::form::{Form, Values};
use std::alloc::{AllocError, Global};

/// How many offsets a segment has.
const SEGMENT_SIZE: u64 = 65_536;

/// Makes the second pass over a source that the first one has read: puts the bytes of its lines into an image, or gives
/// the fault of the first line that can't be placed.
pub(crate) fn place_all(alloc: Global, reading: &Reading) -> Result<Image, AsmFault>
    requires reads { Reads reading.now.source.items reading.now.symbols.entries reading.now.located_lines.items }
    ensures gives { IfOk result (Gives reading.now.source.items) }
    ensures fault { IfErr result (IsFirst reading.now.source.items) }
{
    let mut image = Image::new(alloc);
    let mut number = 0;
    for located in reading.located_lines.as_slice() {
        number += 1;
        place_line(alloc, &mut image, &reading.symbols, located, number)?;
    }
    Ok(image)
}

/// Puts the bytes of the line with this number, counted from 1, into the image, or gives its fault: of the names and
/// numbers in it, or of where its bytes would go.
fn place_line(
    alloc: Global,
    image: &mut Image,
    symbols: &Symbols,
    located: &KeptLine,
    number: u32,
) -> Result<(), AsmFault>
    requires small { AreSmall symbols.now.entries }
    requires steady { IsSteady located.now }
    requires size { KeepsSize symbols.now.entries located.now }
    requires image { IsImage image.old }
    ensures free { OnOk result (kept_fault symbols.now.entries (has_byte image.old) located.now ≡ None) }
    ensures image { OnOk result (image.new ≡ with_entries image.old (entries_by symbols.now.entries located.now)) }
    ensures is_image { OnOk result (IsImage image.new) }
    ensures fault { IfErr result (StopsAt number (kept_fault symbols.now.entries (has_byte image.old) located.now)) }
{
    if let Some(fault) = late_fault(image, symbols, located) {
        return Err(AsmFault::InLine(fault, number));
    }
    Ok(put_line(alloc, image, symbols, located)?)
}

/// The fault that the second pass finds in a line, in the light of all names and of the bytes placed so far: of several
/// the one with the least number. `None` if the line can be placed.
#[tactic(auto, unfolding(crate::specs::Placement::late_fault))]
fn late_fault(image: &Image, symbols: &Symbols, located: &KeptLine) -> Option<SourceFault>
    requires small { AreSmall symbols.now.entries }
    requires steady { IsSteady located.now }
    ensures { result ≡ kept_fault symbols.now.entries (has_byte image.now) located.now }
{
    let location = located.location?;
    if let Some(content) = &located.content
        && let Some(fault) = content_fault(symbols, location, located.size, &**content)
    {
        return Some(fault);
    }
    placing_fault(image, location, located.size, located.has_label)
}

/// The fault in the names and numbers of an instruction or data line that stands at the location and has `size` bytes;
/// `None` if each name is defined and each number fits its field.
fn content_fault(
    symbols: &Symbols,
    location: Location,
    size: u64,
    content: &Content,
) -> Option<SourceFault>
    requires small { AreSmall symbols.now.entries }
    requires ends { location.offset + size ≤ 2 ^ 40 }
    requires content { IsContent (Some content.now) }
    ensures { result ≡ content_fault symbols.now.entries location size (Some content.now) }
{
    match content {
        Content::Data(width, items) => data_fault(symbols, location, *width, items.as_slice()),
        Content::Code(form, instruction) => {
            match code_values(symbols, location, size, form, instruction) {
                Ok(_) => None,
                Err(fault) => Some(fault),
            }
        }
    }
}

/// The fault in the numbers of a data line that stands at the location: a name that isn't defined comes before a number
/// that doesn't fit the width. `None` if there is neither.
fn data_fault(
    symbols: &Symbols,
    location: Location,
    width: DataWidth,
    items: &[Item],
) -> Option<SourceFault>
    requires small { AreSmall symbols.now.entries }
    requires here { location.offset ≤ 2 ^ 40 }
    requires short { list_all (is_item_within term_limit) items.now ≡ true }
    ensures { result ≡ data_fault symbols.now.entries location width items.now }
{
    if !are_items_known(symbols, location.offset, items) {
        return Some(SourceFault::Undefined);
    }
    if do_items_fit(symbols, location.offset, width, items) {
        None
    } else {
        Some(SourceFault::OutOfRange)
    }
}

/// The numbers in the fields of an instruction that stands at the location and has `size` bytes, from which its bytes
/// are made; or its fault, a name that isn't defined or a number out of its field's range.
fn code_values(
    symbols: &Symbols,
    location: Location,
    size: u64,
    form: &Form,
    instruction: &Instruction,
) -> Result<Values, SourceFault>
    requires small { AreSmall symbols.now.entries }
    requires ends { location.offset + size ≤ 2 ^ 40 }
    requires short { list_all (is_operand_within term_limit) instruction.now.operands ≡ true }
    ensures values { IfOk result (λ values. fields_of symbols.now.entries location size form.now instruction.now
        ≡ Some values) }
    ensures free { OnOk result (content_fault symbols.now.entries location size (Some (Code form.now instruction.now))
        ≡ None) }
    ensures fits { IfOk result (FitsForm form.now) }
    ensures fault { IfErr result (λ fault.
        content_fault symbols.now.entries location size (Some (Code form.now instruction.now)) ≡ Some fault) }
{
    let Some(numbers) = numbers_of(symbols, location.offset, instruction) else {
        return Err(SourceFault::Undefined);
    };
    match values_of(form, (location.offset + size) as i64, &numbers) {
        Some(values) => Ok(values),
        None => Err(SourceFault::OutOfRange),
    }
}

/// The fault of where a line's bytes would go, `size` of them from the location on: past the segment's end, onto a byte
/// that is there already, or where the board can't be loaded. `None` if they can be placed.
fn placing_fault(
    image: &Image,
    location: Location,
    size: u64,
    has_label: bool,
) -> Option<SourceFault>
    requires ends { location.offset + size ≤ 2 ^ 40 }
    ensures { result ≡ placing_fault (has_byte image.now) has_label location size }
{
    if is_past_end(location, size, has_label) {
        return Some(SourceFault::OutOfSegment);
    }
    if overlaps(image, location, size) {
        return Some(SourceFault::Overlap);
    }
    if can_load(location, size) {
        None
    } else {
        Some(SourceFault::NotLoadable)
    }
}

/// Whether one of a line's bytes, or its label, would lie past offset FFFFh of its segment, for which the line is
/// refused.
fn is_past_end(location: Location, size: u64, has_label: bool) -> bool
    requires ends { location.offset + size ≤ 2 ^ 40 }
    ensures { result ≡ is_past_end location size has_label }
{
    (size > 0 && location.offset + size > SEGMENT_SIZE)
        || (has_label && location.offset >= SEGMENT_SIZE)
}

/// Whether an earlier line has placed a byte where one of this line's bytes would go, `size` of them from the location
/// on; for this the line is refused.
fn overlaps(image: &Image, location: Location, size: u64) -> bool
    requires within { 0 < size → location.offset + size ≤ 65536 }
    ensures { result ≡ list_any (has_byte image.now) (addresses_from location 0 size) }
{
    for n in 0..size {
        if image.get(address_at(location, n)).is_some() {
            return true;
        }
    }
    false
}

/// Whether the board can be loaded at each address of a line's bytes, `size` of them from the location on; if not, the
/// line is refused.
fn can_load(location: Location, size: u64) -> bool
    requires within { 0 < size → location.offset + size ≤ 65536 }
    ensures { result ≡ list_all is_loadable (addresses_from location 0 size) }
{
    for n in 0..size {
        if !is_loadable(address_at(location, n)) {
            return false;
        }
    }
    true
}

/// The address of the byte that is `n` bytes after the location, within its segment: where the second pass puts a
/// line's bytes, and the listing finds them.
pub(crate) fn address_at(location: Location, n: u64) -> u32
    requires within { location.offset + n < 65536 }
    ensures { result ≡ address_after location n }
{
    physical(location.segment, (location.offset + n) as u16)
}

/// Puts the bytes of a line, which the second pass has found without a fault, into the image; none if the line has no
/// bytes. Fails only for want of memory.
fn put_line(
    alloc: Global,
    image: &mut Image,
    symbols: &Symbols,
    located: &KeptLine,
) -> Result<(), AllocError>
    requires small { AreSmall symbols.now.entries }
    requires steady { IsSteady located.now }
    requires size { KeepsSize symbols.now.entries located.now }
    requires image { IsImage image.old }
    requires free { kept_fault symbols.now.entries (has_byte image.old) located.now ≡ None }
    ensures image { OnOk result (image.new ≡ with_entries image.old (entries_by symbols.now.entries located.now)) }
    ensures is_image { OnOk result (IsImage image.new) }
{
    let Some(location) = located.location else {
        return Ok(());
    };
    let Some(content) = &located.content else {
        return Ok(());
    };
    let bytes = content_bytes(alloc, symbols, location, located.size, &**content)?;
    put_bytes(image, location, bytes.as_slice())
}

/// The bytes of an instruction or data line without a fault that stands at the location and has `size` bytes, for the
/// image.
fn content_bytes(
    alloc: Global,
    symbols: &Symbols,
    location: Location,
    size: u64,
    content: &Content,
) -> Result<Vec<u8>, AllocError>
    requires small { AreSmall symbols.now.entries }
    requires ends { location.offset + size ≤ 2 ^ 40 }
    requires content { IsContent (Some content.now) }
    requires free { content_fault symbols.now.entries location size (Some content.now) ≡ None }
    ensures { IfOk result (λ bytes. bytes.items ≡ bytes_by symbols.now.entries location size (Some content.now)) }
{
    match content {
        Content::Data(width, items) => {
            data_bytes(alloc, symbols, location.offset, *width, items.as_slice())
        }
        Content::Code(form, instruction) => {
            match code_values(symbols, location, size, form, instruction) {
                Ok(values) => instruction_bytes(alloc, form, values, instruction),
                Err(_) => Ok(Vec::new(alloc)),
            }
        }
    }
}

/// Puts a line's bytes into the image, from the location on. Fails only for want of memory.
fn put_bytes(image: &mut Image, location: Location, bytes: &[u8]) -> Result<(), AllocError>
    requires image { IsImage image.old }
    requires within { 0 < length bytes.now → location.offset + length bytes.now ≤ 65536 }
    requires loadable { list_all is_loadable (addresses_from location 0 (length bytes.now)) ≡ true }
    ensures image { OnOk result (image.new ≡ with_entries image.old (bytes_from location 0 bytes.now)) }
    ensures is_image { OnOk result (IsImage image.new) }
{
    let mut at = 0;
    for byte in bytes {
        image.put(address_at(location, at), *byte)?;
        at += 1;
    }
    Ok(())
}
