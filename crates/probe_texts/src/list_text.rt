//! Instructions in memory as text.
ghost use Rattle.std.specs.Prelude.{◌≡◌, ◌++◌, IfOk, OnOk, Some};
ghost use Rattle.std.specs.List.{flat_map};
ghost use Rattle.std.specs.String.{string_bytes};
ghost use Rattle.board_types.specs.Address.{offset_after};
ghost use Rattle.board_types.specs.Digits.{hex_byte_text};
ghost use Rattle.probe_texts.specs.FormLines.{line_at, lines_text, said_by};
ghost use Rattle.probe_texts.specs.Listing.{bytes_listed, offset_listed_next, place_text, size_listed, text_listed};

use crate::forms_text::push_form;
use crate::inquiry::{Lines, Place};
use board_types::address::physical;
use board_types::bytes::Bytes;
use board_types::digits::{HexByte, HexWord};
use decode::decode::decoding_at;
use decode::decoding::Decoding;
use disassembler::text::InstrText;
use std::alloc::{AllocError, Global};
use std::fmt;

impl Place {
    /// Returns the place so many bytes on; its offset wraps around in the segment.
    pub(crate) fn after(self, bytes: u16) -> Place
        ensures segment { result.segment ≡ self.segment }
        ensures offset { result.offset ≡ offset_after self.offset bytes }
    {
        let mut place = self;
        place.offset = place.offset.wrapping_add(bytes);
        place
    }
}

impl fmt::Display for Place {
    ghost output = { λ p. Some (place_text p.segment p.offset) };

    /// Writes both numbers, four hexadecimal digits each, with a colon between them.
    fn fmt<W: fmt::Write>(&self, f: &mut fmt::Formatter<W>) -> fmt::Result {
        let segment = HexWord(self.segment);
        let offset = HexWord(self.offset);
        write!(f, "{segment}:{offset}")
    }
}

/// Returns the answer to the inquiry `list` or `forms`: `count` instructions from a place on, a line for each.
pub fn lines_text<B: Bytes>(
    alloc: Global,
    memory: &B,
    lines: Lines,
    place: Place,
    count: u16,
) -> Result<String, AllocError>
    ensures { IfOk result (λ text. string_bytes text
        ≡ lines_text lines (B.byte_at memory.now) place.segment place.offset count) }
{
    let mut next = place;
    let mut text = String::new(alloc);
    for _ in 0..count {
        next = push_line(&mut text, memory, lines, next)?;
    }
    Ok(text)
}

/// Adds the line of what stands at a place: the place, the bytes, and what `list` or `forms` says of it. Returns the
/// place of the next line.
#[tactic(auto, unfolding(crate::specs::FormLines::line_at, crate::specs::Listing::offset_listed_next))]
fn push_line<B: Bytes>(
    text: &mut String,
    memory: &B,
    lines: Lines,
    place: Place,
) -> Result<Place, AllocError>
    ensures line { OnOk result (string_bytes text.new
        ≡ string_bytes text.old ++ line_at lines (B.byte_at memory.now) place.segment place.offset) }
    ensures segment { IfOk result (λ next. next.segment ≡ place.segment) }
    ensures offset { IfOk result (λ next. next.offset
        ≡ offset_listed_next (B.byte_at memory.now) place.segment place.offset) }
{
    let stands = decoding_at(memory, place.segment, place.offset);
    let size = size_listed(&stands);
    write!(text, "{place} ")?;
    push_bytes(text, memory, place, size)?;
    let first = memory.byte(physical(place.segment, place.offset));
    push_said(text, lines, &stands, place, first)?;
    Ok(place.after(size))
}

/// How many bytes a line shows: the instruction's, or the one that begins none.
fn size_listed(stands: &Decoding) -> u16
    ensures { result ≡ size_listed stands.now }
{
    match stands {
        Decoding::Found(_, size) => u16::from(*size),
        Decoding::NoRow => 1,
    }
}

/// Adds the `size` bytes from a place on, two hexadecimal digits each.
fn push_bytes<B: Bytes>(
    text: &mut String,
    memory: &B,
    place: Place,
    size: u16,
) -> Result<(), AllocError>
    ensures { OnOk result (string_bytes text.new ≡ string_bytes text.old
        ++ flat_map hex_byte_text (bytes_listed (B.byte_at memory.now) place.segment place.offset size)) }
{
    for passed in 0..size {
        let at = place.after(passed);
        let byte = HexByte(memory.byte(physical(at.segment, at.offset)));
        write!(text, "{byte}")?;
    }
    Ok(())
}

/// Adds what `list` or `forms` says of what was decoded at a place, where `first` is the first byte.
fn push_said(
    text: &mut String,
    lines: Lines,
    stands: &Decoding,
    place: Place,
    first: u8,
) -> Result<(), AllocError>
    ensures { OnOk result (string_bytes text.new
        ≡ string_bytes text.old ++ said_by lines stands.now place.segment place.offset first) }
{
    match lines {
        Lines::Texts => push_text(text, stands, place.offset, first),
        Lines::Forms => push_form(text, stands, place),
    }
}

/// Adds an instruction at an offset as a source has it, or `DB` and the byte that begins none.
fn push_text(text: &mut String, stands: &Decoding, offset: u16, byte: u8) -> Result<(), AllocError>
    ensures { OnOk result (string_bytes text.new ≡ string_bytes text.old ++ text_listed stands.now offset byte) }
{
    match stands {
        Decoding::Found(instr, _) => {
            let instr = InstrText { instr, ip: offset };
            write!(text, " {instr}\n")
        }
        Decoding::NoRow => {
            let byte = HexByte(byte);
            write!(text, " DB 0{byte}h\n")
        }
    }
}
