//! What the assembler answers: the image, the listing and the names.
ghost use Rattle.std.specs.Prelude.{◌≡◌, ◌≤◌, ◌<◌, ◌+◌, ◌++◌, [], List, length, nat_lt, Some, IfOk, IfErr, OnOk};
ghost use Rattle.std.specs.List.{prefix_len};
ghost use Rattle.std.specs.Option.{option_map};
ghost use Rattle.std.specs.Str.{IsAscii};
ghost use Rattle.std.specs.String.{string_bytes};
ghost use Rattle.board_types.specs.TextLines.{text_lines};
ghost use Rattle.assembler.specs.declared.fault.AsmFault.TheVariants.{Memory};
ghost use Rattle.assembler.specs.KeptLines.{EndsBy};
ghost use Rattle.assembler.specs.Listing.{letters_of, line_at, spaces, symbol_at};
ghost use Rattle.assembler.specs.LocatedLines.{AreLocatedLines, LocatedLine};
ghost use Rattle.assembler.specs.Shown.{said_by, shown_digits, shown_line, shown_place, shown_location};

use crate::fault::AsmFault;
use crate::kept_line::KeptLine;
use crate::placing::address_at;
use crate::reading::Reading;
use assembler_lexeme::name::Name;
use assembler_meaning::symbol::Location;
use board_types::digits::{HexByte, HexWord};
use board_types::image::Image;
use std::alloc::{AllocError, Global};
use std::marker::Model;

/// How many of a line's bytes the listing shows at most.
const SHOWN: u64 = 8;

/// An assembled source: its image, and what its listing and the list of its names are made from.
#[derive(Drop)]
pub struct Listing {
    pub(crate) reading: Reading,
    pub(crate) image: Image,
}

impl Model for Listing {
    ghost use Rattle.assembler.specs.Gives.{Gives};
    ghost use Rattle.assembler.specs.KeptLines.{Reads};
    ghost use Rattle.assembler.specs.Listing.{ListingState};

    ghost Value = { ListingState };

    ghost view = { λ l. record {
      source = l.reading.source.items;
      names = l.reading.symbols.entries;
      image = l.image;
    } };

    ghost invariant = { λ l. Reads l.reading.source.items l.reading.symbols.entries l.reading.located_lines.items
        × Gives l.reading.source.items l.image };
}

impl Listing {
    /// The image that the source gives, for running it or writing it as a HEX text.
    pub fn image(&self) -> &Image
        ensures { result.now ≡ self.now.image }
    {
        &self.image
    }

    /// The image that the source gives, if nobody wants the listing any more; its memory is given back.
    pub fn into_image(self) -> Image
        ensures { result ≡ self.image }
    {
        self.image
    }

    /// Returns the listing's line `i`, from 0 on, for printing: where the line's bytes stand, the first eight of them,
    /// a `+` if there are more, and the source's line. `None` past the last line.
    pub fn line(&self, alloc: Global, i: usize) -> Result<Option<String>, AsmFault>
        ensures line { (located_lines : List LocatedLine) → AreLocatedLines [] (text_lines self.now.source) located_lines
            → IfOk result (λ text. option_map string_bytes text
            ≡ line_at self.now.names (text_lines self.now.source) located_lines i) }
        ensures fault { IfErr result (λ fault. fault ≡ Memory) }
    {
        let Some(located) = self.reading.located_lines.as_slice().get(i) else {
            return Ok(None);
        };
        let text = line_text(alloc, self.reading.source.as_slice(), &self.image, located)?;
        Ok(Some(text))
    }

    /// Returns the `i`-th name that the source defines, from 0 on, in upper case, with its value, a label's offset or a
    /// constant, for programs that show a source's names. They come in the order of their lines, a line's label first.
    /// `None` past the last.
    pub fn symbol(&self, i: usize) -> Option<(&str, i64)>
        ensures { option_map (λ found. (found.0.now, found.1)) result ≡ symbol_at self.now.names i }
    {
        let (name, symbol) = self.reading.symbols.get_index(i)?;
        Some((name_text(name), symbol.value()))
    }
}

/// The listing's line for a line of the source: where its bytes stand and the first of them, or spaces if it has none,
/// and the source's text.
fn line_text(
    alloc: Global,
    source: &[u8],
    image: &Image,
    located: &KeptLine,
) -> Result<String, AllocError>
    requires inside { located.now.start + located.now.length ≤ length source.now }
    requires ascii { IsAscii (said_by source.now located.now) }
    requires ends { EndsBy 65536 (shown_location located.now) located.now.size }
    ensures { IfOk result (λ text. string_bytes text ≡ shown_line source.now image.now located.now) }
{
    let mut text = match located.location {
        Some(location) if located.size > 0 => place_text(alloc, image, location, located.size)?,
        _ => no_place_text(alloc)?,
    };
    let following = source.split_at(located.start as usize).1;
    text.push_str(ascii_text(following.split_at(located.length as usize).0))?;
    Ok(text)
}

/// The 28 spaces that the listing shows for a line without bytes, as wide as a place and eight bytes, so that the texts
/// stand below each other.
fn no_place_text(alloc: Global) -> Result<String, AllocError>
    ensures { IfOk result (λ text. string_bytes text ≡ spaces 28) }
{
    let mut text = String::new(alloc);
    push_spaces(&mut text, 28)?;
    Ok(text)
}

/// The 28 characters before a line's text in the listing: where its bytes stand, the first eight of them, and a `+` if
/// there are more.
#[tactic(auto, unfolding(crate::specs::Shown::shown_place))]
fn place_text(
    alloc: Global,
    image: &Image,
    location: Location,
    size: u64,
) -> Result<String, AllocError>
    requires some { 0 < size }
    requires within { location.offset + size ≤ 65536 }
    ensures { IfOk result (λ text. string_bytes text ≡ shown_place image.now location size) }
{
    let segment = HexWord(location.segment);
    let offset = HexWord(location.offset as u16);
    let mut text = format!(in alloc; "{segment}:{offset} ")?;
    let count = if size > SHOWN { SHOWN } else { size };
    push_bytes(alloc, &mut text, image, location, count)?;
    push_spaces(&mut text, 2 * (SHOWN - count))?;
    text.push(if size > SHOWN { '+' } else { ' ' })?;
    text.push(' ')?;
    Ok(text)
}

/// Appends to a listing's line, in hexadecimal, the `count` bytes of the image from `location` on; a byte that the
/// image lacks is shown as 00.
#[tactic(auto, using(crate::proofs::ListingShown::digits_more))]
fn push_bytes(
    alloc: Global,
    text: &mut String,
    image: &Image,
    location: Location,
    count: u64,
) -> Result<(), AllocError>
    requires within { location.offset + count ≤ 65536 }
    ensures { OnOk result (string_bytes text.new ≡ string_bytes text.old ++ shown_digits image.now location count) }
{
    for n in 0..count {
        let byte = HexByte(image.get(address_at(location, n)).unwrap_or(0));
        let digits = format!(in alloc; "{byte}")?;
        text.push_str(digits.as_str())?;
    }
    Ok(())
}

/// Adds spaces to a listing's line, so that all texts of the source stand below each other.
fn push_spaces(text: &mut String, count: u64) -> Result<(), AllocError>
    ensures { OnOk result (string_bytes text.new ≡ string_bytes text.old ++ spaces count) }
{
    for _n in 0..count {
        text.push(' ')?;
    }
    Ok(())
}

/// The text of one of a source's names, without the zeros that fill it up.
fn name_text(name: &Name) -> &str
    requires { IsAscii (letters_of name.now) }
    ensures { result.now ≡ letters_of name.now }
{
    let letters = name.letters.as_slice();
    ascii_text(letters.split_at(name_length(letters)).0)
}

/// How many letters a name has: those before the zeros that fill it up.
fn name_length(letters: &[u8]) -> usize
    ensures { result ≡ prefix_len (λ letter. nat_lt 0 letter) letters.now }
{
    let mut length = 0;
    for letter in letters {
        if *letter == 0 {
            return length;
        }
        length += 1;
    }
    length
}

/// ASCII characters as a text, for the listing: a line of the source, or a name.
fn ascii_text(characters: &[u8]) -> &str
    requires { IsAscii characters.now }
    ensures { result.now ≡ characters.now }
{
    std::str::from_utf8(characters).unwrap_or("")
}
