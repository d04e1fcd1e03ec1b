//! How the lines of a translation are printed.
ghost use Rattle.std.specs.Prelude.{◌≡◌, ◌++◌, OnOk};
ghost use Rattle.zebludor_program.specs.Translations.{lines_text, place_text};

use masm_text::place::{Line, Place, Text};
use std::alloc::AllocError;
use std::io::Write;

/// Puts the lines of a translation after what is there, each after its place and a tabulator, if `has_map`.
pub(crate) fn push_lines(
    has_map: bool,
    texts: &[Text],
    lines: &[Line],
    to: &mut Vec<u8>,
) -> Result<(), AllocError>
    ensures { OnOk result (to.new.items ≡ to.old.items ++ lines_text has_map texts.now lines.now) }
{
    let mut rest = lines;
    while let [line, after @ ..] = rest {
        if has_map {
            push_place(texts, line.place, to)?;
            to.push(b'\t')?;
        }
        to.extend_from_slice(line.text.as_slice())?;
        to.push(b'\n')?;
        rest = after;
    }
    Ok(())
}

/// Puts a place after what is there: `NAME:LINE:`.
pub(crate) fn push_place(texts: &[Text], place: Place, to: &mut Vec<u8>) -> Result<(), AllocError>
    ensures { OnOk result (to.new.items ≡ to.old.items ++ place_text texts.now place) }
{
    if let Some(text) = texts.get(place.text as usize) {
        to.extend_from_slice(text.name)?;
    }
    let line = place.line;
    match write!(to, ":{line}:") {
        Ok(()) => Ok(()),
        Err(_) => Err(AllocError),
    }
}
