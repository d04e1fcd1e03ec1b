//! Sources of MASM, TASM and emu8086, in the dialect.
ghost use Rattle.std.specs.Prelude.{◌≡◌, ◌++◌, [], OnOk};
ghost use Rattle.zebludor_program.specs.Translations.{IsTranslated, IsTranslation, Translates, lines_text};

use crate::buffer::hand_text;
use crate::printing::{push_lines, push_place};
use crate::programs::Ended;
use crate::sources::{NoTexts, texts_in};
use masm::origin::{Origin, origin_of};
use masm::translate::translate;
use masm::translation::Translation;
use masm_text::place::{Place, Text};
use masm_text::refusal::{Failure, Note, Refusal};
use std::alloc::{AllocError, Global};
use std::io::Write;

/// Translates a source of MASM, TASM or emu8086 into the dialect for a caller in C, as `pcmasm` does: the first of the
/// texts, which may include the others. Each has a line of `names` and one of `lengths`, and their bytes stand in `bytes`,
/// one text after the other. Writes the translation into `out`, each line after the name and the line of the user's that
/// it comes from, if `has_map`, and what is to be said of lines into `err`.
#[unsafe(no_mangle)]
pub extern "C" fn zebludor_masm(
    alloc: Global,
    names: &[u8],
    lengths: &[u64],
    bytes: &[u8],
    has_map: bool,
    is_masm: bool,
    out: &mut [u8],
    err: &mut [u8],
    ended: &mut Ended,
)
    ensures { Translates names.now lengths.now bytes.now has_map out.old out.new err.old err.new ended.new }
{
    let mut printed = Vec::new(alloc);
    let mut told = Vec::new(alloc);
    let status = translated(
        alloc,
        names,
        lengths,
        bytes,
        &mut printed,
        &mut told,
        has_map,
        is_masm,
    );
    *ended = Ended {
        out: hand_text(printed, out),
        err: hand_text(told, err),
        status,
    };
}

/// Translates what a caller hands over, prints the translation, tells what is to be said, and gives the status.
fn translated(
    alloc: Global,
    names: &[u8],
    lengths: &[u64],
    bytes: &[u8],
    printed: &mut Vec<u8>,
    told: &mut Vec<u8>,
    has_map: bool,
    is_masm: bool,
) -> u8
    requires none { printed.old.items ≡ [] }
    ensures { IsTranslated names.now lengths.now bytes.now has_map printed.new.items result }
{
    match texts_in(alloc, names, lengths, bytes) {
        Ok(texts) => status_of(alloc, texts.as_slice(), has_map, is_masm, printed, told),
        Err(NoTexts::Unfit) => 2,
        Err(NoTexts::Memory) => 3,
    }
}

/// Translates the first of the texts, prints the translation, tells what is to be said, and gives the status: 0; 1 if
/// there is no translation; 3 without memory for one.
fn status_of<'a>(
    alloc: Global,
    texts: &'a [Text<'a>],
    has_map: bool,
    is_masm: bool,
    printed: &mut Vec<u8>,
    told: &mut Vec<u8>,
) -> u8
    requires none { printed.old.items ≡ [] }
    ensures { IsTranslation texts.now has_map printed.new.items result }
{
    if !is_masm && let Ok(true) = tells_origin(texts, told) {
        return 1;
    }
    match translate(alloc, texts) {
        Ok(translation) => match push_translation(has_map, texts, &translation, printed, told) {
            Ok(()) => 0,
            Err(AllocError) => 3,
        },
        Err(failure) => match push_failure(texts, &failure, told) {
            Ok(()) => 1,
            Err(AllocError) => 3,
        },
    }
}

/// Prints the lines of a translation, and tells what is to be said of lines.
fn push_translation(
    has_map: bool,
    texts: &[Text],
    translation: &Translation,
    printed: &mut Vec<u8>,
    told: &mut Vec<u8>,
) -> Result<(), AllocError>
    ensures { OnOk result (printed.new.items ≡ printed.old.items
        ++ lines_text has_map texts.now translation.now.lines.items) }
{
    push_notes(texts, translation.notes.as_slice(), told)?;
    push_lines(has_map, texts, translation.lines.as_slice(), printed)
}

/// Tells whether the first of the texts is no source of MASM, TASM or emu8086, and by which line.
fn tells_origin(texts: &[Text], told: &mut Vec<u8>) -> Result<bool, AllocError> {
    let Some(source) = texts.first() else {
        return Ok(false);
    };
    let Some((origin, line)) = origin_of(source.bytes) else {
        return Ok(false);
    };
    let words = match origin {
        Origin::Masm => return Ok(false),
        Origin::Nasm => b" this is a line of NASM".as_slice(),
        Origin::Dialect => b" this is a line of the dialect, which needs no translation".as_slice(),
    };
    push_place(texts, Place { text: 0, line }, told)?;
    told.extend_from_slice(words)?;
    told.extend_from_slice(b"; --masm has it translated all the same\n")?;
    Ok(true)
}

/// Tells what is to be said of lines that are taken.
fn push_notes(texts: &[Text], notes: &[Note], told: &mut Vec<u8>) -> Result<(), AllocError> {
    for note in notes {
        push_place(texts, note.place, told)?;
        told.extend_from_slice(b" note: ")?;
        told.extend_from_slice(note.remark.words().as_bytes())?;
        told.extend_from_slice(b"\n")?;
    }
    Ok(())
}

/// Tells why there is no translation.
fn push_failure(texts: &[Text], failure: &Failure, told: &mut Vec<u8>) -> Result<(), AllocError> {
    match failure {
        Failure::Refused(refusals) => push_refusals(texts, refusals.as_slice(), told),
        Failure::Wanted(place, name) => {
            push_place(texts, *place, told)?;
            told.extend_from_slice(b" includes ")?;
            told.extend_from_slice(name.as_slice())?;
            told.extend_from_slice(b", which isn't given\n")
        }
        Failure::Memory => Err(AllocError),
    }
}

/// Tells which lines are refused, and why; what is said already of a line isn't said again.
fn push_refusals(
    texts: &[Text],
    refusals: &[Refusal],
    told: &mut Vec<u8>,
) -> Result<(), AllocError> {
    let mut last: Option<Refusal> = None;
    for refusal in refusals {
        if last != Some(*refusal) {
            push_place(texts, refusal.place, told)?;
            if writeln!(told, " {}", refusal.reason).is_err() {
                return Err(AllocError);
            }
        }
        last = Some(*refusal);
    }
    Ok(())
}
