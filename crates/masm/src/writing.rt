//! The second pass: each line becomes lines of the dialect, in the light of all names.
ghost use Rattle.std.specs.Prelude.{◌≡◌, ◌+◌, vec_len, IfOk, IfErr};
ghost use Rattle.masm_text.specs.UserLines.{IsFailure, IsLine};
ghost use Rattle.masm_reading.specs.Frames.{IsReading};
ghost use Rattle.masm.specs.Layouts.{ArePlaced, AreMade, AreTranslation};

use crate::layout::{Placed, lay};
use crate::translation::Translation;
use crate::writer::Writer;
use masm_reading::frames::SourceLine;
use masm_reading::reading::Reading;
use masm_text::place::{Line, Place, Text};
use masm_text::refusal::{Failure, Note, Reason, Refusal, Remark, Stop, refused};
use std::alloc::{AllocError, Global};

/// How many characters a translation may have.
const LENGTH_LIMIT: usize = 0x200_0000;

/// How many lines a translation may have.
const LINE_LIMIT: usize = 1_500_000;

/// What the second pass has made so far.
#[derive(Drop)]
pub struct Made {
    placed: Vec<Placed>,
    /// How many characters those lines have.
    length: usize,
    refusals: Vec<Refusal>,
    notes: Vec<Note>,
}

/// Writes the lines of the dialect.
pub fn write(alloc: Global, texts: &[Text], reading: Reading) -> Result<Translation, Failure>
    requires { IsReading texts.now reading }
    ensures ok { IfOk result (AreTranslation texts.now) }
    ensures err { IfErr result (IsFailure texts.now) }
{
    let Reading {
        lines,
        names,
        refusals,
    } = reading;
    let mut writer = Writer::new(alloc, names);
    let mut made = Made {
        placed: Vec::new(alloc),
        length: 0,
        refusals,
        notes: Vec::new(alloc),
    };
    for line in lines {
        write_line(texts, &mut writer, &line, &mut made)?;
        if made.length > LENGTH_LIMIT || made.placed.len() > LINE_LIMIT {
            let (place, reason) = (line.place, Reason::TooLong);
            return Err(refused(texts, made.refusals, Refusal { place, reason })?);
        }
    }
    let Made {
        placed,
        refusals,
        notes,
        ..
    } = made;
    if !refusals.is_empty() {
        return Err(Failure::Refused(refusals));
    }
    let plan = writer.finish();
    let lines = lay(texts, &plan, placed.as_slice())?;
    Ok(Translation { lines, notes })
}

/// Writes the lines that a line becomes.
fn write_line(
    texts: &[Text],
    writer: &mut Writer,
    line: &SourceLine,
    made: &mut Made,
) -> Result<(), Failure>
    requires line { IsLine texts.now line.now.place }
    requires made { AreMade texts.now made.old }
    ensures made { AreMade texts.now made.new }
    ensures err { IfErr result (IsFailure texts.now) }
{
    let place = line.place;
    match writer.line(line.text.as_slice()) {
        Ok(lines) => {
            push_all(texts, made, writer.segment(), place, lines)?;
            push_note(texts, made, place, writer.remark())?;
            Ok(())
        }
        Err(Stop::Refused(Reason::TooLong)) => {
            // nothing is made after it
            made.length = usize::MAX;
            Ok(())
        }
        Err(Stop::Refused(reason)) => {
            made.refusals.push(Refusal { place, reason })?;
            Ok(())
        }
        Err(Stop::Memory) => Err(Failure::Memory),
    }
}

/// Puts the lines that the user's line at `place` became after the others.
fn push_all(
    texts: &[Text],
    made: &mut Made,
    segment: usize,
    place: Place,
    lines: Vec<Vec<u8>>,
) -> Result<(), AllocError>
    requires line { IsLine texts.now place }
    requires made { AreMade texts.now made.old }
    ensures made { AreMade texts.now made.new }
    ensures all { IfOk result (λ done. vec_len made.new.placed ≡ vec_len made.old.placed + vec_len lines) }
{
    for text in lines {
        made.length = made.length.saturating_add(text.len());
        made.placed.push(Placed {
            segment,
            line: Line { place, text },
        })?;
    }
    Ok(())
}

/// Puts what is to be said of the user's line at `place` after the others.
fn push_note(
    texts: &[Text],
    made: &mut Made,
    place: Place,
    remark: Option<Remark>,
) -> Result<(), AllocError>
    requires line { IsLine texts.now place }
    requires made { AreMade texts.now made.old }
    ensures { AreMade texts.now made.new }
{
    match remark {
        Some(remark) => Ok(made.notes.push(Note { place, remark })?),
        None => Ok(()),
    }
}
