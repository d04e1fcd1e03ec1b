//! What becomes of a source, as a case has it.
use crate::sources::texts_of;
use anyhow::{Result, bail};
use masm::origin::origin_of;
use masm::translate::translate;
use masm::translation::Translation;
use masm_text::place::Place;
use masm_text::refusal::Failure;
use std::alloc::Global;
use std::str;

/// The translation of a case's source; fails, with its refusals, if it has none.
fn translated(alloc: Global, text: &str) -> Result<Translation> {
    let source = text.replace(alloc, '|', "\n")?;
    match translate(alloc, texts_of(alloc, source.as_str())?.as_slice()) {
        Ok(translation) => Ok(translation),
        Err(failure) => bail!("{}", failure_text(alloc, &failure)?),
    }
}

/// Puts a part of an answer after the others, with `mark` between them.
fn push(answer: &mut String, mark: char, part: &str) -> Result<()> {
    if !answer.is_empty() {
        answer.push(mark)?;
    }
    answer.push_str(part)?;
    Ok(())
}

/// The answer to a whole source: the lines of its translation.
pub fn whole_answer(alloc: Global, text: &str) -> Result<String> {
    part_answer(alloc, text, 1, u32::MAX)
}

/// The lines of a translation that come from the user's lines `from` to `to`.
pub fn part_answer(alloc: Global, text: &str, from: u32, to: u32) -> Result<String> {
    let mut answer = String::new(alloc);
    for line in translated(alloc, text)?.lines.as_slice() {
        if from <= line.place.line && line.place.line <= to {
            push(&mut answer, '|', str::from_utf8(line.text.as_slice())?)?;
        }
    }
    Ok(answer)
}

/// The answer to a `map:` case.
pub fn map_answer(alloc: Global, text: &str) -> Result<String> {
    let mut answer = String::new(alloc);
    for line in translated(alloc, text)?.lines.as_slice() {
        push(&mut answer, ' ', place_text(alloc, line.place)?.as_str())?;
    }
    Ok(answer)
}

/// A place as a case has it.
fn place_text(alloc: Global, place: Place) -> Result<String> {
    let Place { text, line } = place;
    if text == 0 {
        return Ok(format!(in alloc; "{line}")?);
    }
    Ok(format!(in alloc; "{text}:{line}")?)
}

/// The answer to a `no:` case.
pub fn refused_answer(alloc: Global, text: &str) -> Result<String> {
    let source = text.replace(alloc, '|', "\n")?;
    match translate(alloc, texts_of(alloc, source.as_str())?.as_slice()) {
        Ok(_) => Ok(String::from_str(alloc, "translated")?),
        Err(failure) => failure_text(alloc, &failure),
    }
}

/// A failure as a case has it.
fn failure_text(alloc: Global, failure: &Failure) -> Result<String> {
    let mut answer = String::new(alloc);
    match failure {
        Failure::Refused(refusals) => {
            for refusal in refusals.as_slice() {
                let place = place_text(alloc, refusal.place)?;
                let part = format!(in alloc; "{} {:?}", place.as_str(), refusal.reason)?;
                push(&mut answer, '|', part.as_str())?;
            }
        }
        Failure::Wanted(place, name) => {
            let place = place_text(alloc, *place)?;
            let name = str::from_utf8(name.as_slice())?;
            answer.push_str(format!(in alloc; "{} wants {name}", place.as_str())?.as_str())?;
        }
        Failure::Memory => bail!("out of memory"),
    }
    Ok(answer)
}

/// The answer to a `note:` case.
pub fn notes_answer(alloc: Global, text: &str) -> Result<String> {
    let mut answer = String::new(alloc);
    for note in translated(alloc, text)?.notes.as_slice() {
        let place = place_text(alloc, note.place)?;
        let part = format!(in alloc; "{} {:?}", place.as_str(), note.remark)?;
        push(&mut answer, '|', part.as_str())?;
    }
    Ok(answer)
}

/// The answer to an `origin:` case.
pub fn origin_answer(alloc: Global, text: &str) -> Result<String> {
    let source = text.replace(alloc, '|', "\n")?;
    let Some((origin, line)) = origin_of(source.as_bytes()) else {
        return Ok(String::from_str(alloc, "-")?);
    };
    Ok(format!(in alloc; "{} {line}", origin.name())?)
}
