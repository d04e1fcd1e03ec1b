//! The program `pcmasm FILE [INCLUDED ..]`: prints the translation of a source of MASM, TASM or emu8086 into the
//! assembler's dialect. A file that the source includes is given by its path, and is known by its name without folders.
//!
//! With `--map` each line has `NAME:LINE:` and a tabulator before it: the user's line that it comes from. Notes go to
//! standard error. If lines are refused, `NAME:LINE: words` for each of them goes there, in order, and the status is 1;
//! so it is if a file is included that wasn't given, and if a line shows that the source is another assembler's, unless
//! `--masm` says what it is. With `--origin` nothing is translated: `masm`, `nasm` or `dialect` and the number of the
//! first line that shows it are printed, or nothing if no line shows which assembler's the source is.
#![tactic(auto)]

use masm::origin::{Origin, origin_of};
use masm::translate::translate;
use masm::translation::Translation;
use masm_text::place::{Place, Text};
use masm_text::refusal::{Failure, Refusal};
use std::alloc::{AllocError, Global};
use std::io::{BufWriter, Write};
use std::process::ExitCode;
use std::{env, fs, io};

/// What is said if there is no file.
const USAGE: &str =
    "pcmasm [--map] [--masm] [--origin] FILE [INCLUDED ..]: a source of MASM, TASM or emu8086 in the dialect";

/// What the words before FILE ask for.
#[derive(Clone, Copy)]
struct Wanted {
    has_map: bool,
    is_masm: bool,
    has_origin: bool,
}

/// Translates the source that the command line names.
fn main(rt: HostRuntime) -> io::Result<ExitCode> {
    let (wanted, names) = words(&rt)?;
    if names.is_empty() {
        writeln!(rt.stderr(), "{USAGE}")?;
        return Ok(ExitCode::from(2));
    }
    let Some(files) = files(&rt, names.as_slice())? else {
        return Ok(ExitCode::from(2));
    };
    let texts = texts(rt.alloc(), names.as_slice(), files.as_slice())?;
    let mut out = BufWriter::new(rt.alloc(), rt.stdout())?;
    let mut err = BufWriter::new(rt.alloc(), rt.stderr())?;
    let status = answer(rt.alloc(), &mut out, &mut err, texts.as_slice(), wanted)?;
    out.flush()?;
    err.flush()?;
    Ok(ExitCode::from(status))
}

/// What the command line asks for, and the names of the files.
fn words(rt: &HostRuntime) -> io::Result<(Wanted, Vec<String>)> {
    let mut names = Vec::new(rt.alloc());
    let mut wanted = Wanted {
        has_map: false,
        is_masm: false,
        has_origin: false,
    };
    for word in env::args(rt)?.skip(1) {
        match word.as_str() {
            "--map" if names.is_empty() => wanted.has_map = true,
            "--masm" if names.is_empty() => wanted.is_masm = true,
            "--origin" if names.is_empty() => wanted.has_origin = true,
            _ => names.push(word)?,
        }
    }
    Ok((wanted, names))
}

/// What the files contain; says which one can't be read, and gives nothing, if one can't.
fn files(rt: &HostRuntime, names: &[String]) -> io::Result<Option<Vec<Vec<u8>>>> {
    let mut files = Vec::new(rt.alloc());
    for name in names {
        match fs::read(rt, name.as_str()) {
            Ok(bytes) => files.push(bytes)?,
            Err(error) => {
                writeln!(rt.stderr(), "pcmasm: {}: {error}", name.as_str())?;
                return Ok(None);
            }
        }
    }
    Ok(Some(files))
}

/// The files as texts, by their names without folders.
fn texts<'a>(
    alloc: Global,
    names: &'a [String],
    files: &'a [Vec<u8>],
) -> Result<Vec<Text<'a>>, AllocError> {
    let mut texts = Vec::new(alloc);
    for (name, bytes) in names.iter().zip(files) {
        texts.push(Text {
            name: base_name(name.as_bytes()),
            bytes: bytes.as_slice(),
        })?;
    }
    Ok(texts)
}

/// Prints the translation, or why there is none, and gives the status.
fn answer<W: Write, E: Write>(
    alloc: Global,
    out: &mut W,
    err: &mut E,
    texts: &[Text],
    wanted: Wanted,
) -> io::Result<u8> {
    if wanted.has_origin {
        print_origin(out, texts)?;
        return Ok(0);
    }
    if !wanted.is_masm
        && let Some(source) = texts.first()
        && let Some((origin, line)) = origin_of(source.bytes)
        && let Some(words) = words_of(origin)
    {
        print_place(err, texts, Place { text: 0, line })?;
        writeln!(err, " {words}; --masm has it translated all the same")?;
        return Ok(1);
    }
    match translate(alloc, texts) {
        Ok(translation) => {
            print(out, texts, &translation, wanted.has_map)?;
            note(err, texts, &translation)?;
            Ok(0)
        }
        Err(failure) => {
            say(err, texts, &failure)?;
            Ok(1)
        }
    }
}

/// Prints which assembler a source is written for, and the line that tells it, if one does.
fn print_origin<W: Write>(out: &mut W, texts: &[Text]) -> io::Result<()> {
    if let Some(source) = texts.first()
        && let Some((origin, line)) = origin_of(source.bytes)
    {
        let name = origin.name();
        writeln!(out, "{name} {line}")?;
    }
    Ok(())
}

/// What a source of another assembler is; `None` for one that is translated.
fn words_of(origin: Origin) -> Option<&'static str> {
    match origin {
        Origin::Masm => None,
        Origin::Nasm => Some("this is a line of NASM"),
        Origin::Dialect => Some("this is a line of the dialect, which needs no translation"),
    }
}

/// The name of a file without its folders.
fn base_name(path: &[u8]) -> &[u8] {
    match path.iter().rposition(|byte| *byte == b'/') {
        Some(place) => &path[place + 1..],
        None => path,
    }
}

/// Prints the lines of a translation.
fn print<W: Write>(
    out: &mut W,
    texts: &[Text],
    translation: &Translation,
    has_map: bool,
) -> io::Result<()> {
    for line in translation.lines.as_slice() {
        if has_map {
            print_place(out, texts, line.place)?;
            out.write_all(b"\t")?;
        }
        out.write_all(line.text.as_slice())?;
        out.write_all(b"\n")?;
    }
    Ok(())
}

/// Prints a place as `NAME:LINE:`.
fn print_place<W: Write>(out: &mut W, texts: &[Text], place: Place) -> io::Result<()> {
    if let Some(text) = texts.get(place.text as usize) {
        out.write_all(text.name)?;
    }
    write!(out, ":{}:", place.line)
}

/// Prints what is to be said of lines that are taken.
fn note<W: Write>(err: &mut W, texts: &[Text], translation: &Translation) -> io::Result<()> {
    for note in translation.notes.as_slice() {
        print_place(err, texts, note.place)?;
        writeln!(err, " note: {}", note.remark.words())?;
    }
    Ok(())
}

/// Says why there is no translation; what is said already of a line isn't said again.
fn say<W: Write>(err: &mut W, texts: &[Text], failure: &Failure) -> io::Result<()> {
    match failure {
        Failure::Refused(refusals) => {
            let mut last: Option<Refusal> = None;
            for refusal in refusals.as_slice() {
                if last != Some(*refusal) {
                    print_place(err, texts, refusal.place)?;
                    writeln!(err, " {}", refusal.reason)?;
                }
                last = Some(*refusal);
            }
            Ok(())
        }
        Failure::Wanted(place, name) => {
            print_place(err, texts, *place)?;
            err.write_all(b" includes ")?;
            err.write_all(name.as_slice())?;
            err.write_all(b", which isn't given\n")
        }
        Failure::Memory => writeln!(err, "pcmasm: no memory"),
    }
}
