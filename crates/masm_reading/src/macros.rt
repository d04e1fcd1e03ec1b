//! Macros, and lines that are gathered for them and for repetitions.
use crate::action::Action;
use masm_text::name::{Key, Name};
use masm_text::raw::{Bindings, bare, split_argument, split_word, with_arguments};
use masm_text::refusal::{Reason, Stop};
use masm_text::token::after_blanks;
use std::alloc::{AllocError, Global};
use std::collections::BTreeMap;

/// How many lines may come of macros and of the arguments of repetitions, and how many names of LOCAL.
const LINE_LIMIT: u32 = 1_000_000;

/// A macro.
#[derive(Drop)]
struct Macro {
    parameters: Vec<Name>,
    body: Vec<Vec<u8>>,
}

/// What the lines up to ENDM are gathered for.
#[derive(Drop)]
pub enum Purpose {
    Macro(Name, Vec<Name>),
    Repeat(u32),
    /// For each argument of a list in turn, which stands for the name.
    Each(Name, Vec<Vec<u8>>),
}

/// Lines that are gathered up to their ENDM.
#[derive(Drop)]
struct Gathering {
    purpose: Purpose,
    body: Vec<Vec<u8>>,
    /// How many further ENDMs come before.
    depth: u32,
}

/// The macros so far.
#[derive(Drop)]
pub struct Macros {
    alloc: Global,
    macros: BTreeMap<Key, Macro>,
    gathering: Option<Gathering>,
    /// How many names LOCAL has made.
    locals: u32,
    /// How many lines macros have made.
    made: u32,
}

/// What a line does to the depth of macros and repetitions.
#[derive(Clone, Copy, PartialEq, Eq)]
enum Nesting {
    Begins,
    Ends,
    Stays,
}

impl Macros {
    /// No macros.
    pub fn new(alloc: Global) -> Macros {
        Macros {
            alloc,
            macros: BTreeMap::new(alloc),
            gathering: None,
            locals: 0,
            made: 0,
        }
    }

    /// Whether lines are gathered whose end hasn't come.
    pub fn is_gathering(&self) -> bool {
        self.gathering.is_some()
    }

    /// Whether there is a macro of this name.
    pub fn has(&self, name: Name) -> bool {
        self.macros.get(&name.key()).is_some()
    }

    /// Forgets the macros of a list of names.
    pub fn purge(&mut self, list: &[u8]) -> Result<(), Stop> {
        for name in names_of(self.alloc, list)?.as_slice() {
            let _ = self.macros.remove(&name.key());
        }
        Ok(())
    }

    /// Begins to gather lines.
    pub fn begin(&mut self, purpose: Purpose) {
        self.gathering = Some(Gathering {
            purpose,
            body: Vec::new(self.alloc),
            depth: 0,
        });
    }

    /// Gathers a line, or ends the gathering, and says what becomes of it; `None` if no lines are gathered.
    pub fn gather(&mut self, line: &[u8]) -> Result<Option<Action>, Stop> {
        let Some(mut gathering) = self.gathering.take() else {
            return Ok(None);
        };
        let change = nesting_of(line);
        if change == Nesting::Ends && gathering.depth == 0 {
            return Ok(Some(self.end(gathering.purpose, gathering.body)?));
        }
        gathering.body.push(Vec::from_slice(self.alloc, line)?)?;
        match change {
            Nesting::Begins => gathering.depth = gathering.depth.saturating_add(1),
            Nesting::Ends => gathering.depth = gathering.depth.saturating_sub(1),
            Nesting::Stays => {}
        }
        self.gathering = Some(gathering);
        Ok(Some(Action::Leave))
    }

    /// Does with gathered lines what they were gathered for.
    fn end(&mut self, purpose: Purpose, body: Vec<Vec<u8>>) -> Result<Action, Stop> {
        match purpose {
            Purpose::Macro(name, parameters) => {
                self.macros.insert(name.key(), Macro { parameters, body })?;
                Ok(Action::Leave)
            }
            Purpose::Repeat(0) => Ok(Action::Leave),
            Purpose::Repeat(rounds) => Ok(Action::Repeat(body, rounds)),
            Purpose::Each(name, arguments) => {
                let mut lines = Vec::new(self.alloc);
                for text in arguments {
                    self.count(body.len())?;
                    let mut binding = Bindings::new(self.alloc);
                    binding.bind(name, text)?;
                    push_bound(self.alloc, &mut lines, body.as_slice(), &binding)?;
                }
                Ok(Action::Repeat(lines, 1))
            }
        }
    }

    /// Counts lines that a macro makes; refuses too many.
    pub fn count(&mut self, count: usize) -> Result<(), Reason> {
        let count = count.min(LINE_LIMIT as usize) as u32;
        self.made = self.made.saturating_add(count);
        if self.made > LINE_LIMIT {
            return Err(Reason::TooManyLines);
        }
        Ok(())
    }

    /// The lines that the call of a macro makes.
    pub fn call(&mut self, name: Name, arguments: Vec<Vec<u8>>) -> Result<Vec<Vec<u8>>, Stop> {
        let count = self
            .macros
            .get(&name.key())
            .map_or(0, |found| found.body.len().max(found.parameters.len()));
        self.count(count)?;
        let mut lines = Vec::new(self.alloc);
        let Some(found) = self.macros.get(&name.key()) else {
            return Ok(lines);
        };
        let mut locals = self.locals;
        let mut bindings = bindings_of(self.alloc, found.parameters.as_slice(), arguments)?;
        for line in found.body.as_slice() {
            match locals_in(line.as_slice()) {
                Some(names) => locals = bind_locals(self.alloc, &mut bindings, names, locals)?,
                None => lines.push(with_arguments(self.alloc, line.as_slice(), &bindings)?)?,
            }
        }
        self.locals = locals;
        Ok(lines)
    }
}

/// What a line does to the depth of macros and repetitions.
fn nesting_of(line: &[u8]) -> Nesting {
    let Some((first, after)) = split_word(line) else {
        return Nesting::Stays;
    };
    match first.text() {
        _ if is_name(after) => Nesting::Stays,
        b"ENDM" => Nesting::Ends,
        b"REPT" | b"REPEAT" | b"IRP" | b"FOR" | b"IRPC" | b"FORC" | b"WHILE" => Nesting::Begins,
        _ => match split_word(after) {
            Some((second, _)) if second.is(b"MACRO") => Nesting::Begins,
            _ => Nesting::Stays,
        },
    }
}

/// Whether what follows the first word of a line makes it a name, or a label, whatever word it is.
pub fn is_name(after: &[u8]) -> bool {
    match split_word(after) {
        Some((second, _)) => {
            matches!(
                second.text(),
                b"DB" | b"DW" | b"DD" | b"DQ" | b"DT" | b"EQU"
            )
        }
        None => matches!(after_blanks(after), [b'=' | b':', ..]),
    }
}

/// Puts lines with their parameters replaced after the others.
fn push_bound(
    alloc: Global,
    lines: &mut Vec<Vec<u8>>,
    body: &[Vec<u8>],
    bindings: &Bindings,
) -> Result<(), Stop> {
    for line in body {
        lines.push(with_arguments(alloc, line.as_slice(), bindings)?)?;
    }
    Ok(())
}

/// The names in a list, without what follows a colon.
pub fn names_of(alloc: Global, list: &[u8]) -> Result<Vec<Name>, Stop> {
    let mut names = Vec::new(alloc);
    let mut left = Some(list);
    while let Some(list) = left {
        let (argument, after) = split_argument(list);
        if let Some((name, _)) = split_word(argument) {
            names.push(name)?;
        }
        left = after;
    }
    Ok(names)
}

/// The arguments of a list as they stand, without blanks and angle brackets around them.
pub fn arguments_of(alloc: Global, list: &[u8]) -> Result<Vec<Vec<u8>>, AllocError> {
    let mut arguments = Vec::new(alloc);
    let mut left = Some(list);
    while let Some(list) = left {
        let (argument, after) = split_argument(list);
        arguments.push(Vec::from_slice(alloc, bare(argument))?)?;
        left = after;
    }
    Ok(arguments)
}

/// The characters of a list as arguments of their own.
pub fn characters_of(alloc: Global, list: &[u8]) -> Result<Vec<Vec<u8>>, AllocError> {
    let mut arguments = Vec::new(alloc);
    for byte in bare(list) {
        arguments.push(Vec::from_slice(alloc, &[*byte])?)?;
    }
    Ok(arguments)
}

/// The parameters of a macro and the arguments of a call, which may be fewer.
fn bindings_of(
    alloc: Global,
    parameters: &[Name],
    arguments: Vec<Vec<u8>>,
) -> Result<Bindings, AllocError> {
    let mut bindings = Bindings::new(alloc);
    for (place, name) in parameters.iter().enumerate() {
        let text = match arguments.get(place) {
            Some(argument) => Vec::from_slice(alloc, argument.as_slice())?,
            None => Vec::new(alloc),
        };
        bindings.bind(*name, text)?;
    }
    Ok(bindings)
}

/// The names in a line LOCAL of a macro.
fn locals_in(line: &[u8]) -> Option<&[u8]> {
    match split_word(line) {
        Some((first, names)) if first.is(b"LOCAL") => Some(names),
        _ => None,
    }
}

/// Binds each of the names to a name of its own, and gives how many such names there are then.
fn bind_locals(
    alloc: Global,
    bindings: &mut Bindings,
    list: &[u8],
    count: u32,
) -> Result<u32, Stop> {
    let mut count = count;
    for name in names_of(alloc, list)?.as_slice() {
        if count >= LINE_LIMIT {
            return Err(Stop::Refused(Reason::TooManyLines));
        }
        count += 1;
        let text = format!(in alloc; "??{count}")?;
        bindings.bind(*name, Vec::from_slice(alloc, text.as_bytes())?)?;
    }
    Ok(count)
}
