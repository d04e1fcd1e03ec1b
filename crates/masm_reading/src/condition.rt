//! IF and what belongs to it.
use masm_text::name::Name;
use masm_text::refusal::{Reason, Stop};
use std::alloc::Global;

/// An IF: whether its lines are read now, and whether they were in any of its parts, or may not be in any.
#[derive(Clone, Copy)]
struct Condition {
    is_read: bool,
    was_read: bool,
}

/// The IFs whose ENDIF hasn't come, the innermost last.
#[derive(Drop)]
pub struct Conditions {
    open: Vec<Condition>,
}

/// What IF and its kind ask.
#[derive(Clone, Copy)]
pub enum Question {
    /// Whether it is the first pass, as which MASM's first one is taken.
    FirstPass,
    /// Whether an expression isn't zero.
    Number,
    Defined,
    Blank,
    /// Whether two arguments are the same, perhaps but for the case of their letters.
    Same(bool),
}

/// A line that belongs to an IF. One that asks something has the answer with which its part is read.
#[derive(Clone, Copy)]
pub enum ConditionLine {
    If(Question, bool),
    ElseIf(Question, bool),
    Else,
    EndIf,
}

/// Which line of an IF begins with the word; `None` if none does.
pub fn condition_line(word: Name) -> Option<ConditionLine> {
    match word.text() {
        b"ELSE" => Some(ConditionLine::Else),
        b"ENDIF" => Some(ConditionLine::EndIf),
        [b'E', b'L', b'S', b'E', rest @ ..] => {
            let (question, wanted) = question_of(rest)?;
            Some(ConditionLine::ElseIf(question, wanted))
        }
        word => {
            let (question, wanted) = question_of(word)?;
            Some(ConditionLine::If(question, wanted))
        }
    }
}

/// What a word asks, and the answer with which the lines after it are read; `None` if it isn't one of the IFs.
fn question_of(word: &[u8]) -> Option<(Question, bool)> {
    match word {
        b"IF1" => Some((Question::FirstPass, true)),
        b"IF2" => Some((Question::FirstPass, false)),
        b"IF" => Some((Question::Number, true)),
        b"IFE" => Some((Question::Number, false)),
        b"IFDEF" => Some((Question::Defined, true)),
        b"IFNDEF" => Some((Question::Defined, false)),
        b"IFB" => Some((Question::Blank, true)),
        b"IFNB" => Some((Question::Blank, false)),
        b"IFIDN" => Some((Question::Same(false), true)),
        b"IFIDNI" => Some((Question::Same(true), true)),
        b"IFDIF" => Some((Question::Same(false), false)),
        b"IFDIFI" => Some((Question::Same(true), false)),
        _ => None,
    }
}

impl Conditions {
    /// No IF.
    pub fn new(alloc: Global) -> Conditions {
        Conditions {
            open: Vec::new(alloc),
        }
    }

    /// How many ENDIFs are missing.
    pub fn len(&self) -> usize {
        self.open.len()
    }

    /// Leaves all IFs but the first `count`.
    pub fn leave(&mut self, count: usize) {
        self.open.truncate(count);
    }

    /// Whether the lines here are left out.
    pub fn is_skipped(&self) -> bool {
        // what stands in lines that are left out isn't read either
        self.open.last().is_some_and(|last| !last.is_read)
    }

    /// Whether an ELSEIF here asks anything: the lines around its IF are read, and no part of it was.
    pub fn is_asked(&self) -> bool {
        self.open.last().is_some_and(|last| !last.was_read)
    }

    /// Takes in an IF, whose answer is `holds`; no part of it is read if the lines here are left out.
    pub fn begin(&mut self, holds: bool) -> Result<(), Stop> {
        let is_skipped = self.is_skipped();
        self.open.push(Condition {
            is_read: holds && !is_skipped,
            was_read: holds || is_skipped,
        })?;
        Ok(())
    }

    /// Takes in an ELSE, or an ELSEIF whose answer is `holds`.
    pub fn turn(&mut self, holds: bool) -> Result<(), Stop> {
        let condition = self.open.pop().ok_or(Reason::NothingToEnd)?;
        self.open.push(Condition {
            is_read: holds && !condition.was_read,
            was_read: holds || condition.was_read,
        })?;
        Ok(())
    }

    /// Takes in an ENDIF.
    pub fn end(&mut self) -> Result<(), Stop> {
        let _ = self.open.pop().ok_or(Reason::NothingToEnd)?;
        Ok(())
    }
}
