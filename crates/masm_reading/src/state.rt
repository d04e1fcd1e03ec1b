//! What the lines of a source do in the first pass: macros, conditions and repetitions, and the meanings of names.
use crate::action::Action;
use crate::condition::{ConditionLine, Conditions, Question, condition_line};
use crate::macros::{Macros, Purpose, arguments_of, characters_of, is_name, names_of};
use crate::names::Names;
use masm_line::statement::is_listed;
use masm_text::name::Name;
use masm_text::raw::{Bindings, bare, split_argument, split_word, with_arguments};
use masm_text::refusal::{Reason, Stop};
use masm_text::token::{after_blanks, tokens_of};
use masm_value::expression::value_of;
use masm_value::value::Width;
use std::alloc::{AllocError, Global};

/// What the first pass knows.
#[derive(Drop)]
pub struct State {
    alloc: Global,
    macros: Macros,
    conditions: Conditions,
    names: Names,
    /// The names that stand for texts.
    texts: Bindings,
    /// The character that ends a COMMENT.
    comment: Option<u8>,
    /// The lines with which the next one is a single line.
    unfinished: Option<Vec<u8>>,
    /// Whether END has come.
    is_ended: bool,
}

impl State {
    /// What is known before the first line.
    pub fn new(alloc: Global) -> State {
        State {
            alloc,
            macros: Macros::new(alloc),
            conditions: Conditions::new(alloc),
            names: Names::new(alloc),
            texts: Bindings::new(alloc),
            comment: None,
            unfinished: None,
            is_ended: false,
        }
    }

    /// Whether lines are gathered whose end hasn't come.
    pub fn is_gathering(&self) -> bool {
        self.macros.is_gathering() || self.unfinished.is_some()
    }

    /// Whether an IF, a structure or a COMMENT has no end.
    pub fn is_open(&self) -> bool {
        self.conditions.len() > 0 || self.names.is_in_structure() || self.comment.is_some()
    }

    /// How many IFs are open.
    pub fn conditions(&self) -> usize {
        self.conditions.len()
    }

    /// Leaves lines before whose first one so many IFs were open.
    pub fn leave(&mut self, conditions: Option<usize>) {
        if let Some(count) = conditions {
            self.conditions.leave(count);
        }
    }

    /// The names, at the end of all lines.
    pub fn finish(self) -> Names {
        let State { mut names, .. } = self;
        if names.symbols.segments.len() <= 1 && names.entry.is_none() {
            names.symbols.segments.is_tiny = true;
        }
        names
    }

    /// Takes a line in, and says what becomes of it.
    pub fn take(&mut self, line: &[u8]) -> Result<Action, Stop> {
        if self.is_ended {
            return Ok(Action::Leave);
        }
        if let Some(delimiter) = self.comment {
            if line.contains(&delimiter) {
                self.comment = None;
            }
            return Ok(Action::Leave);
        }
        if let Some(action) = self.macros.gather(line)? {
            return Ok(action);
        }
        if !self.conditions.is_skipped()
            && let Some(action) = self.join(line)?
        {
            return Ok(action);
        }
        match split_word(line) {
            Some((first, after)) if is_name(after) && !self.conditions.is_skipped() => {
                self.take_text(line, first, after)
            }
            Some((first, after)) => self.take_words(line, first, after),
            None => match after_blanks(line) {
                [b'%', after @ ..] if is_listed(after) => Ok(Action::Leave),
                _ => self.keep(line),
            },
        }
    }

    /// Joins a line to those that it goes on with; `None` if it stands alone.
    fn join(&mut self, line: &[u8]) -> Result<Option<Action>, Stop> {
        let front = front_of_longer(line, self.unfinished.is_some());
        let Some(mut joined) = self.unfinished.take() else {
            let Some(front) = front else {
                return Ok(None);
            };
            self.unfinished = Some(Vec::from_slice(self.alloc, front)?);
            return Ok(Some(Action::Gather));
        };
        joined.extend_from_slice(front.unwrap_or(line))?;
        if front.is_some() {
            self.unfinished = Some(joined);
            return Ok(Some(Action::Leave));
        }
        self.macros.count(1)?;
        Ok(Some(Action::Repeat(vec![in self.alloc; joined]?, 1)))
    }

    /// Takes in a line by its first word, which isn't a name that the line defines.
    fn take_words(&mut self, line: &[u8], first: Name, after: &[u8]) -> Result<Action, Stop> {
        if let Some(condition) = condition_line(first) {
            self.take_condition(condition, after)?;
            return Ok(Action::Leave);
        }
        if self.conditions.is_skipped() {
            return Ok(Action::Leave);
        }
        match self.purpose_of(first, after)? {
            Some(purpose) => {
                self.macros.begin(purpose);
                Ok(Action::Gather)
            }
            None => self.take_first(line, first, after),
        }
    }

    /// Takes in a line by its first word, which begins neither an IF nor lines that are gathered.
    fn take_first(&mut self, line: &[u8], first: Name, after: &[u8]) -> Result<Action, Stop> {
        match first.text() {
            b"TITLE" | b"SUBTTL" | b"SUBTITLE" | b"PAGE" | b"NAME" | b"INCLUDELIB" => {
                Ok(Action::Leave)
            }
            b"COMMENT" => {
                if let [delimiter, rest @ ..] = after_blanks(after)
                    && !rest.contains(delimiter)
                {
                    self.comment = Some(*delimiter);
                }
                Ok(Action::Leave)
            }
            b"INCLUDE" => Ok(Action::Include(Vec::from_slice(self.alloc, unquoted(bare(after)))?)),
            b"ENDM" => Err(Stop::Refused(Reason::NothingToEnd)),
            b"EXITM" => Ok(Action::End),
            b"PURGE" => {
                self.macros.purge(after)?;
                Ok(Action::Leave)
            }
            b"END" => {
                let action = self.keep(line)?;
                self.is_ended = true;
                Ok(action)
            }
            _ if self.macros.has(first) => {
                let arguments = self.arguments_of(after)?;
                Ok(Action::Call(self.macros.call(first, arguments)?))
            }
            _ => self.take_text(line, first, after),
        }
    }

    /// Takes in a line that defines a name for a text, has one in it, or a label before a macro.
    fn take_text(&mut self, line: &[u8], first: Name, after: &[u8]) -> Result<Action, Stop> {
        if let Some((second, text)) = split_word(after)
            && (second.is(b"EQU") || second.is(b"TEXTEQU"))
            && is_text(text)
        {
            self.texts
                .bind(first, Vec::from_slice(self.alloc, bare(text))?)?;
            return Ok(Action::Leave);
        }
        if let [b':', later @ ..] = after_blanks(after)
            && let Some((second, _)) = split_word(later)
            && self.macros.has(second)
        {
            let mut label = Vec::from_slice(self.alloc, first.spelling())?;
            label.push(b':')?;
            let call = Vec::from_slice(self.alloc, later)?;
            return Ok(Action::Call(vec![in self.alloc; label, call]?));
        }
        if !self.texts.is_empty() {
            let replaced = with_arguments(self.alloc, line, &self.texts)?;
            if replaced.as_slice() != line {
                self.macros.count(1)?;
                return Ok(Action::Call(vec![in self.alloc; replaced]?));
            }
        }
        self.keep(line)
    }

    /// Gives the names of a line their meaning, if it isn't left out.
    fn keep(&mut self, line: &[u8]) -> Result<Action, Stop> {
        if self.conditions.is_skipped() {
            return Ok(Action::Leave);
        }
        let tokens = tokens_of(self.alloc, line)?;
        if self.names.take(line, tokens.as_slice())? {
            Ok(Action::Keep)
        } else {
            Ok(Action::Leave)
        }
    }

    /// Takes in a line that belongs to an IF.
    fn take_condition(&mut self, line: ConditionLine, after: &[u8]) -> Result<(), Stop> {
        match line {
            ConditionLine::If(question, wanted) => {
                let is_skipped = self.conditions.is_skipped();
                let holds = !is_skipped && self.answer(question, after)? == wanted;
                self.conditions.begin(holds)
            }
            ConditionLine::ElseIf(question, wanted) => {
                let is_asked = self.conditions.is_asked();
                let holds = is_asked && self.answer(question, after)? == wanted;
                self.conditions.turn(holds)
            }
            ConditionLine::Else => self.conditions.turn(true),
            ConditionLine::EndIf => self.conditions.end(),
        }
    }

    /// The answer to what an IF asks.
    fn answer(&self, question: Question, text: &[u8]) -> Result<bool, Stop> {
        match question {
            Question::FirstPass => Ok(true),
            Question::Number => Ok(self.number_of(text)? != 0),
            Question::Defined => Ok(self.is_defined(text)),
            Question::Blank => Ok(bare(bare(text)).is_empty()),
            Question::Same(ignores_case) => Ok(are_same(text, ignores_case)),
        }
    }

    /// The number that an expression is here.
    fn number_of(&self, text: &[u8]) -> Result<i64, Stop> {
        let tokens = tokens_of(self.alloc, text)?;
        let value = value_of(self.names.light(), tokens.as_slice())?;
        Ok(value.constant().ok_or(Reason::NotConstant)?)
    }

    /// Whether the word at the front is a name that is defined.
    fn is_defined(&self, text: &[u8]) -> bool {
        match split_word(text) {
            Some((name, _)) => {
                self.names.symbols.get(name).is_some() || self.texts.get(name).is_some()
            }
            None => false,
        }
    }

    /// What lines are gathered for after this one, if it is the first of a macro or a repetition.
    fn purpose_of(&self, first: Name, after: &[u8]) -> Result<Option<Purpose>, Stop> {
        match first.text() {
            b"REPT" | b"REPEAT" => match self.number_of(after)? {
                count @ 0..=0xFFFF_FFFF => Ok(Some(Purpose::Repeat(count as u32))),
                _ => Err(Stop::Refused(Reason::BadExpression)),
            },
            b"IRP" | b"FOR" => {
                let (name, list) = parameter_and_list(after)?;
                Ok(Some(Purpose::Each(name, arguments_of(self.alloc, bare(list))?)))
            }
            b"IRPC" | b"FORC" => {
                let (name, list) = parameter_and_list(after)?;
                Ok(Some(Purpose::Each(name, characters_of(self.alloc, list)?)))
            }
            _ => match split_word(after) {
                Some((second, list)) if second.is(b"MACRO") => {
                    Ok(Some(Purpose::Macro(first, names_of(self.alloc, list)?)))
                }
                _ => Ok(None),
            },
        }
    }

    /// The arguments of a macro's call; one that `%` begins is the number that it is.
    fn arguments_of(&self, list: &[u8]) -> Result<Vec<Vec<u8>>, Stop> {
        let mut arguments = Vec::new(self.alloc);
        for argument in arguments_of(self.alloc, list)?.as_slice() {
            match argument.as_slice() {
                [b'%', expression @ ..] => {
                    let number = self.number_of(expression)?;
                    let text = format!(in self.alloc; "{number}")?;
                    arguments.push(Vec::from_slice(self.alloc, text.as_bytes())?)?;
                }
                text => arguments.push(without_marks(self.alloc, text)?)?,
            }
        }
        Ok(arguments)
    }
}

/// The line that the next one goes on with: after a backslash at its end, which is left out, or a comma in data, also
/// of one that goes on with others if `is_later` says so. `None` if it goes on with none.
fn front_of_longer(line: &[u8], is_later: bool) -> Option<&[u8]> {
    match bare(line) {
        [front @ .., b'\\'] => Some(front),
        [.., b','] if is_later || is_data(line) => Some(line),
        _ => None,
    }
}

/// Whether the line places data by its first word, or by the one after a name.
fn is_data(line: &[u8]) -> bool {
    let Some((first, after)) = split_word(line) else {
        return false;
    };
    let (second, _) = split_word(after).unwrap_or((first, after));
    Width::of_directive(first.text()).is_some() || Width::of_directive(second.text()).is_some()
}

/// Whether an EQU stands for a text: one in angle brackets, or in quotes and longer than a number may be, or a list.
fn is_text(text: &[u8]) -> bool {
    match after_blanks(text) {
        [b'<', ..] => true,
        [quote @ (b'\'' | b'"'), first, second, third, ..]
            if first != quote && second != quote && third != quote => { true }
        text => split_argument(text).1.is_some(),
    }
}

/// Whether both arguments are the same, or are but for the case of their letters.
fn are_same(list: &[u8], ignores_case: bool) -> bool {
    match split_argument(list) {
        (left, Some(right)) if ignores_case => bare(left).eq_ignore_ascii_case(bare(right)),
        (left, Some(right)) => bare(left) == bare(right),
        _ => false,
    }
}

/// The parameter of a repetition, and its list.
fn parameter_and_list(text: &[u8]) -> Result<(Name, &[u8]), Stop> {
    let (parameter, list) = split_argument(text);
    let (name, _) = split_word(parameter).ok_or(Reason::UnknownStatement)?;
    Ok((name, list.ok_or(Reason::UnknownStatement)?))
}

/// The argument without the marks `!`, each of which has the character after it stand for itself; a text keeps them.
fn without_marks(alloc: Global, text: &[u8]) -> Result<Vec<u8>, AllocError> {
    if let [b'\'' | b'"', ..] = text {
        return Vec::from_slice(alloc, text);
    }
    let mut plain = Vec::new(alloc);
    let mut is_marked = false;
    for byte in text {
        is_marked = *byte == b'!' && !is_marked;
        if !is_marked {
            plain.push(*byte)?;
        }
    }
    Ok(plain)
}

/// The name of a text without quotes around it.
fn unquoted(name: &[u8]) -> &[u8] {
    match name {
        [b'\'' | b'"', inner @ .., b'\'' | b'"'] => inner,
        _ => name,
    }
}
