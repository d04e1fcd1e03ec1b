//! How a line becomes lines of the dialect.
use crate::layout::Plan;
use masm_line::data::{count_of_items, data_text, instance_count};
use masm_line::instruction::{Around, Assumed, instruction_lines};
use masm_line::output::{write_name, write_number, write_spelled};
use masm_line::statement::{Statement, split_item, split_label, statement_of};
use masm_reading::names::{Names, segment_name};
use masm_text::name::Name;
use masm_text::number::Spelling;
use masm_text::refusal::{Reason, Remark, Stop};
use masm_text::token::{Mark, Token, tokens_of};
use masm_value::expression::{Light, anonymous_name, value_of};
use masm_value::symbol::{Field, Symbol, Symbols};
use masm_value::value::{Value, Width};
use std::alloc::{AllocError, Global};

/// How many lines of data may come of a line of structures, but for those of the last structure.
const INSTANCE_LIMIT: usize = 0x1_0000;

/// A procedure whose end hasn't come.
#[derive(Drop)]
struct Procedure {
    name: Name,
    is_far: bool,
    /// The registers that USES names, in the order in which they are pushed.
    saved: Vec<Name>,
}

/// What the second pass knows before a line.
#[derive(Drop)]
pub struct Writer {
    alloc: Global,
    symbols: Symbols,
    entry: Option<Name>,
    has_startup: bool,
    /// The numbers of the constants in the order of their lines, and how many lines came so far.
    constants: Vec<Option<i64>>,
    constant: usize,
    segment: usize,
    /// How many bytes stand in the segment, if AT gives its paragraph.
    location: u32,
    /// The procedures around the line, the innermost last.
    procedures: Vec<Procedure>,
    assumed: Assumed,
    /// How many labels `@@` came so far.
    anonymous: u32,
    has_origin: bool,
    /// What the line becomes, each label by itself.
    texts: Vec<Vec<u8>>,
    /// What is to be said of the line.
    remark: Option<Remark>,
}

impl Writer {
    /// What is known before the first line.
    pub fn new(alloc: Global, names: Names) -> Writer {
        let Names {
            symbols,
            entry,
            has_startup,
            constants,
            ..
        } = names;
        // lines before any segment is opened are code
        let segment = symbols.named_segment(b"_TEXT").unwrap_or(0);
        Writer {
            alloc,
            symbols,
            entry,
            has_startup,
            constants,
            constant: 0,
            segment,
            location: 0,
            procedures: Vec::new(alloc),
            assumed: Assumed {
                data: None,
                extra: None,
                stack: None,
            },
            anonymous: 0,
            has_origin: false,
            texts: Vec::new(alloc),
            remark: None,
        }
    }

    /// What the segments are laid out by, without the names, which take most of the memory.
    pub fn finish(self) -> Plan {
        let code = self.symbols.named_segment(b"_TEXT").unwrap_or(0);
        let Writer {
            alloc,
            symbols,
            entry,
            has_origin,
            ..
        } = self;
        Plan {
            alloc,
            segments: symbols.into_segments(),
            code,
            entry,
            has_origin,
        }
    }

    /// The segment in which the lines stand that were made last.
    pub fn segment(&self) -> usize {
        self.segment
    }

    /// What is to be said of the line that was made last.
    pub fn remark(&self) -> Option<Remark> {
        self.remark
    }

    /// The lines of the dialect that a line becomes.
    pub fn line(&mut self, line: &[u8]) -> Result<Vec<Vec<u8>>, Stop> {
        self.remark = None;
        let tokens = tokens_of(self.alloc, line)?;
        let (label, tokens) = split_label(tokens.as_slice());
        self.texts = Vec::new(self.alloc);
        if let Some(name) = label {
            self.label(name)?;
        }
        self.statement(statement_of(tokens))?;
        joined(self.alloc, self.texts.as_slice())
    }

    /// Writes a line after those that the line has become so far.
    fn push(&mut self, text: Vec<u8>) -> Result<(), Stop> {
        Ok(self.texts.push(text)?)
    }

    /// Writes a label.
    fn label(&mut self, name: Name) -> Result<(), Stop> {
        let written = if name.is(b"@@") {
            self.anonymous = self.anonymous.saturating_add(1);
            anonymous_name(self.alloc, self.anonymous)?
        } else {
            self.light().known_as(name)?
        };
        let text = label_text(self.alloc, written)?;
        self.push(text)
    }

    /// What the line of the dialect is written in the light of.
    fn light(&self) -> Light<'_> {
        Light {
            alloc: self.alloc,
            symbols: &self.symbols,
            at: None,
            constant: None,
            anonymous: self.anonymous,
            procedure: self.procedures.last().map(|procedure| procedure.name),
        }
    }

    /// Writes what a line says after its label.
    fn statement(&mut self, statement: Statement<'_, '_>) -> Result<(), Stop> {
        match statement {
            Statement::Nothing
            | Statement::EndSegment
            | Statement::Group(..)
            | Statement::Structure(_)
            | Statement::End(_) => {}
            Statement::Remarked(remark) => self.remark = Some(remark),
            Statement::Model(_) => {
                let data = self.symbols.named_segment(b"_DATA");
                self.assumed.data = data;
                self.assumed.stack = data;
            }
            Statement::Segment(name, _) => self.open(name)?,
            Statement::Assume(tokens) => self.assume(tokens),
            Statement::Procedure(name, rest) => self.procedure(name, rest)?,
            Statement::EndProcedure => {
                let _ = self.procedures.pop();
            }
            Statement::Label(name, _) => self.label(name)?,
            Statement::Constant(name, tokens, is_again) => self.constant(name, tokens, is_again)?,
            Statement::Data(name, width, tokens) => self.data(name, width, tokens)?,
            Statement::Instance(name, structure, times, items) => {
                self.instance(name, structure, times, items)?;
            }
            Statement::Origin(tokens) => self.origin(tokens)?,
            Statement::Startup => self.startup()?,
            Statement::Exit(tokens) => self.exit(tokens)?,
            Statement::Instruction(first, rest) => self.instruction(first, rest)?,
            Statement::Refused(reason) => return Err(Stop::Refused(reason)),
        }
        Ok(())
    }

    /// Goes on in a segment. A program without an entry begins with .CODE.
    fn open(&mut self, name: Name) -> Result<(), Stop> {
        self.segment = self.symbols.open(segment_name(name)?)?;
        self.location = 0;
        let has_entry = self.entry.is_some() || self.has_startup || self.symbols.segments.is_tiny;
        if has_entry || !name.is(b".CODE") {
            return Ok(());
        }
        self.enter(b".00")
    }

    /// Has the program begin here, by a name that no user can write.
    fn enter(&mut self, word: &[u8]) -> Result<(), Stop> {
        let entry = Name::of(word).ok_or(Reason::LongName)?;
        self.entry = Some(entry);
        let text = label_text(self.alloc, entry)?;
        self.push(text)
    }

    /// Takes in which segments the segment registers are assumed to hold.
    fn assume(&mut self, tokens: &[Token]) {
        let mut left = Some(tokens);
        while let Some(tokens) = left {
            let (item, after) = split_item(tokens);
            if let [Token::Word(register), colon, Token::Word(segment), ..] = item
                && colon.is_mark(Mark::Colon)
            {
                self.assume_one(*register, *segment);
            }
            left = after;
        }
    }

    /// Takes in which segment a segment register is assumed to hold; none if the name is no segment's, as NOTHING.
    fn assume_one(&mut self, register: Name, segment: Name) {
        let number = match self.symbols.get(segment) {
            Some(Symbol::Segment(number)) => Some(self.symbols.segments.leader(number)),
            _ if segment.is(b"@DATA") || segment.is(b"DGROUP") => {
                self.symbols.named_segment(b"_DATA")
            }
            _ => None,
        };
        match register.text() {
            b"DS" => self.assumed.data = number,
            b"ES" => self.assumed.extra = number,
            b"SS" => self.assumed.stack = number,
            _ => {}
        }
    }

    /// Writes the first lines of a procedure: its label, and what saves the registers that USES names.
    fn procedure(&mut self, name: Name, rest: &[Token]) -> Result<(), Stop> {
        self.label(name)?;
        let is_far = matches!(self.symbols.get(name), Some(Symbol::Far));
        let saved = used_registers(self.alloc, rest)?;
        for register in saved.as_slice() {
            self.texts.push(line_of(self.alloc, b"PUSH ", *register)?)?;
        }
        self.procedures.push(Procedure {
            name,
            is_far,
            saved,
        })?;
        Ok(())
    }

    /// Writes an instruction; before a return what USES has saved is restored.
    fn instruction(&mut self, first: Name, rest: &[Token]) -> Result<(), Stop> {
        if first.is(b"RET") || first.is(b"RETN") || first.is(b"RETF") {
            for line in self.restoring()? {
                self.push(line)?;
            }
        }
        let is_far = self
            .procedures
            .last()
            .is_some_and(|procedure| procedure.is_far);
        let around = Around {
            is_far,
            segment: self.segment,
            assumed: self.assumed,
        };
        let lines = instruction_lines(self.light(), around, first, rest)?;
        if lines.len() > 1 {
            self.remark = Some(Remark::Repeated);
        }
        for line in lines {
            self.push(line)?;
        }
        Ok(())
    }

    /// The lines that restore the registers which the procedure around has saved.
    fn restoring(&self) -> Result<Vec<Vec<u8>>, AllocError> {
        let mut lines = Vec::new(self.alloc);
        if let Some(procedure) = self.procedures.last() {
            for register in procedure.saved.iter().rev() {
                lines.push(line_of(self.alloc, b"POP ", *register)?)?;
            }
        }
        Ok(lines)
    }

    /// Gives a constant its value. If it still names the place of its line, that gets a label.
    fn constant(&mut self, name: Name, tokens: &[Token], is_again: bool) -> Result<(), Stop> {
        let number = self.constant;
        self.constant = number.saturating_add(1);
        let light = Light {
            constant: Some(number),
            ..self.light()
        };
        let here = light.here()?;
        let value = self.constant_value(number, light, tokens)?;
        if let Some(label) = here.plus
            && (names(value.plus, label) || names(value.minus, label))
        {
            self.label(label)?;
        }
        self.symbols.set_constant(name, value, is_again)
    }

    /// The value of a constant: the number that the first pass knew, since distances are known to it alone, or else what
    /// its expression is here.
    fn constant_value(&self, number: usize, light: Light, tokens: &[Token]) -> Result<Value, Stop> {
        let value = value_of(light, tokens);
        let Some(Some(known)) = self.constants.get(number) else {
            return value;
        };
        match value {
            Err(Stop::Memory) => Err(Stop::Memory),
            Ok(value) if value.constant() == Some(*known) => Ok(value),
            _ => Ok(Value::number(*known)),
        }
    }

    /// Writes a line of data. In a segment whose paragraph AT gives nothing is placed: the location goes on.
    fn data(&mut self, name: Option<Name>, width: Width, tokens: &[Token]) -> Result<(), Stop> {
        if let Some(name) = name {
            self.label(name)?;
        }
        if !self.symbols.segments.is_elsewhere(self.segment) {
            let text = data_text(self.light(), width, tokens)?;
            return self.push(text);
        }
        let count = count_of_items(self.light(), width, tokens)?.all;
        let size = count.checked_mul(width.bytes()).ok_or(Reason::Overflow)?;
        self.location = self.location.checked_add(size).ok_or(Reason::Overflow)?;
        self.numbered(b"ORG ", Value::number(self.location as i64))
    }

    /// Writes the lines of data of a structure's instances: the items that are given, and for the others those of the
    /// fields.
    fn instance(
        &mut self,
        name: Option<Name>,
        structure: Name,
        times: &[Token],
        items: &[Token],
    ) -> Result<(), Stop> {
        if let Some(name) = name {
            self.label(name)?;
        }
        let number = self.symbols.structure(structure)?;
        let light = self.light();
        let Some(structure) = light.symbols.structures.get(number) else {
            return Ok(());
        };
        let times = instance_count(light, times)?;
        let mut once = Vec::new(self.alloc);
        let mut left = Some(items);
        for field in structure.fields.as_slice() {
            let (item, after) = split_item(left.unwrap_or(&[]));
            once.push(field_text(light, field, item)?)?;
            left = after;
        }
        match left {
            None | Some([]) => repeat(self.alloc, &mut self.texts, once.as_slice(), times),
            Some(_) => Err(Stop::Refused(Reason::BadData)),
        }
    }

    /// Writes an ORG.
    fn origin(&mut self, tokens: &[Token]) -> Result<(), Stop> {
        let value = value_of(self.light(), tokens)?;
        let location = value.constant().ok_or(Reason::NotConstant)?;
        match location {
            0..=0xFFFF => self.location = location as u32,
            _ => return Err(Stop::Refused(Reason::Overflow)),
        }
        self.has_origin = true;
        self.numbered(b"ORG ", value)
    }

    /// Writes what .STARTUP stands for.
    fn startup(&mut self) -> Result<(), Stop> {
        self.enter(b".0")?;
        if self.symbols.segments.is_tiny {
            return Ok(());
        }
        let data = self.symbols.named_paragraph(b"_DATA");
        self.numbered(b"MOV AX,", Value::spelled(data, Spelling::Hexadecimal(4)))?;
        let text = Vec::from_slice(self.alloc, b"MOV DS,AX")?;
        self.push(text)
    }

    /// Writes what .EXIT stands for, with the exit code that it has.
    fn exit(&mut self, tokens: &[Token]) -> Result<(), Stop> {
        let code = match tokens {
            [] => 0,
            _ => match value_of(self.light(), tokens)?.constant() {
                Some(code @ 0..=255) => code,
                _ => return Err(Stop::Refused(Reason::NotConstant)),
            },
        };
        self.numbered(
            b"MOV AX,",
            Value::spelled(0x4C00 + code, Spelling::Hexadecimal(4)),
        )?;
        let text = Vec::from_slice(self.alloc, b"INT 21h")?;
        self.push(text)
    }

    /// Writes a line that begins so, and ends with the number of a value.
    fn numbered(&mut self, front: &[u8], value: Value) -> Result<(), Stop> {
        let mut text = Vec::from_slice(self.alloc, front)?;
        write_spelled(&mut text, value.number, value.spelling)?;
        self.push(text)
    }
}

/// Whether both are the same name.
fn names(found: Option<Name>, name: Name) -> bool {
    match found {
        Some(found) => found.is(name.text()),
        None => false,
    }
}

/// The registers after USES.
fn used_registers(alloc: Global, tokens: &[Token]) -> Result<Vec<Name>, Stop> {
    let mut registers = Vec::new(alloc);
    let mut is_used = false;
    for token in tokens {
        match token {
            Token::Word(name) if is_used => registers.push(*name)?,
            Token::Word(name) => is_used = name.is(b"USES"),
            // parameters of a procedure are of a later assembler
            _ => return Err(Stop::Refused(Reason::NotTaken)),
        }
    }
    Ok(registers)
}

/// A line of a label.
fn label_text(alloc: Global, name: Name) -> Result<Vec<u8>, Stop> {
    let mut text = Vec::new(alloc);
    write_name(&mut text, name)?;
    text.push(b':')?;
    Ok(text)
}

/// A line that begins so, and ends with a register.
fn line_of(alloc: Global, front: &[u8], register: Name) -> Result<Vec<u8>, AllocError> {
    let mut text = Vec::from_slice(alloc, front)?;
    text.extend_from_slice(register.spelling())?;
    Ok(text)
}

/// The line of data of a field: what is given, filled up to the field's length, or else what the field has.
fn field_text(light: Light, field: &Field, item: &[Token]) -> Result<Vec<u8>, Stop> {
    if item.is_empty() {
        let tokens = tokens_of(light.alloc, field.items.as_slice())?;
        return data_text(light, field.width, tokens.as_slice());
    }
    let count = count_of_items(light, field.width, item)?.all;
    let missing = field.count.checked_sub(count).ok_or(Reason::BadData)?;
    let mut text = data_text(light, field.width, item)?;
    if missing > 0 {
        text.push(b',')?;
        write_number(&mut text, missing as i64)?;
        // a text is filled up with blanks
        let filler: &[u8] = if matches!(item, [Token::Text(..)]) {
            b" DUP(' ')"
        } else {
            b" DUP(0)"
        };
        text.extend_from_slice(filler)?;
    }
    Ok(text)
}

/// Puts copies of lines after the others, so many times.
fn repeat(
    alloc: Global,
    texts: &mut Vec<Vec<u8>>,
    once: &[Vec<u8>],
    times: u32,
) -> Result<(), Stop> {
    for _ in 0..times {
        if texts.len() > INSTANCE_LIMIT {
            return Err(Stop::Refused(Reason::TooLong));
        }
        push_copies(alloc, texts, once)?;
    }
    Ok(())
}

/// Puts copies of lines after the others.
fn push_copies(
    alloc: Global,
    texts: &mut Vec<Vec<u8>>,
    lines: &[Vec<u8>],
) -> Result<(), AllocError> {
    for line in lines {
        texts.push(Vec::from_slice(alloc, line.as_slice())?)?;
    }
    Ok(())
}

/// The texts, with each label on one line with what follows it, unless that is a label too.
fn joined(alloc: Global, texts: &[Vec<u8>]) -> Result<Vec<Vec<u8>>, Stop> {
    let mut lines = Vec::new(alloc);
    let mut front = Vec::new(alloc);
    for text in texts {
        let is_label = text.as_slice().ends_with(b":");
        if is_label && !front.is_empty() {
            lines.push(front)?;
            front = Vec::new(alloc);
        }
        if !front.is_empty() {
            front.push(b' ')?;
        }
        front.extend_from_slice(text.as_slice())?;
        if !is_label {
            lines.push(front)?;
            front = Vec::new(alloc);
        }
    }
    if !front.is_empty() {
        lines.push(front)?;
    }
    Ok(lines)
}
