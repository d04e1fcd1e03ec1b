//! The meanings that lines give to names.
use masm_line::data::{count_of_items, instance_count};
use masm_line::statement::{Statement, first_word, has_far, split_item, split_label, statement_of};
use masm_text::name::Name;
use masm_text::raw::split_word;
use masm_text::refusal::{Reason, Stop};
use masm_text::token::Token;
use masm_value::expression::{Light, local_name, value_of};
use masm_value::symbol::{Field, Symbol, Symbols, Variable};
use masm_value::value::{Count, Location, Type, Value, Width};
use std::alloc::Global;

/// A procedure, and the run that it begins.
#[derive(Clone, Copy)]
struct Procedure {
    name: Name,
    run: u32,
}

/// What the lines so far say of names.
#[derive(Drop)]
pub struct Names {
    alloc: Global,
    pub symbols: Symbols,
    /// The structure whose fields come.
    structure: Option<usize>,
    segment: Option<usize>,
    pub entry: Option<Name>,
    /// The numbers that constants stand for, in the order of their lines; `None` if one is no number, or not yet.
    pub constants: Vec<Option<i64>>,
    /// Where the next byte stands.
    at: Location,
    /// How many labels `@@` came so far.
    anonymous: u32,
    /// Whether procedures are far if nothing says otherwise.
    is_far: bool,
    /// The procedure around the line.
    procedure: Option<Procedure>,
    /// Whether .STARTUP has come.
    pub has_startup: bool,
}

impl Names {
    /// What is known before the first line.
    pub fn new(alloc: Global) -> Names {
        Names {
            alloc,
            symbols: Symbols::new(alloc),
            structure: None,
            segment: None,
            entry: None,
            constants: Vec::new(alloc),
            at: Location { run: 0, offset: 0 },
            anonymous: 0,
            is_far: false,
            procedure: None,
            has_startup: false,
        }
    }

    /// Whether the end of a structure hasn't come.
    pub fn is_in_structure(&self) -> bool {
        self.structure.is_some()
    }

    /// What the expressions of a line are read in the light of.
    pub fn light(&self) -> Light<'_> {
        Light {
            alloc: self.alloc,
            symbols: &self.symbols,
            at: Some(self.at),
            constant: None,
            anonymous: self.anonymous,
            procedure: self.procedure.map(|procedure| procedure.name),
        }
    }

    /// Takes in a line; says whether the second pass is to have it.
    pub fn take(&mut self, line: &[u8], tokens: &[Token]) -> Result<bool, Stop> {
        let (label, tokens) = split_label(tokens);
        let statement = statement_of(tokens);
        if let Some(number) = self.structure {
            self.take_field(number, line, statement)?;
            return Ok(false);
        }
        if let Some(name) = label {
            self.define_label(name)?;
        }
        self.define(statement)?;
        Ok(self.structure.is_none())
    }

    /// Begins a place from which on locations are counted anew.
    fn begin_run(&mut self) {
        self.at = Location {
            run: self.at.run.saturating_add(1),
            offset: 0,
        };
    }

    /// Goes on by so many bytes, or by some number that isn't known.
    fn advance(&mut self, count: Option<u32>, size: u32) {
        let bytes = count.and_then(|count| count.checked_mul(size));
        match bytes.and_then(|bytes| self.at.offset.checked_add(bytes)) {
            Some(offset) => self.at.offset = offset,
            None => self.begin_run(),
        }
    }

    /// Gives a label its meaning.
    fn define_label(&mut self, name: Name) -> Result<(), Stop> {
        if name.is(b"@@") {
            self.anonymous = self.anonymous.saturating_add(1);
            return Ok(());
        }
        self.current_segment()?;
        let name = self.label_name(name)?;
        self.symbols.define(name, Symbol::Near(Some(self.at)))
    }

    /// The name by which a label that stands here is known: one of its procedure's own, if there is another one of this
    /// name before the procedure.
    fn label_name(&mut self, name: Name) -> Result<Name, Stop> {
        let (Some(procedure), Some(Symbol::Near(Some(at)))) = (
            self.procedure,
            self.symbols.get(name),
        ) else {
            return Ok(name);
        };
        if at.run >= procedure.run {
            return Ok(name);
        }
        self.symbols.has_locals = true;
        Ok(local_name(self.alloc, procedure.name, name)?.ok_or(Reason::LongName)?)
    }

    /// Gives the names of a statement their meaning.
    fn define(&mut self, statement: Statement<'_, '_>) -> Result<(), Stop> {
        match statement {
            Statement::Segment(name, rest) => self.define_segment(name, rest)?,
            Statement::Group(name, rest) => self.define_group(name, rest)?,
            Statement::Procedure(name, rest) => self.define_procedure(name, rest)?,
            Statement::EndProcedure => self.procedure = None,
            Statement::Label(name, class) => self.define_labelled(name, class)?,
            Statement::Constant(name, tokens, is_again) => {
                self.define_constant(name, tokens, is_again)?;
            }
            Statement::Data(name, width, tokens) => self.define_data(name, width, tokens)?,
            Statement::Instance(name, structure, times, _) => {
                self.define_instance(name, structure, times)?;
            }
            Statement::Model(model) => self.define_model(model),
            Statement::End(entry) => self.entry = entry,
            Statement::Structure(name) => {
                self.structure = Some(self.symbols.begin_structure(self.alloc, name)?);
            }
            Statement::Origin(tokens) => self.define_origin(tokens)?,
            Statement::Instruction(..) | Statement::Startup | Statement::Exit(_) => {
                self.has_startup = self.has_startup || matches!(statement, Statement::Startup);
                self.current_segment()?;
                self.begin_run();
            }
            Statement::EndSegment => self.begin_run(),
            _ => {}
        }
        Ok(())
    }

    /// Takes in which memory model the source names.
    fn define_model(&mut self, model: Option<Name>) {
        self.symbols.is_loose = false;
        if let Some(model) = model {
            self.symbols.segments.is_tiny = model.is(b"TINY");
            self.is_far = model.is(b"MEDIUM") || model.is(b"LARGE") || model.is(b"HUGE");
        }
    }

    /// The number of the segment that is open; the code's is opened if none is.
    fn current_segment(&mut self) -> Result<usize, Stop> {
        if let Some(segment) = self.segment {
            return Ok(segment);
        }
        let segment = self.symbols.open(code_name()?)?;
        self.segment = Some(segment);
        Ok(segment)
    }

    /// Opens a segment, perhaps at a paragraph of its own.
    fn define_segment(&mut self, name: Name, rest: &[Token]) -> Result<(), Stop> {
        let number = self.symbols.open(segment_name(name)?)?;
        self.segment = Some(number);
        self.symbols.is_loose = false;
        self.begin_run();
        if let [Token::Word(word), paragraph @ ..] = rest
            && word.is(b"AT")
        {
            let value = value_of(self.light(), paragraph)?;
            match value.constant().ok_or(Reason::NotConstant)? {
                paragraph @ 0..=0xFFFF => self.symbols.segments.place(number, paragraph as u16),
                _ => return Err(Stop::Refused(Reason::Overflow)),
            }
        }
        Ok(())
    }

    /// Has the segments of a list stand after one another, so that one paragraph serves all of them.
    fn define_group(&mut self, name: Name, list: &[Token]) -> Result<(), Stop> {
        let first = first_word(list).ok_or(Reason::UnknownStatement)?;
        let leader = match self.symbols.group(name)? {
            Some(leader) => leader,
            None => self.symbols.open(first)?,
        };
        let mut left = Some(list);
        while let Some(list) = left {
            let (item, after) = split_item(list);
            let member = first_word(item).ok_or(Reason::UnknownStatement)?;
            let number = self.symbols.open(member)?;
            self.symbols.segments.join(number, leader);
            left = after;
        }
        self.symbols.set(name, Symbol::Segment(leader))
    }

    /// Takes in an ORG: at 100h, before a second segment is opened, it makes the program one of a single segment.
    fn define_origin(&mut self, tokens: &[Token]) -> Result<(), Stop> {
        self.current_segment()?;
        let value = value_of(self.light(), tokens)?;
        if value.constant() == Some(0x100) && self.symbols.segments.len() == 1 {
            self.symbols.segments.is_tiny = true;
        }
        self.begin_run();
        Ok(())
    }

    /// Gives a procedure its meaning.
    fn define_procedure(&mut self, name: Name, rest: &[Token]) -> Result<(), Stop> {
        self.current_segment()?;
        let is_near = rest.first().is_some_and(|first| first.is_word(b"NEAR"));
        let symbol = if has_far(rest) || self.is_far && !is_near {
            Symbol::Far
        } else {
            Symbol::Near(None)
        };
        self.symbols.define(name, symbol)?;
        self.begin_run();
        self.procedure = Some(Procedure {
            name,
            run: self.at.run,
        });
        Ok(())
    }

    /// Gives a name before LABEL its meaning.
    fn define_labelled(&mut self, name: Name, class: Option<Type>) -> Result<(), Stop> {
        self.current_segment()?;
        let symbol = match class {
            Some(Type::Data(width)) => {
                return self.define_variable(name, Some(width), 0, Some(Count::ONE));
            }
            Some(Type::Far) => Symbol::Far,
            Some(Type::Near) | None => Symbol::Near(Some(self.at)),
        };
        self.symbols.define(name, symbol)
    }

    /// Gives the name of data that stand here its meaning.
    fn define_variable(
        &mut self,
        name: Name,
        width: Option<Width>,
        size: u32,
        count: Option<Count>,
    ) -> Result<(), Stop> {
        let variable = Variable {
            width,
            size,
            count,
            segment: self.current_segment()?,
            at: Some(self.at),
        };
        self.symbols.define(name, Symbol::Variable(variable))
    }

    /// Gives a constant its value, if it is known already.
    fn define_constant(
        &mut self,
        name: Name,
        tokens: &[Token],
        is_again: bool,
    ) -> Result<(), Stop> {
        let light = Light {
            constant: Some(self.constants.len()),
            ..self.light()
        };
        let value = known(value_of(light, tokens))?;
        self.constants
            .push(value.and_then(|value| value.constant()))?;
        match value {
            Some(value) => self.symbols.define_constant(name, value, is_again),
            None => Ok(()),
        }
    }

    /// Gives the name of data its width and its count.
    fn define_data(
        &mut self,
        name: Option<Name>,
        width: Width,
        tokens: &[Token],
    ) -> Result<(), Stop> {
        self.current_segment()?;
        let count = known(count_of_items(self.light(), width, tokens))?;
        if let Some(name) = name {
            self.define_variable(name, Some(width), 0, count)?;
        }
        self.advance(count.map(|count| count.all), width.bytes());
        Ok(())
    }

    /// Gives the name of a structure's instances its meaning.
    fn define_instance(
        &mut self,
        name: Option<Name>,
        structure: Name,
        times: &[Token],
    ) -> Result<(), Stop> {
        self.current_segment()?;
        let number = self.symbols.structure(structure)?;
        let size = self.symbols.size_of(number);
        let times = known(instance_count(self.light(), times))?;
        if let Some(name) = name {
            let count = times.map(|times| Count {
                all: times,
                first: times,
            });
            self.define_variable(name, None, size, count)?;
        }
        self.advance(times, size);
        Ok(())
    }

    /// Takes in a line of a structure: a field, or its end.
    fn take_field(
        &mut self,
        number: usize,
        line: &[u8],
        statement: Statement<'_, '_>,
    ) -> Result<(), Stop> {
        match statement {
            Statement::EndSegment => {
                self.structure = None;
                Ok(())
            }
            Statement::Nothing => Ok(()),
            Statement::Data(name, width, tokens) => {
                let count = count_of_items(self.light(), width, tokens)?.all;
                let items = Vec::from_slice(self.alloc, after_words(line, name.is_some()))?;
                let field = Field {
                    width,
                    count,
                    items,
                };
                let offset = self.symbols.add_field(number, field)?;
                let Some(name) = name else {
                    return Ok(());
                };
                let value = Value {
                    width: Some(width),
                    ..Value::number(offset as i64)
                };
                self.symbols.set_constant(name, value, false)
            }
            _ => Err(Stop::Refused(Reason::UnknownStatement)),
        }
    }
}

/// What a line tells, or `None` if that isn't known yet; fails for want of memory alone.
fn known<T: Copy>(found: Result<T, Stop>) -> Result<Option<T>, Stop> {
    match found {
        Ok(value) => Ok(Some(value)),
        Err(Stop::Memory) => Err(Stop::Memory),
        Err(Stop::Refused(_)) => Ok(None),
    }
}

/// What follows the first word of a line, or its first two.
fn after_words(line: &[u8], has_name: bool) -> &[u8] {
    let Some((_, after)) = split_word(line) else {
        return line;
    };
    match split_word(after) {
        Some((_, later)) if has_name => later,
        _ => after,
    }
}

/// The name of the segment that a directive opens.
pub fn segment_name(name: Name) -> Result<Name, Stop> {
    match name.text() {
        b".CODE" => code_name(),
        b".DATA" | b".DATA?" | b".CONST" | b".FARDATA" => {
            Ok(Name::of(b"_DATA").ok_or(Reason::LongName)?)
        }
        _ => Ok(name),
    }
}

/// The name of the segment of code.
fn code_name() -> Result<Name, Stop> {
    Ok(Name::of(b"_TEXT").ok_or(Reason::LongName)?)
}
