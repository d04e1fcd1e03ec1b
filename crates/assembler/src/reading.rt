//! The first pass: what each line says, where it stands, and what the names stand for.
ghost use Rattle.std.specs.Prelude.{◌≡◌, ◌≤◌, ◌+◌, ◌^◌, ◌++◌, [], ◌∷◌, None, true, length, IfOk, IfErr, IfSome, OnOk};
ghost use Rattle.std.specs.Option.{option_map};
ghost use Rattle.std.specs.Box.{box_value};
ghost use Rattle.isa.specs.Encoding.{IsForm};
ghost use Rattle.assembler.specs.FirstFault.{IsFirst};
ghost use Rattle.assembler.specs.FirstPass.{AddsLine, AddsText, IsNewDefinition, KeepsText, StopsAt, StopsText, definition_names, offset_of, located_of, size_limit};
ghost use Rattle.assembler.specs.Gives.{source_limit};
ghost use Rattle.assembler.specs.KeptLines.{Reads};
ghost use Rattle.assembler.specs.Placement.{content_of};
ghost use Rattle.assembler.specs.LocatedLines.{IsFormOf, early_fault, label_definition, statement_definition};
ghost use Rattle.assembler_meaning.specs.Values.{AreSmall, term_limit};
ghost use Rattle.assembler_syntax.specs.Weights.{IsWithin, are_terms_within};

use crate::early::{Before, early_fault, location_after, size_of, statement_form};
use crate::fault::{AsmFault, LineStop, SourceFault};
use crate::kept_line::{Content, KeptLine};
use assembler_lexeme::fault::SyntaxError;
use assembler_lexeme::name::Name;
use assembler_meaning::constant::constant_of;
use assembler_meaning::seed::SourceSeed;
use assembler_meaning::symbol::{Location, Symbol, Symbols};
use assembler_syntax::read::read_line;
use assembler_syntax::statement::{Line, Statement};
use board_types::text::next_line;
use indexmap::IndexMap;
use isa::form::Form;
use std::alloc::{AllocError, Global};
use std::boxed::Box;

/// What the first pass leaves of a source to the second one and to the listing: a copy of it, its lines and its names.
#[derive(Drop)]
pub(crate) struct Reading {
    pub(crate) source: Vec<u8>,
    pub(crate) located_lines: Vec<KeptLine>,
    pub(crate) symbols: Symbols,
}

/// Makes the first pass over a source: reads each line, finds where it stands and how many bytes it has, and defines
/// its names. Gives what the second pass needs, or the first fault.
pub(crate) fn read_source(alloc: Global, source: &[u8]) -> Result<Reading, AsmFault>
    requires within { length source.now ≤ source_limit }
    ensures source { IfOk result (λ reading. reading.source.items ≡ source.now) }
    ensures reads { IfOk result (λ reading. Reads source.now reading.symbols.entries reading.located_lines.items) }
    ensures fault { IfErr result (IsFirst source.now) }
{
    let Ok(copy) = Vec::from_slice(alloc, source) else {
        return Err(AsmFault::Memory);
    };
    let mut located_lines = Vec::new(alloc);
    let mut state = Before {
        location: None,
        symbols: IndexMap::with_hasher(alloc, SourceSeed::of(source)),
    };
    let mut number = 0;
    let mut rest = source;
    while let Some((text, after)) = next_line(rest) {
        number += 1;
        let start = source.len() - rest.len();
        add_text(alloc, &mut state, &mut located_lines, start, text, number)?;
        rest = after;
    }
    Ok(Reading {
        source: copy,
        located_lines,
        symbols: state.symbols,
    })
}

/// Takes the line with this number, whose text begins at `start` in the source, into the first pass: reads it and adds
/// it to those read so far, or gives its fault with the number.
fn add_text(
    alloc: Global,
    state: &mut Before,
    located_lines: &mut Vec<KeptLine>,
    start: usize,
    text: &[u8],
    number: u32,
) -> Result<(), AsmFault>
    requires place { start + length text.now ≤ source_limit }
    requires small { AreSmall state.old.symbols.entries }
    requires room { offset_of state.old.location + size_limit (length text.now) ≤ 2 ^ 40 }
    ensures ok { OnOk result (KeepsText state.old state.new start text.now located_lines.old.items located_lines.new.items) }
    ensures err { IfErr result (StopsAt state.old text.now number) }
{
    match read_located_line(alloc, state, start, text) {
        Ok(located) => Ok(push_located(located_lines, located)?),
        Err(LineStop::Fault(fault)) => Err(AsmFault::InLine(fault, number)),
        Err(LineStop::Memory) => Err(AsmFault::Memory),
    }
}

/// Adds a line to those that the first pass has read. Fails only for want of memory.
fn push_located(located_lines: &mut Vec<KeptLine>, located: KeptLine) -> Result<(), AllocError>
    ensures { OnOk result (located_lines.new.items ≡ located_lines.old.items ++ located ∷ []) }
{
    Ok(located_lines.push(located)?)
}

/// Reads a line in the light of those before it, defines its names, and moves the location on past its bytes; or gives
/// the fault for which the first pass refuses it.
fn read_located_line(
    alloc: Global,
    state: &mut Before,
    start: usize,
    text: &[u8],
) -> Result<KeptLine, LineStop>
    requires place { start + length text.now ≤ source_limit }
    requires small { AreSmall state.old.symbols.entries }
    requires room { offset_of state.old.location + size_limit (length text.now) ≤ 2 ^ 40 }
    ensures ok { IfOk result (AddsText state.old state.new start text.now) }
    ensures err { IfErr result (StopsText state.old text.now) }
{
    let line = match read_line(alloc, text) {
        Ok(line) => line,
        Err(SyntaxError::Fault(fault)) => return Err(LineStop::Fault(SourceFault::of_line(fault))),
        Err(SyntaxError::Memory) => return Err(LineStop::Memory),
    };
    let form = statement_form(&state.symbols, &line.statement);
    if let Some(fault) = early_fault(state, &line, form) {
        return Err(LineStop::Fault(fault));
    }
    match add_line(alloc, state, start, text.len(), line, form) {
        Ok(located) => Ok(located),
        Err(_) => Err(LineStop::Memory),
    }
}

/// Defines the names of a line in which the first pass has found no fault, moves the location on, and gives what is
/// saved of the line for the second pass. Its text begins at `start` in the source and has `length` bytes.
fn add_line(
    alloc: Global,
    state: &mut Before,
    start: usize,
    length: usize,
    line: Line,
    form: Option<Form>,
) -> Result<KeptLine, AllocError>
    requires place { start + length ≤ source_limit }
    requires small { AreSmall state.old.symbols.entries }
    requires room { offset_of state.old.location + size_limit length ≤ 2 ^ 40 }
    requires within { IsWithin length line.statement }
    requires chosen { IsFormOf state.old.symbols.entries line.statement form }
    requires form { IfSome form IsForm }
    requires clean { early_fault state.old.symbols.entries state.old.location line form ≡ None }
    ensures { IfOk result (AddsLine state.old state.new start length
        (located_of state.old.symbols.entries state.old.location line form)) }
{
    let location = state.location;
    let size = size_of(&state.symbols, &line.statement, form);
    let next = location_after(state, &line.statement, size);
    let has_label = line.label.is_some();
    let label = label_definition(location, line.label);
    let constant = statement_definition(&state.symbols, &line.statement);
    define(&mut state.symbols, label)?;
    define(&mut state.symbols, constant)?;
    state.location = next;
    let content = kept(alloc, line.statement, form)?;
    Ok(KeptLine {
        start: start as u32,
        length: length as u32,
        has_label,
        location,
        size,
        content,
    })
}

/// What a line's label defines: its name, for the place of the byte that follows it. `None` if the line has no label or
/// no segment is open.
fn label_definition(location: Option<Location>, label: Option<Name>) -> Option<(Name, Symbol)>
    ensures { definition_names result ≡ label_definition location label }
{
    match (location, label) {
        (Some(location), Some(label)) => Some((label, Symbol::Label(location))),
        _ => None,
    }
}

/// What SEGMENT or EQU defines: its name, for its constant. `None` for any other statement.
fn statement_definition(symbols: &Symbols, statement: &Statement) -> Option<(Name, Symbol)>
    requires small { AreSmall symbols.now.entries }
    requires short { are_terms_within term_limit statement.now ≡ true }
    ensures { definition_names result ≡ statement_definition symbols.now.entries statement.now }
{
    match statement {
        Statement::Segment(name, n) | Statement::Equ(name, n) => {
            let number = constant_of(symbols, n)?;
            Some((*name, Symbol::Constant(number)))
        }
        _ => None,
    }
}

/// Adds what a line defines, if anything, to the names of the source; the name is new, since a line that defines one
/// again is refused before. Fails only for want of memory.
fn define(symbols: &mut Symbols, definition: Option<(Name, Symbol)>) -> Result<(), AllocError>
    requires { IsNewDefinition symbols.old.entries definition }
    ensures { OnOk result (symbols.new.entries ≡ symbols.old.entries ++ definition_names definition) }
{
    let Some((name, symbol)) = definition else {
        return Ok(());
    };
    symbols.insert(name, symbol)?;
    Ok(())
}

/// What the second pass needs of a statement to make its bytes: a data line's items, or an instruction with its form.
/// `None` if the statement places none.
fn kept(
    alloc: Global,
    statement: Statement,
    form: Option<Form>,
) -> Result<Option<Box<Content>>, AllocError>
    ensures { IfOk result (λ content. option_map box_value content ≡ content_of statement form) }
{
    match (statement, form) {
        (Statement::Data(width, items), _) => {
            Ok(Some(Box::new(alloc, Content::Data(width, items))?))
        }
        (Statement::Instruction(instruction), Some(form)) => {
            Ok(Some(Box::new(alloc, Content::Code(form, instruction))?))
        }
        _ => Ok(None),
    }
}
