//! Segments and names: what the lines before a line leave to it, and the faults that a line has by them.
ghost use Rattle.std.specs.Prelude.{◌≡◌, ◌≤◌, ◌<◌, ◌+◌, ◌^◌, false, true, pos, IfSome};
ghost use Rattle.std.specs.Option.{option_map, option_map_or};
ghost use Rattle.isa.specs.Encoding.{IsForm};
ghost use Rattle.assembler_meaning.specs.Data.{natural, is_other};
ghost use Rattle.assembler.specs.FirstPass.{offset_of, size_limit};
ghost use Rattle.assembler.specs.LocatedLines.{IsFormOf, defines_again, early_fault, has_unknown_constant, has_wrong_constant, is_same, lacks_form, opens_within, size_of, location_after, stands_outside, statement_name, wants_segment};
ghost use Rattle.assembler_meaning.specs.Values.{is_defined, AreSmall, IsShort, constant_of, term_limit};
ghost use Rattle.assembler_syntax.specs.Weights.{are_terms_within, statement_weight};

use crate::fault::SourceFault;
use assembler_lexeme::name::Name;
use assembler_meaning::constant::{constant_of, is_out_of_bounds};
use assembler_meaning::data::{data_size, has_unknown_count, has_wrong_count};
use assembler_meaning::instruction::{form_of, instruction_size};
use assembler_meaning::symbol::{Location, Symbols, is_defined};
use assembler_syntax::expression::Expression;
use assembler_syntax::statement::{Line, Statement};
use isa::form::Form;

/// The greatest paragraph, and the greatest location that ORG sets.
const WORD_LIMIT: i64 = 65_535;

/// The least number that EQU takes.
const EQU_LEAST: i64 = -2_147_483_648;

/// The greatest number that EQU takes.
const EQU_GREATEST: i64 = 4_294_967_295;

/// What the lines before a line leave to it, while the first pass goes through a source: where the next byte goes, and
/// the names defined so far.
#[derive(Drop)]
pub(crate) struct Before {
    /// Where the next byte goes, if a segment is open.
    pub(crate) location: Option<Location>,
    pub(crate) symbols: Symbols,
}

/// The fault that the first pass finds in a line in the light of those before it: of several the one with the least
/// number; `None` if the line is taken. `form` is what the table gives the line's instruction.
#[tactic(auto, unfolding(crate::specs::LocatedLines::early_fault))]
pub(crate) fn early_fault(state: &Before, line: &Line, form: Option<Form>) -> Option<SourceFault>
    requires small { AreSmall state.now.symbols.entries }
    requires short { are_terms_within term_limit line.now.statement ≡ true }
    ensures { result ≡ early_fault state.now.symbols.entries state.now.location line.now form }
{
    if opens_within(state.location, &line.statement)
        || has_wrong_constant(&state.symbols, &line.statement)
    {
        return Some(SourceFault::BadLine);
    }
    if has_unknown_constant(&state.symbols, &line.statement) {
        return Some(SourceFault::UnknownName);
    }
    if lacks_form(&line.statement, form) {
        return Some(SourceFault::BadForm);
    }
    if defines_again(&state.symbols, line) {
        return Some(SourceFault::TwiceDefined);
    }
    if stands_outside(state.location, line) {
        return Some(SourceFault::NoSegment);
    }
    None
}

/// Whether the statement is a SEGMENT while another one is open, which makes its line a bad one.
fn opens_within(location: Option<Location>, statement: &Statement) -> bool
    ensures { result ≡ opens_within location statement.now }
{
    location.is_some() && matches!(statement, Statement::Segment(_, _))
}

/// Whether a constant of SEGMENT, ORG, EQU or DUP is out of its range, which makes the line a bad one; one that isn't
/// known is judged apart.
fn has_wrong_constant(symbols: &Symbols, statement: &Statement) -> bool
    requires small { AreSmall symbols.now.entries }
    requires short { are_terms_within term_limit statement.now ≡ true }
    ensures { result ≡ has_wrong_constant symbols.now.entries statement.now }
{
    match statement {
        Statement::Segment(_, n) | Statement::Org(n) => is_out_of_bounds(symbols, n, 0, WORD_LIMIT),
        Statement::Equ(_, n) => is_out_of_bounds(symbols, n, EQU_LEAST, EQU_GREATEST),
        Statement::Data(_, items) => has_wrong_count(symbols, items.as_slice()),
        Statement::Empty | Statement::Ends | Statement::Instruction(_) => false,
    }
}

/// Whether what SEGMENT, ORG, EQU or DUP takes isn't a constant by the names of earlier lines, for which the line is
/// refused: the first pass needs its value at once.
fn has_unknown_constant(symbols: &Symbols, statement: &Statement) -> bool
    requires small { AreSmall symbols.now.entries }
    requires short { are_terms_within term_limit statement.now ≡ true }
    ensures { result ≡ has_unknown_constant symbols.now.entries statement.now }
{
    match statement {
        Statement::Segment(_, n) | Statement::Org(n) | Statement::Equ(_, n) => {
            constant_of(symbols, n).is_none()
        }
        Statement::Data(_, items) => has_unknown_count(symbols, items.as_slice()),
        Statement::Empty | Statement::Ends | Statement::Instruction(_) => false,
    }
}

/// Whether the statement is an instruction that no row of the encoding table takes, or with too many prefixes, for
/// which its line is refused.
fn lacks_form(statement: &Statement, form: Option<Form>) -> bool
    ensures { result ≡ lacks_form statement.now form }
{
    matches!(statement, Statement::Instruction(_)) && form.is_none()
}

/// The name that a SEGMENT or EQU defines; `None` for any other statement.
fn statement_name(statement: &Statement) -> Option<Name>
    ensures { result ≡ statement_name statement.now }
{
    match statement {
        Statement::Segment(name, _) | Statement::Equ(name, _) => Some(*name),
        Statement::Empty
        | Statement::Ends
        | Statement::Org(_)
        | Statement::Data(_, _)
        | Statement::Instruction(_) => None,
    }
}

/// Whether the line defines a name that an earlier line has defined, or one name twice, for which it is refused.
fn defines_again(symbols: &Symbols, line: &Line) -> bool
    ensures { result ≡ defines_again symbols.now.entries line.now }
{
    let name = statement_name(&line.statement);
    is_taken(symbols, line.label) || is_taken(symbols, name) || is_same(line.label, name)
}

/// Whether there is a name and an earlier line defines it, so that this line may not.
fn is_taken(symbols: &Symbols, name: Option<Name>) -> bool
    ensures { result ≡ option_map_or (is_defined symbols.now.entries) name false }
{
    match name {
        Some(name) => is_defined(symbols, name),
        None => false,
    }
}

/// Whether a line's label and the name of its SEGMENT or EQU are one name, which the line would thus define twice.
fn is_same(label: Option<Name>, name: Option<Name>) -> bool
    ensures { result ≡ is_same label name }
{
    match (label, name) {
        (Some(label), Some(name)) => label == name,
        _ => false,
    }
}

/// Whether the line needs an open segment, as a label, an instruction and data do, and there is none, for which it is
/// refused.
fn stands_outside(location: Option<Location>, line: &Line) -> bool
    ensures { result ≡ stands_outside location line.now }
{
    location.is_none() && (line.label.is_some() || wants_segment(&line.statement))
}

/// Whether the statement needs an open segment: it places bytes, or is ENDS or ORG.
fn wants_segment(statement: &Statement) -> bool
    ensures { result ≡ wants_segment statement.now }
{
    matches!(
        statement,
        Statement::Ends | Statement::Org(_) | Statement::Data(_, _) | Statement::Instruction(_)
    )
}

/// How many bytes the line places, by which the first pass moves the location on. `form` is what the table gives the
/// line's instruction.
pub(crate) fn size_of(symbols: &Symbols, statement: &Statement, form: Option<Form>) -> u64
    requires small { AreSmall symbols.now.entries }
    requires short { are_terms_within term_limit statement.now ≡ true }
    requires constants { has_wrong_constant symbols.now.entries statement.now ≡ false }
    requires light { statement_weight statement.now ≤ term_limit }
    requires chosen { IsFormOf symbols.now.entries statement.now form }
    ensures value { result ≡ size_of symbols.now.entries statement.now form }
    ensures bound { result ≤ size_limit (statement_weight statement.now) }
{
    match (statement, form) {
        (Statement::Data(width, items), _) => data_size(symbols, *width, items.as_slice()),
        (Statement::Instruction(instruction), Some(form)) => instruction_size(form, instruction),
        _ => 0,
    }
}

/// The form that the encoding table gives the statement in the first pass; `None` if it is no instruction, or one that
/// no row takes.
pub(crate) fn statement_form(symbols: &Symbols, statement: &Statement) -> Option<Form>
    requires small { AreSmall symbols.now.entries }
    requires short { are_terms_within term_limit statement.now ≡ true }
    ensures chosen { IsFormOf symbols.now.entries statement.now result }
    ensures form { IfSome result IsForm }
{
    match statement {
        Statement::Instruction(instruction) => form_of(symbols, instruction),
        _ => None,
    }
}

/// A constant as the paragraph of a SEGMENT or the offset of an ORG; `None` if the expression is no constant.
fn word_of(symbols: &Symbols, expression: &Expression) -> Option<u16>
    requires small { AreSmall symbols.now.entries }
    requires short { IsShort expression.now }
    requires word { is_other (pos 0) (pos 65535) (constant_of symbols.now.entries expression.now) ≡ false }
    ensures { result ≡ option_map natural (constant_of symbols.now.entries expression.now) }
{
    match constant_of(symbols, expression) {
        Some(number) => Some(number as u16),
        None => None,
    }
}

/// Where the next byte goes after the statement, which places `size` bytes; `None` if no segment is open then.
pub(crate) fn location_after(state: &Before, statement: &Statement, size: u64) -> Option<Location>
    requires small { AreSmall state.now.symbols.entries }
    requires short { are_terms_within term_limit statement.now ≡ true }
    requires constants { has_wrong_constant state.now.symbols.entries statement.now ≡ false }
    requires room { offset_of state.now.location + size < 2 ^ 64 }
    ensures value { result ≡ location_after state.now.symbols.entries state.now.location statement.now size }
    ensures grows { offset_of result ≤ offset_of state.now.location + size + 65535 }
{
    match statement {
        Statement::Segment(_, n) => Some(Location {
            segment: word_of(&state.symbols, n)?,
            offset: 0,
        }),
        Statement::Ends => None,
        Statement::Org(n) => {
            let offset = word_of(&state.symbols, n)?;
            let location = state.location?;
            Some(Location {
                segment: location.segment,
                offset: u64::from(offset),
            })
        }
        Statement::Empty
        | Statement::Equ(_, _)
        | Statement::Data(_, _)
        | Statement::Instruction(_) => {
            let location = state.location?;
            Some(Location {
                segment: location.segment,
                offset: location.offset + size,
            })
        }
    }
}
