//! Reading statements.
ghost use Rattle.std.specs.Prelude.{◌≡◌, ◌+◌, ◌<◌, ◌≤◌, [], ◌∷◌, drop, length, IfSome, IfNone};
ghost use Rattle.assembler_lexeme.specs.Faults.{Gives};
ghost use Rattle.assembler_syntax.specs.StatementSteps.{data_of, directive_of, ends_of, equ_of, instruction_of, is_at, is_directive, is_equ, keyword_statement, led_statement, onto_prefixes, org_of, prefixed_statement, prefixes_of, segment_at, segment_by, segment_of, segment_token, statement_after, statement_of, word_statement};

use crate::part::{is_colon, split};
use crate::read::expression::read_constant;
use crate::read::item::read_items;
use crate::read::operand::read_operands;
use crate::statement::{DataWidth, Instruction, Statement};
use assembler_lexeme::fault::{SyntaxError, SyntaxFault};
use assembler_lexeme::name::Name;
use assembler_lexeme::sequence::Sequence;
use assembler_lexeme::token::Token;
use dialect::keyword::Keyword;
use dialect::meaning::Meaning;
use dialect::mnemonic::Mnemonic;
use dialect::register::Register;
use isa::form::Prefix;
use isa::register::SegmentRegister;
use std::alloc::Global;

/// Reads what stands after a line's label: nothing, `name EQU value`, another directive, or an instruction with its
/// prefixes.
#[tactic(auto, unfolding(crate::specs::StatementSteps::statement_of))]
pub(crate) fn read_statement(alloc: Global, tokens: &[Token]) -> Result<Statement, SyntaxError>
    ensures { Gives result (statement_of tokens.now) }
{
    match tokens {
        [] => Ok(Statement::Empty),
        [first, second, rest @ ..] if is_equ(second) => read_equ(alloc, first, rest),
        _ => prefixed_statement(alloc, tokens),
    }
}

/// Whether the token is AT, which stands between the name of a SEGMENT and its paragraph.
fn is_at(token: &Token) -> bool
    ensures { result ≡ is_at token.now }
{
    matches!(token, Token::Word(Meaning::Keyword(Keyword::At)))
}

/// Whether the token is EQU: as a line's second token it makes the line the definition of a constant.
fn is_equ(token: &Token) -> bool
    ensures { result ≡ is_equ token.now }
{
    matches!(token, Token::Word(Meaning::Keyword(Keyword::Equ)))
}

/// Reads `name EQU value`, from the tokens before and after EQU. A bad line if no name of the source's own stands
/// before it.
#[tactic(auto, unfolding(crate::specs::StatementSteps::equ_of))]
fn read_equ(alloc: Global, first: &Token, value: &[Token]) -> Result<Statement, SyntaxError>
    ensures { Gives result (equ_of first.now value.now) }
{
    match first {
        Token::Named(name) => Ok(Statement::Equ(*name, read_constant(alloc, value)?)),
        _ => Err(SyntaxError::Fault(SyntaxFault::BadLine)),
    }
}

/// Reads a statement other than EQU: first its prefixes, such as REP or `ES:`, if it has any, and then the word that
/// leads it.
#[tactic(auto, unfolding(crate::specs::StatementSteps::prefixed_statement))]
fn prefixed_statement(alloc: Global, tokens: &[Token]) -> Result<Statement, SyntaxError>
    ensures { Gives result (prefixed_statement tokens.now) }
{
    let mut prefixes = Sequence::new(alloc);
    let mut rest = tokens;
    while let Some((prefix, size)) = prefix_of(rest) {
        prefixes.push(prefix)?;
        rest = &rest[size..];
    }
    statement_after(alloc, prefixes, rest)
}

/// The prefix at the front of a statement's tokens, and how many tokens it takes. `None` once no further prefix comes
/// before the mnemonic.
fn prefix_of(tokens: &[Token]) -> Option<(Prefix, usize)>
    ensures some { IfSome result (λ p. prefixes_of tokens.now ≡ onto_prefixes p.0 (prefixes_of (drop p.1 tokens.now))) }
    ensures size { IfSome result (λ p. 0 < p.1) }
    ensures within { IfSome result (λ p. p.1 ≤ length tokens.now) }
    ensures none { IfNone result (prefixes_of tokens.now ≡ ([], tokens.now)) }
{
    match tokens {
        [] => None,
        [first, rest @ ..] => prefix_by(first, rest),
    }
}

/// The prefix that begins with the token `first`, before `rest`, and how many tokens it takes: LOCK or a REP takes one,
/// a segment override two. `None` if it is no prefix.
fn prefix_by(first: &Token, rest: &[Token]) -> Option<(Prefix, usize)>
    ensures some { IfSome result (λ p. prefixes_of (first.now ∷ rest.now)
        ≡ onto_prefixes p.0 (prefixes_of (drop p.1 (first.now ∷ rest.now)))) }
    ensures size { IfSome result (λ p. 0 < p.1) }
    ensures within { IfSome result (λ p. p.1 ≤ 1 + length rest.now) }
    ensures none { IfNone result (prefixes_of (first.now ∷ rest.now) ≡ ([], first.now ∷ rest.now)) }
{
    match first {
        Token::Word(Meaning::Prefix(prefix)) => Some((*prefix, 1)),
        Token::Word(Meaning::Register(Register::Segment(segment))) => override_by(*segment, rest),
        _ => None,
    }
}

/// The segment override of a register that stands before the tokens `rest`, if they begin with its colon, and the two
/// tokens that it takes. `None` without the colon.
fn override_by(segment: SegmentRegister, rest: &[Token]) -> Option<(Prefix, usize)>
    ensures some { IfSome result (λ p. prefixes_of (segment_token segment ∷ rest.now)
        ≡ onto_prefixes p.0 (prefixes_of (drop p.1 (segment_token segment ∷ rest.now)))) }
    ensures size { IfSome result (λ p. 0 < p.1) }
    ensures within { IfSome result (λ p. p.1 ≤ 1 + length rest.now) }
    ensures none { IfNone result (prefixes_of (segment_token segment ∷ rest.now)
        ≡ ([], segment_token segment ∷ rest.now)) }
{
    match rest {
        [colon, ..] if is_colon(colon) => Some((Prefix::Segment(segment), 2)),
        _ => None,
    }
}

/// Reads a statement after its prefixes, by the word that leads it. A name of the source's own there is an unknown
/// name; anything else is a bad line.
#[tactic(auto, unfolding(crate::specs::StatementSteps::statement_after))]
fn statement_after(
    alloc: Global,
    prefixes: Sequence<Prefix>,
    tokens: &[Token],
) -> Result<Statement, SyntaxError>
    ensures { Gives result (statement_after prefixes tokens.now) }
{
    match split(tokens) {
        Some((Token::Word(meaning), rest)) => word_statement(alloc, prefixes, *meaning, rest),
        Some((Token::Named(_), _)) => Err(SyntaxError::Fault(SyntaxFault::UnknownName)),
        _ => Err(SyntaxError::Fault(SyntaxFault::BadLine)),
    }
}

/// Reads a statement after its prefixes and the word that leads it, which means `meaning`: an instruction by a
/// mnemonic, or by a keyword a directive, which takes no prefixes. Any other word is an unknown name.
fn word_statement(
    alloc: Global,
    prefixes: Sequence<Prefix>,
    meaning: Meaning,
    rest: &[Token],
) -> Result<Statement, SyntaxError>
    ensures { Gives result (word_statement prefixes meaning rest.now) }
{
    match meaning {
        Meaning::Mnemonic(mnemonic) => read_instruction(alloc, prefixes, mnemonic, rest),
        Meaning::Keyword(keyword) if prefixes.is_empty() => read_directive(alloc, keyword, rest),
        Meaning::Keyword(keyword) if is_directive(keyword) => {
            Err(SyntaxError::Fault(SyntaxFault::BadLine))
        }
        _ => Err(SyntaxError::Fault(SyntaxFault::UnknownName)),
    }
}

/// Whether the keyword leads a statement; with prefixes before it the line is a bad one, while any other keyword there
/// is an unknown name.
fn is_directive(keyword: Keyword) -> bool
    ensures { result ≡ is_directive keyword }
{
    matches!(
        keyword,
        Keyword::Segment | Keyword::Ends | Keyword::Org | Keyword::Db | Keyword::Dw | Keyword::Dd
    )
}

/// Reads the operands after an instruction's mnemonic, and puts the instruction together with its prefixes.
#[tactic(auto, unfolding(crate::specs::StatementSteps::instruction_of))]
fn read_instruction(
    alloc: Global,
    prefixes: Sequence<Prefix>,
    mnemonic: Mnemonic,
    tokens: &[Token],
) -> Result<Statement, SyntaxError>
    ensures { Gives result (instruction_of prefixes mnemonic tokens.now) }
{
    let operands = read_operands(alloc, tokens)?;
    Ok(Statement::Instruction(Instruction {
        prefixes,
        mnemonic,
        operands,
    }))
}

/// Reads what follows the keyword that leads a directive: SEGMENT, ENDS, ORG, DB, DW or DD. Any other keyword is an
/// unknown name as a statement.
#[tactic(auto, unfolding(crate::specs::StatementSteps::directive_of))]
fn read_directive(
    alloc: Global,
    keyword: Keyword,
    tokens: &[Token],
) -> Result<Statement, SyntaxError>
    ensures { Gives result (directive_of keyword tokens.now) }
{
    match keyword {
        Keyword::Segment => read_segment(alloc, tokens),
        Keyword::Ends => read_ends(tokens),
        Keyword::Org => read_org(alloc, tokens),
        Keyword::Db => read_data(alloc, DataWidth::Byte, tokens),
        Keyword::Dw => read_data(alloc, DataWidth::Word, tokens),
        Keyword::Dd => read_data(alloc, DataWidth::Double, tokens),
        _ => Err(SyntaxError::Fault(SyntaxFault::UnknownName)),
    }
}

/// Reads what follows SEGMENT: a name, AT and a paragraph. A bad line if AT isn't there.
#[tactic(auto, unfolding(crate::specs::StatementSteps::segment_of))]
fn read_segment(alloc: Global, tokens: &[Token]) -> Result<Statement, SyntaxError>
    ensures { Gives result (segment_of tokens.now) }
{
    match tokens {
        [name, at, paragraph @ ..] if is_at(at) => segment_by(alloc, name, paragraph),
        _ => Err(SyntaxError::Fault(SyntaxFault::BadLine)),
    }
}

/// Reads the SEGMENT of the name in the token `name`. A bad line if the token is no name of the source's own.
fn segment_by(alloc: Global, name: &Token, paragraph: &[Token]) -> Result<Statement, SyntaxError>
    ensures { Gives result (segment_by name.now paragraph.now) }
{
    match name {
        Token::Named(name) => segment_at(alloc, *name, paragraph),
        _ => Err(SyntaxError::Fault(SyntaxFault::BadLine)),
    }
}

/// Reads the paragraph of a SEGMENT of this name, which must be a constant.
fn segment_at(alloc: Global, name: Name, paragraph: &[Token]) -> Result<Statement, SyntaxError>
    ensures { Gives result (segment_at name paragraph.now) }
{
    Ok(Statement::Segment(name, read_constant(alloc, paragraph)?))
}

/// Reads what follows ENDS: nothing, or the line is a bad one.
#[tactic(auto, unfolding(crate::specs::StatementSteps::ends_of))]
fn read_ends(tokens: &[Token]) -> Result<Statement, SyntaxError>
    ensures { Gives result (ends_of tokens.now) }
{
    match tokens {
        [] => Ok(Statement::Ends),
        _ => Err(SyntaxError::Fault(SyntaxFault::BadLine)),
    }
}

/// Reads what follows ORG: the offset at which the next line stands, a constant.
#[tactic(auto, unfolding(crate::specs::StatementSteps::org_of))]
fn read_org(alloc: Global, tokens: &[Token]) -> Result<Statement, SyntaxError>
    ensures { Gives result (org_of tokens.now) }
{
    Ok(Statement::Org(read_constant(alloc, tokens)?))
}

/// Reads what follows DB, DW or DD: the items that the line places, as numbers of this width.
#[tactic(auto, unfolding(crate::specs::StatementSteps::data_of))]
fn read_data(alloc: Global, width: DataWidth, tokens: &[Token]) -> Result<Statement, SyntaxError>
    ensures { Gives result (data_of width tokens.now) }
{
    Ok(Statement::Data(width, read_items(alloc, width, tokens)?))
}
