//! Reading the operands of instructions.
ghost use Rattle.std.specs.Prelude.{◌≡◌, [], ◌∷◌};
ghost use Rattle.std.specs.Option.{option_map};
ghost use Rattle.assembler_lexeme.specs.Faults.{all_of, Gives};
ghost use Rattle.assembler_syntax.specs.PartSteps.{parts, signed_part, signed_parts};
ghost use Rattle.assembler_syntax.specs.OperandSteps.{base_with, after_segment, brackets_by, brackets_of, brackets_view, empty_address, far_label, far_of, far_pointer, far_target, led_operand, memory_in, memory_of, operand_of, operands_of, place_or_value, register_of, short_of, single_label, single_operand, single_register, terms_with, value_of, with_part, with_parts, with_register, with_term};

use crate::expression::{Expression, Term};
use crate::operand::{Address, Operand};
use crate::part::{
    Parts, SignedParts, around, before_last, close_bracket_place, colon_place, is_colon,
    is_open_bracket,
};
use crate::read::expression::{read_expression, read_term};
use assembler_lexeme::fault::{SyntaxError, SyntaxFault};
use assembler_lexeme::sequence::Sequence;
use assembler_lexeme::token::{Punctuator, Token};
use dialect::keyword::Keyword;
use dialect::meaning::Meaning;
use dialect::register::Register;
use dialect::size::Size;
use isa::form::Base;
use isa::register::{SegmentRegister, WordRegister};
use std::alloc::Global;

/// The tokens after the open bracket of an operand in memory, and the segment register before it.
type Brackets<'a, 'b> = (Option<SegmentRegister>, &'a [Token<'b>]);

/// Reads what follows an instruction's mnemonic as its operands: none, or some with commas between them.
#[tactic(auto, unfolding(crate::specs::OperandSteps::operands_of))]
pub(crate) fn read_operands(
    alloc: Global,
    tokens: &[Token],
) -> Result<Sequence<Operand>, SyntaxError>
    ensures { Gives result (operands_of tokens.now) }
{
    if tokens.is_empty() {
        Ok(Sequence::new(alloc))
    } else {
        read_parts(alloc, Parts::of(tokens))
    }
}

/// Reads the parts between commas as an instruction's operands, in order; the first one that is no operand makes the
/// line a bad one.
fn read_parts(alloc: Global, parts: Parts) -> Result<Sequence<Operand>, SyntaxError>
    ensures { Gives result (all_of operand_of parts.entry) }
{
    let mut parts = parts;
    let mut operands = Sequence::new(alloc);
    while let Some(part) = parts.next() {
        let operand = read_operand(alloc, part)?;
        operands.push(operand)?;
    }
    Ok(operands)
}

/// Reads the tokens between two commas as an operand of an instruction; none at all are a bad line.
#[tactic(auto, unfolding(crate::specs::OperandSteps::operand_of))]
fn read_operand(alloc: Global, tokens: &[Token]) -> Result<Operand, SyntaxError>
    ensures { Gives result (operand_of tokens.now) }
{
    match tokens {
        [] => Err(SyntaxError::Fault(SyntaxFault::BadLine)),
        [token] => single_operand(alloc, token, tokens),
        [first, rest @ ..] => led_operand(alloc, first, rest, tokens),
    }
}

/// Reads an operand of one token, `tokens` being only `token`: a register, the `1` of a shift, or else an expression.
fn single_operand(alloc: Global, token: &Token, tokens: &[Token]) -> Result<Operand, SyntaxError>
    requires { tokens.now ≡ token.now ∷ [] }
    ensures { Gives result (single_operand token.now) }
{
    match token {
        Token::Word(Meaning::Register(register)) => Ok(Operand::Register(*register)),
        Token::One => Ok(Operand::One),
        _ => read_value(alloc, tokens),
    }
}

/// Reads an operand of two tokens or more, `tokens` being `first` and `rest`, by what leads it: SHORT, BYTE, WORD or
/// FAR, or else memory without a size, or an expression.
fn led_operand(
    alloc: Global,
    first: &Token,
    rest: &[Token],
    tokens: &[Token],
) -> Result<Operand, SyntaxError>
    requires { tokens.now ≡ first.now ∷ rest.now }
    ensures { Gives result (led_operand first.now rest.now) }
{
    match first {
        Token::Word(Meaning::Keyword(Keyword::Short)) => {
            Ok(Operand::Short(read_expression(alloc, rest)?))
        }
        Token::Word(Meaning::Keyword(Keyword::Byte)) => memory_in(alloc, Size::Byte, rest),
        Token::Word(Meaning::Keyword(Keyword::Word)) => memory_in(alloc, Size::Word, rest),
        Token::Word(Meaning::Keyword(Keyword::Far)) => read_far(alloc, rest),
        _ => place_or_value(alloc, tokens),
    }
}

/// Reads an operand in memory from the tokens after its size word, BYTE or WORD. A bad line if no bracket follows, with
/// or without a segment register.
fn memory_in(alloc: Global, size: Size, tokens: &[Token]) -> Result<Operand, SyntaxError>
    ensures { Gives result (memory_in (Some size) (brackets_of tokens.now)) }
{
    match brackets_of(tokens) {
        Some((segment, inner)) => read_memory(alloc, Some(size), segment, inner),
        None => Err(SyntaxError::Fault(SyntaxFault::BadLine)),
    }
}

/// Reads an operand without a leading word: in memory, without a size, if it begins with a bracket or with a segment
/// register and one; else an expression.
fn place_or_value(alloc: Global, tokens: &[Token]) -> Result<Operand, SyntaxError>
    ensures { Gives result (place_or_value (brackets_of tokens.now) tokens.now) }
{
    match brackets_of(tokens) {
        Some((segment, inner)) => read_memory(alloc, None, segment, inner),
        None => read_value(alloc, tokens),
    }
}

/// Reads an operand that is an expression: an immediate number, a port or a target.
#[tactic(auto, unfolding(crate::specs::OperandSteps::value_of))]
fn read_value(alloc: Global, tokens: &[Token]) -> Result<Operand, SyntaxError>
    ensures { Gives result (value_of tokens.now) }
{
    Ok(Operand::Value(read_expression(alloc, tokens)?))
}

/// Reads a far operand from the tokens after FAR: memory that holds a far address, a segment and an offset with a colon
/// between, or a label.
#[tactic(auto, unfolding(crate::specs::OperandSteps::far_of))]
fn read_far(alloc: Global, tokens: &[Token]) -> Result<Operand, SyntaxError>
    ensures { Gives result (far_of tokens.now) }
{
    if let Some((segment, inner)) = brackets_of(tokens) {
        return read_memory(alloc, Some(Size::Far), segment, inner);
    }
    match around(tokens, colon_place(tokens)) {
        Some((segment, offset)) => far_pointer(alloc, segment, offset),
        None => far_label(tokens),
    }
}

/// Reads the target of a far JMP or CALL that is written as two expressions, `segment` and `offset`.
fn far_pointer(alloc: Global, segment: &[Token], offset: &[Token]) -> Result<Operand, SyntaxError>
    ensures { Gives result (far_pointer segment.now offset.now) }
{
    let segment = read_expression(alloc, segment)?;
    let offset = read_expression(alloc, offset)?;
    Ok(Operand::FarPointer(segment, offset))
}

/// Reads the target of a far JMP or CALL that is written as a label, the only token after FAR; any more make the line a
/// bad one.
fn far_label(tokens: &[Token]) -> Result<Operand, SyntaxError>
    ensures { Gives result (far_label tokens.now) }
{
    match tokens {
        [token] => single_label(token),
        _ => Err(SyntaxError::Fault(SyntaxFault::BadLine)),
    }
}

/// Reads the token after FAR as the label of a far target. A bad line if it is no name of the source's own.
fn single_label(token: &Token) -> Result<Operand, SyntaxError>
    ensures { Gives result (single_label token.now) }
{
    match token {
        Token::Named(label) => Ok(Operand::FarLabel(*label)),
        _ => Err(SyntaxError::Fault(SyntaxFault::BadLine)),
    }
}

/// Recognizes an operand in memory by its front: `[`, or a segment register, `:` and `[`. Returns that register, if
/// there is one, and the tokens after the bracket; `None` for any other operand.
#[tactic(auto, unfolding(crate::specs::OperandSteps::brackets_of))]
fn brackets_of<'a, 'b>(tokens: &'a [Token<'b>]) -> Option<Brackets<'a, 'b>>
    ensures { brackets_view result ≡ brackets_of tokens.now }
{
    match tokens {
        [] => None,
        [first, rest @ ..] => brackets_by(first, rest),
    }
}

/// Recognizes an operand in memory by its first token, `[` or a segment register, `rest` being the others. Returns the
/// register, if it is there, and the tokens after the bracket; `None` for any other operand.
fn brackets_by<'a, 'b>(first: &Token, rest: &'a [Token<'b>]) -> Option<Brackets<'a, 'b>>
    ensures { brackets_view result ≡ brackets_by first.now rest.now }
{
    match first {
        Token::Punctuator(Punctuator::OpenBracket) => Some((None, rest)),
        Token::Word(Meaning::Register(register)) => after_segment(*register, rest),
        _ => None,
    }
}

/// Recognizes an operand in memory that begins with `register`: it must be a segment register, and `:` and `[` must
/// follow. Returns it and the tokens after the bracket, else `None`.
fn after_segment<'a, 'b>(register: Register, rest: &'a [Token<'b>]) -> Option<Brackets<'a, 'b>>
    ensures { brackets_view result ≡ after_segment register rest.now }
{
    match (register, rest) {
        (Register::Segment(segment), [colon, bracket, inner @ ..])
            if is_colon(colon) && is_open_bracket(bracket) => { Some((Some(segment), inner)) }
        _ => None,
    }
}

/// Reads an operand in memory of this size and segment register from the tokens after its open bracket: registers and
/// terms with signs between them, and last the closing bracket.
#[tactic(auto, unfolding(crate::specs::OperandSteps::memory_of))]
fn read_memory(
    alloc: Global,
    size: Option<Size>,
    segment: Option<SegmentRegister>,
    tokens: &[Token],
) -> Result<Operand, SyntaxError>
    ensures { Gives result (memory_of size segment tokens.now) }
{
    let Some(inner) = before_last(tokens, close_bracket_place(tokens)) else {
        return Err(SyntaxError::Fault(SyntaxFault::BadLine));
    };
    let address = Address {
        size,
        segment,
        base: None,
        displacement: None,
    };
    let address = with_parts(alloc, address, SignedParts::of(inner))?;
    Ok(Operand::Memory(address))
}

/// Adds to an address all parts that stand in its brackets, registers and terms. A bad line by the first that can't be
/// there.
fn with_parts(alloc: Global, address: Address, parts: SignedParts) -> Result<Address, SyntaxError>
    ensures { Gives result (with_parts address parts.entry) }
{
    let mut parts = parts;
    let mut address = address;
    while let Some((is_negative, part)) = parts.next() {
        address = with_part(alloc, address, is_negative, part)?;
    }
    Ok(address)
}

/// Adds to an address one part of those in its brackets: a register, which may have no minus before it, or a term of
/// the displacement.
#[tactic(auto, unfolding(crate::specs::OperandSteps::with_part))]
fn with_part(
    alloc: Global,
    address: Address,
    is_negative: bool,
    part: &[Token],
) -> Result<Address, SyntaxError>
    ensures { Gives result (with_part address (signed_part is_negative part.now)) }
{
    match register_of(part) {
        Some(_) if is_negative => Err(SyntaxError::Fault(SyntaxFault::BadLine)),
        Some(register) => with_register(address, register),
        None => with_term(alloc, address, read_term(is_negative, part)?),
    }
}

/// The register that a part in brackets is; `None` if it is a term of the displacement.
fn register_of(part: &[Token]) -> Option<Register>
    ensures { result ≡ register_of part.now }
{
    match part {
        [token] => single_register(token),
        _ => None,
    }
}

/// The register that a token names, for telling a base or index in brackets from a term; `None` if it names none.
fn single_register(token: &Token) -> Option<Register>
    ensures { result ≡ single_register token.now }
{
    match token {
        Token::Word(Meaning::Register(register)) => Some(*register),
        _ => None,
    }
}

/// Adds a register in brackets to an address's base. A bad line unless it is BX, BP, SI or DI, and goes with the one
/// that is there already.
fn with_register(address: Address, register: Register) -> Result<Address, SyntaxError>
    ensures { Gives result (with_register address register) }
{
    let Register::Word(register) = register else {
        return Err(SyntaxError::Fault(SyntaxFault::BadLine));
    };
    let Some(base) = base_with(address.base, register) else {
        return Err(SyntaxError::Fault(SyntaxFault::BadLine));
    };
    Ok(Address {
        base: Some(base),
        ..address
    })
}

/// The base of an address with one more register from its brackets: at most one of BX and BP, and at most one of SI and
/// DI, in either order; `None` for any other.
fn base_with(base: Option<Base>, register: WordRegister) -> Option<Base>
    ensures { result ≡ base_with base register }
{
    match (base, register) {
        (None, WordRegister::Bx) => Some(Base::Bx),
        (None, WordRegister::Bp) => Some(Base::Bp),
        (None, WordRegister::Si) => Some(Base::Si),
        (None, WordRegister::Di) => Some(Base::Di),
        (Some(Base::Bx), WordRegister::Si) => Some(Base::BxSi),
        (Some(Base::Bx), WordRegister::Di) => Some(Base::BxDi),
        (Some(Base::Bp), WordRegister::Si) => Some(Base::BpSi),
        (Some(Base::Bp), WordRegister::Di) => Some(Base::BpDi),
        (Some(Base::Si), WordRegister::Bx) => Some(Base::BxSi),
        (Some(Base::Si), WordRegister::Bp) => Some(Base::BpSi),
        (Some(Base::Di), WordRegister::Bx) => Some(Base::BxDi),
        (Some(Base::Di), WordRegister::Bp) => Some(Base::BpDi),
        _ => None,
    }
}

/// Adds a term in brackets to an address's displacement. Fails only for want of memory.
fn with_term(alloc: Global, address: Address, term: Term) -> Result<Address, SyntaxError>
    ensures { Gives result (Ok (with_term address term)) }
{
    let Address {
        size,
        segment,
        base,
        displacement,
    } = address;
    let displacement = Some(terms_with(alloc, displacement, term)?);
    Ok(Address {
        size,
        segment,
        base,
        displacement,
    })
}

/// An address's displacement with one more term, or that term alone if there was none. Fails only for want of memory.
fn terms_with(
    alloc: Global,
    terms: Option<Expression>,
    term: Term,
) -> Result<Expression, SyntaxError>
    ensures { Gives result (Ok (terms_with terms term)) }
{
    match terms {
        None => Ok(Expression::new(alloc, term)),
        Some(mut terms) => {
            terms.push(term)?;
            Ok(terms)
        }
    }
}
