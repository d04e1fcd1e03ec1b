//! What a line says.
ghost use Rattle.std.specs.Prelude.{◌≤◌, ◌<◌, length, IfSome};

use masm_text::name::Name;
use masm_text::raw::split_word;
use masm_text::refusal::{Reason, Remark};
use masm_text::token::{Mark, Token};
use masm_value::symbol::is_segment_register;
use masm_value::value::{Type, Width};

/// What a line says, without its label.
#[derive(Clone, Copy)]
pub enum Statement<'t, 'a> {
    Nothing,
    /// Nothing but what the remark tells.
    Remarked(Remark),
    Segment(Name, &'t [Token<'a>]),
    EndSegment,
    Group(Name, &'t [Token<'a>]),
    Structure(Name),
    Procedure(Name, &'t [Token<'a>]),
    EndProcedure,
    Label(Name, Option<Type>),
    /// A name's value, and whether it may get another one later.
    Constant(Name, &'t [Token<'a>], bool),
    Data(Option<Name>, Width, &'t [Token<'a>]),
    /// Instances of a structure: their name, the structure's, how many DUP makes (nothing without DUP), and the items
    /// that are given.
    Instance(Option<Name>, Name, &'t [Token<'a>], &'t [Token<'a>]),
    Origin(&'t [Token<'a>]),
    Assume(&'t [Token<'a>]),
    Model(Option<Name>),
    Startup,
    Exit(&'t [Token<'a>]),
    End(Option<Name>),
    Instruction(Name, &'t [Token<'a>]),
    Refused(Reason),
}

/// The word that the first token is.
pub fn first_word(tokens: &[Token]) -> Option<Name> {
    tokens.first()?.word()
}

/// The label before a colon, and what follows it.
pub fn split_label<'t, 'a>(tokens: &'t [Token<'a>]) -> (Option<Name>, &'t [Token<'a>]) {
    match tokens {
        [Token::Word(name), second, rest @ ..]
            if second.is_mark(Mark::Colon) && !is_segment_register(*name) => { (Some(*name), rest) }
        _ => (None, tokens),
    }
}

/// The tokens before the first comma outside parentheses, and those after it, if there is one.
pub fn split_item<'t, 'a>(tokens: &'t [Token<'a>]) -> (&'t [Token<'a>], Option<&'t [Token<'a>]>)
    ensures { IfSome result.1 (λ after. length after.now < length tokens.now) }
{
    let mut depth = 0u32;
    for (place, token) in tokens.iter().enumerate() {
        match token {
            Token::Mark(Mark::Open) => depth = depth.saturating_add(1),
            Token::Mark(Mark::Close) => depth = depth.saturating_sub(1),
            Token::Mark(Mark::Comma) if depth == 0 => {
                return (&tokens[..place], Some(&tokens[place + 1..]));
            }
            _ => {}
        }
    }
    (tokens, None)
}

/// What the tokens say after a label.
pub fn statement_of<'t, 'a>(tokens: &'t [Token<'a>]) -> Statement<'t, 'a> {
    let [first, after @ ..] = tokens else {
        return Statement::Nothing;
    };
    let Token::Word(first) = *first else {
        return marked(after);
    };
    if let [second, rest @ ..] = after {
        if let Token::Word(second) = *second
            && let Some(statement) = named(first, second, rest)
        {
            return statement;
        }
        if second.is_mark(Mark::Equals) {
            return Statement::Constant(first, rest, true);
        }
    }
    if let Some((times, items)) = instances(after) {
        return Statement::Instance(None, first, times, items);
    }
    match directive(first, after) {
        Some(statement) => statement,
        None => Statement::Instruction(first, after),
    }
}

/// What a line says that begins with a mark: emu8086's kind of program, as `#make_com#`.
fn marked<'t, 'a>(after: &'t [Token<'a>]) -> Statement<'t, 'a> {
    match first_word(after) {
        Some(word) if is_among(word, "MAKE_COM MAKE_EXE") => Statement::Nothing,
        _ => Statement::Refused(Reason::UnknownStatement),
    }
}

/// What a line says whose second word tells it.
fn named<'t, 'a>(first: Name, second: Name, rest: &'t [Token<'a>]) -> Option<Statement<'t, 'a>> {
    if let Some((times, items)) = instances(rest)
        && !second.is(b"EQU")
        && Width::of_directive(second.text()).is_none()
    {
        return Some(Statement::Instance(Some(first), second, times, items));
    }
    match second.text() {
        b"SEGMENT" => Some(Statement::Segment(first, rest)),
        b"ENDS" => Some(Statement::EndSegment),
        b"GROUP" => Some(Statement::Group(first, rest)),
        b"STRUC" | b"STRUCT" => Some(Statement::Structure(first)),
        b"PROC" => Some(Statement::Procedure(first, rest)),
        b"ENDP" => Some(Statement::EndProcedure),
        b"LABEL" => Some(Statement::Label(first, type_at(rest))),
        b"EQU" => Some(Statement::Constant(first, rest, false)),
        b"RECORD" | b"UNION" | b"TYPEDEF" | b"PROTO" | b"TEXTEQU" => {
            Some(Statement::Refused(Reason::NotTaken))
        }
        _ if Width::of_directive(first.text()).is_some() || is_operand(rest) => None,
        word => Some(Statement::Data(Some(first), Width::of_directive(word)?, rest)),
    }
}

/// Whether what follows a type makes it one of an operand, as in `INC BYTE PTR [BX]`.
fn is_operand(rest: &[Token]) -> bool {
    match rest.first() {
        Some(token) => token.is_word(b"PTR") || token.is_mark(Mark::OpenBracket),
        None => false,
    }
}

/// Whether the word FAR stands among the tokens.
pub fn has_far(tokens: &[Token]) -> bool {
    tokens.iter().any(|token| token.is_word(b"FAR"))
}

/// The type that the first token names.
fn type_at(tokens: &[Token]) -> Option<Type> {
    Type::of(first_word(tokens)?.text())
}

/// The tokens between two marks, if they stand there.
fn between<'t, 'a>(tokens: &'t [Token<'a>], open: Mark, close: Mark) -> Option<&'t [Token<'a>]> {
    match tokens {
        [first, inner @ .., last] if first.is_mark(open) && last.is_mark(close) => Some(inner),
        _ => None,
    }
}

/// The tokens between parentheses, if they stand there.
pub fn inside<'t, 'a>(tokens: &'t [Token<'a>]) -> Option<&'t [Token<'a>]> {
    between(tokens, Mark::Open, Mark::Close)
}

/// The tokens before the word DUP, and those after it.
pub fn around_dup<'t, 'a>(item: &'t [Token<'a>]) -> Option<(&'t [Token<'a>], &'t [Token<'a>])> {
    let place = item.iter().position(|token| token.is_word(b"DUP"))?;
    Some((&item[..place], &item[place + 1..]))
}

/// How many instances of a structure DUP makes, nothing without DUP, and the items between angle brackets.
fn instances<'t, 'a>(tokens: &'t [Token<'a>]) -> Option<(&'t [Token<'a>], &'t [Token<'a>])> {
    if let Some(items) = between(tokens, Mark::Less, Mark::Greater) {
        return Some((&tokens[..0], items));
    }
    let (times, repeated) = around_dup(tokens)?;
    Some((
        times,
        between(inside(repeated)?, Mark::Less, Mark::Greater)?,
    ))
}

/// What a line says whose first word is a directive; `None` if it is none.
fn directive<'t, 'a>(first: Name, after: &'t [Token<'a>]) -> Option<Statement<'t, 'a>> {
    let statement = match first.text() {
        b".CODE" | b".DATA" | b".DATA?" | b".CONST" | b".FARDATA" => {
            Statement::Segment(first, after)
        }
        b".MODEL" => Statement::Model(first_word(after)),
        b"CODESEG" => Statement::Segment(Name::of(b".CODE")?, after),
        b"DATASEG" | b"UDATASEG" => Statement::Segment(Name::of(b".DATA")?, after),
        b".STARTUP" | b"STARTUPCODE" => Statement::Startup,
        b".EXIT" | b"EXITCODE" => Statement::Exit(after),
        b"ENDS" => Statement::EndSegment,
        b"ENDP" => Statement::EndProcedure,
        b"ASSUME" => Statement::Assume(after),
        b"ORG" => Statement::Origin(after),
        b"END" => Statement::End(first_word(after)),
        b"EVEN" | b"ALIGN" => Statement::Remarked(Remark::NotAligned),
        word => match Width::of_directive(word) {
            Some(width) => Statement::Data(None, width, after),
            None => without_effect(first)?,
        },
    };
    Some(statement)
}

/// What stands after `%` in directives of MASM and TASM that place nothing.
const LISTED: &str = "OUT TITLE SUBTTL NEWPAGE LIST NOLIST";

/// Whether what follows `%` makes a directive of MASM or TASM that places nothing.
pub fn is_listed(after: &[u8]) -> bool {
    match split_word(after) {
        Some((word, _)) => is_among(word, LISTED),
        None => false,
    }
}

/// Directives with a dot that place nothing, and change nothing here.
const SILENT_DOTS: &str =
    ".STACK .8086 .8088 .LIST .NOLIST .LISTALL .XLIST .SALL .XALL .LALL .CREF .XCREF .NOCREF .LFCOND .SFCOND .TFCOND \
    .LISTIF .NOLISTIF .LISTMACRO .LISTMACROALL .NOLISTMACRO .SEQ .ALPHA .DOSSEG";

/// Directives with a dot that name a later processor.
const PROCESSORS: &str = ".186 .286 .286C .386 .386P .486 .586 .686 .287 .387";

/// What a directive says that places nothing; `None` if the word is no directive.
fn without_effect<'t, 'a>(word: Name) -> Option<Statement<'t, 'a>> {
    match word.text() {
        [b'.', ..] if is_among(word, SILENT_DOTS) => Some(Statement::Nothing),
        [b'.', ..] if !is_among(word, PROCESSORS) => Some(Statement::Refused(Reason::NotTaken)),
        [b'.', ..] | b"P186" | b"P286" | b"P386" => {
            Some(Statement::Remarked(Remark::LaterProcessor))
        }
        b"PUBLIC"
        | b"DOSSEG"
        | b"EXTRN"
        | b"LOCALS"
        | b"NOLOCALS"
        | b"JUMPS"
        | b"NOJUMPS"
        | b"OPTION" => { Some(Statement::Nothing) }
        b"INVOKE" | b"LOCAL" | b"RECORD" | b"UNION" | b"IDEAL" | b"COMM" | b"WHILE" => {
            Some(Statement::Refused(Reason::NotTaken))
        }
        _ => None,
    }
}

/// Whether a word is one of those of a list, in upper case and between blanks.
pub fn is_among(word: Name, list: &str) -> bool {
    let text = word.text();
    list.split(' ').any(|one| text == one.as_bytes())
}
