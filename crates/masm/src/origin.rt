//! Which assembler a source is written for.

use board_types::text::next_line;
use masm_line::statement::{is_among, is_listed};
use masm_text::raw::{split_word, without_comment};
use masm_text::token::after_blanks;

/// Which assembler a source is written for.
#[derive(Clone, Copy, PartialEq, Eq)]
pub enum Origin {
    /// MASM, TASM or emu8086.
    Masm,
    Nasm,
    /// The board's own assembler.
    Dialect,
}

impl Origin {
    /// Its name, as pcmasm tells it.
    pub fn name(self) -> &'static str {
        match self {
            Origin::Masm => "masm",
            Origin::Nasm => "nasm",
            Origin::Dialect => "dialect",
        }
    }
}

/// Which assembler a source is written for, as its first line tells that only one of them takes, and the number of that
/// line; `None` if no line tells.
pub fn origin_of(text: &[u8]) -> Option<(Origin, u32)> {
    let mut rest = text;
    let mut number = 0u32;
    while let Some((line, after)) = next_line(rest) {
        number = number.saturating_add(1);
        if let Some(origin) = origin_of_line(without_comment(line)) {
            return Some((origin, number));
        }
        rest = after;
    }
    None
}

/// Which assembler alone takes the line, if one does.
fn origin_of_line(line: &[u8]) -> Option<Origin> {
    let Some((first, after)) = split_word(line) else {
        return match after_blanks(line) {
            [b'%', after @ ..] if is_listed(after) => Some(Origin::Masm),
            [b'%' | b'[', ..] => Some(Origin::Nasm),
            _ => None,
        };
    };
    let is_dotted = first.text().starts_with(b".");
    if after.starts_with(b":") {
        return if is_dotted { Some(Origin::Nasm) } else { None };
    }
    if is_dotted {
        let is_masm = is_among(first, MASM_DOTS);
        return Some(if is_masm { Origin::Masm } else { Origin::Nasm });
    }
    if is_among(first, NASM) {
        Some(Origin::Nasm)
    } else if is_among(first, MASM) {
        Some(Origin::Masm)
    } else if first.is(b"SEGMENT") {
        Some(of_segment(after))
    } else {
        origin_of_second(after)
    }
}

/// First words that only MASM, TASM or emu8086 takes.
const MASM: &str =
    "TITLE SUBTTL ASSUME PAGE PUBLIC EXTRN INCLUDE REPT IRP NAME COMMENT END DOSSEG LOCALS IDEAL CODESEG DATASEG";

/// First words of MASM that begin with a dot; NASM has local labels so.
const MASM_DOTS: &str =
    ".MODEL .STACK .DATA .DATA? .CONST .CODE .STARTUP .EXIT .DOSSEG .RADIX .LIST .NOLIST .XLIST .LISTALL .SALL .LALL \
    .8086 .8087 .186 .286 .386 .486 .586";

/// First words that only NASM takes.
const NASM: &str = "SECTION BITS GLOBAL EXTERN CPU TIMES RESB RESW ISTRUC";

/// Second words that only MASM, TASM or emu8086 takes, and those that may also be an operand's size.
const MASM_SECOND: &str = "SEGMENT ENDS PROC ENDP MACRO DB DW DD LABEL STRUC GROUP";

const SIZES: &str = "BYTE WORD DWORD";

/// Whose line begins with SEGMENT: the dialect's has AT after a name.
fn of_segment(after: &[u8]) -> Origin {
    match split_word(after).and_then(|(_, rest)| split_word(rest)) {
        Some((word, _)) if word.is(b"AT") => Origin::Dialect,
        _ => Origin::Nasm,
    }
}

/// Whose line has this after its first word.
fn origin_of_second(after: &[u8]) -> Option<Origin> {
    let (second, _) = split_word(after)?;
    if is_among(second, "RESB RESW RESD TIMES") {
        Some(Origin::Nasm)
    } else if is_among(second, MASM_SECOND) || is_among(second, SIZES) && !after.contains(&b'[') {
        Some(Origin::Masm)
    } else {
        None
    }
}
