//! What a line is by itself.
use anyhow::{Result, bail};
use assembler_lexeme::fault::{SyntaxError, SyntaxFault};
use assembler_syntax::read::read_line;
use std::alloc::Global;

/// The answer to an `alone` case: `alone N` with the fault that a line of a source has whatever the other lines are, or
/// `alone -` for none. In `text` `^` stands for a carriage return.
pub fn answer_to(alloc: Global, text: &str) -> Result<String> {
    let line = text.replace(alloc, '^', "\r")?;
    let answer = match read_line(alloc, line.as_bytes()) {
        Ok(_) => "alone -",
        Err(SyntaxError::Fault(SyntaxFault::BadCharacter)) => "alone 2",
        Err(SyntaxError::Fault(SyntaxFault::BadLine)) => "alone 3",
        Err(SyntaxError::Fault(SyntaxFault::UnknownName)) => "alone 4",
        Err(SyntaxError::Memory) => bail!("out of memory"),
    };
    Ok(String::from_str(alloc, answer)?)
}
