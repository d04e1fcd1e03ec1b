//! The words of statements and operands.

/// A word of a statement or of an operand that is neither a mnemonic, nor a register, nor a prefix.
#[derive(Clone, Copy)]
pub enum Keyword {
    Segment,
    At,
    Ends,
    Equ,
    Org,
    Db,
    Dw,
    Dd,
    Dup,
    Seg,
    Byte,
    Word,
    Far,
    Short,
}
