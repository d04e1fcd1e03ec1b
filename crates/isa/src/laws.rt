//! The laws of the encoding table.
ghost use Rattle.isa.specs.IsaLaws.{LengthIsTheForms, NoPrefixIsARow, OneRowFits};

/// States that no bytes fit two rows of the table, so that they are one instruction at most; for readers of the
/// instruction set's laws.
pub fn one_row_fits()
    ensures { OneRowFits }
{}

/// States that an instruction's bytes without prefixes are as many as its form says, whatever the numbers in its
/// fields; for readers of the instruction set's laws.
pub fn length_is_the_forms()
    ensures { LengthIsTheForms }
{}

/// States that no row's opcode is a prefix's byte, so that prefixes can be read off before the opcode; for readers of
/// the instruction set's laws.
pub fn no_prefix_is_a_row()
    ensures { NoPrefixIsARow }
{}
