//! Both operands of an instruction.
ghost use Rattle.std.specs.Prelude.{◌≡◌};
ghost use Rattle.digest.specs.Operands.{operand_of};
ghost use Rattle.isa.specs.Row.{first_of, second_of};

use digest::operand::{Operand, operand_of};
use isa::form::Instr;

/// The first operand of an instruction, which most write to.
pub(crate) fn first(instr: &Instr) -> Operand
    ensures { result ≡ operand_of instr.now (first_of instr.now.form.row) }
{
    operand_of(instr, instr.form.row.first())
}

/// The second operand of an instruction.
pub(crate) fn second(instr: &Instr) -> Operand
    ensures { result ≡ operand_of instr.now (second_of instr.now.form.row) }
{
    operand_of(instr, instr.form.row.second())
}
