//! The choice of a row: the first one that takes what is asked.
ghost use Rattle.std.specs.Prelude.{IfNone, IfSome};
ghost use Rattle.isa.specs.Encoding.{IsForm};
ghost use Rattle.isa.specs.Table.{rows};
ghost use Rattle.assembler_form.specs.Asked.{asked};
ghost use Rattle.assembler_form.specs.Choice.{IsChosen, IsFirst, NoneTakes};

use crate::asked::Asked;
use crate::operand::KnownOperand;
use dialect::mnemonic::Mnemonic;
use isa::form::Form;
use isa::row::Row;
use isa::table::table;

/// Chooses the form of an instruction for the assembler's first pass: the encoding table's first row that takes the
/// mnemonic with these operands, and what the operands put into its bytes. `None` if no row takes them.
pub fn choose(mnemonic: Mnemonic, first: KnownOperand, second: KnownOperand) -> Option<Form>
    ensures chosen { IfSome result (IsChosen (asked mnemonic first second)) }
    ensures form { IfSome result IsForm }
    ensures none { IfNone result (NoneTakes rows (asked mnemonic first second)) }
{
    let asked = Asked::of(mnemonic, first, second);
    let row = first_that_fits(table(), &asked)?;
    Some(asked.form_with(row))
}

/// The first of the rows that takes what a line asks; the encoding table's order thus decides which of several
/// encodings the assembler uses. `None` if none takes it.
fn first_that_fits(rows: &[Row], asked: &Asked) -> Option<Row>
    ensures first { IfSome result (IsFirst rows.now asked.now) }
    ensures none { IfNone result (NoneTakes rows.now asked.now) }
{
    for row in rows {
        if asked.is_taken_by(*row) {
            return Some(*row);
        }
    }
    None
}
