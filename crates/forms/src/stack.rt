//! How an instruction moves SP.
ghost use Rattle.std.specs.Prelude.{◌≡◌};
ghost use Rattle.forms.specs.StackMove.{control_move, is_sp, more_bytes, move_of, operand_move, transfer_move, writes_first};

use crate::operands::{first, second};
use digest::operand::Operand;
use isa::form::Instr;
use isa::operation::{Arithmetic, Control, Operation, Product, Transfer, Unary};
use isa::register::WordRegister;

/// How an instruction moves SP.
#[derive(Clone, Copy, Debug, PartialEq, Eq)]
pub enum StackMove {
    /// By so many bytes, where SP wraps: 65,534 moves it down by 2.
    By(u16),
    /// By so many bytes if an interrupt is entered, else not at all.
    Or(u16),
    /// To what its bytes don't tell.
    Loads,
}

/// The bytes by which an entry's three pushes move SP.
const ENTRY: u16 = 0xFFFA;

/// How an instruction moves SP.
#[tactic(auto, unfolding(crate::specs::StackMove::move_of))]
pub fn move_of(instr: &Instr) -> StackMove
    ensures { result ≡ move_of instr.now }
{
    match instr.form.row.operation() {
        Operation::Transfer(op) => transfer_move(instr, op),
        Operation::Control(op) => control_move(instr, op),
        Operation::Product(Product::Div | Product::Idiv) => StackMove::Or(ENTRY),
        op => operand_move(instr, op),
    }
}

/// How a data transfer moves SP: pushes and pops by 2, and what is written to SP itself by what isn't told.
fn transfer_move(instr: &Instr, op: Transfer) -> StackMove
    ensures { result ≡ transfer_move instr.now op }
{
    match op {
        Transfer::Push | Transfer::Pushf => StackMove::By(0xFFFE),
        Transfer::Popf => StackMove::By(2),
        Transfer::Pop if is_sp(first(instr)) => StackMove::Loads,
        Transfer::Pop => StackMove::By(2),
        Transfer::Mov | Transfer::Lea | Transfer::Les | Transfer::Lds if is_sp(first(instr)) => {
            StackMove::Loads
        }
        Transfer::Xchg if is_sp(first(instr)) || is_sp(second(instr)) => StackMove::Loads,
        _ => StackMove::By(0),
    }
}

/// How a jump without a condition, a call, a return or an interrupt moves SP.
fn control_move(instr: &Instr, op: Control) -> StackMove
    ensures { result ≡ control_move instr.now op }
{
    match op {
        Control::Jmp | Control::JmpFar => StackMove::By(0),
        Control::Call => StackMove::By(0xFFFE),
        Control::CallFar => StackMove::By(0xFFFC),
        Control::Ret => StackMove::By(more_bytes(instr).wrapping_add(2)),
        Control::Retf => StackMove::By(more_bytes(instr).wrapping_add(4)),
        Control::Iret => StackMove::By(6),
        Control::Int3 | Control::Int => StackMove::By(ENTRY),
        Control::Into => StackMove::Or(ENTRY),
    }
}

/// How many more bytes a return takes off the stack: 0 without an operand.
fn more_bytes(instr: &Instr) -> u16
    ensures { result ≡ more_bytes instr.now }
{
    match first(instr) {
        Operand::Number(bytes) => bytes,
        _ => 0,
    }
}

/// How any other operation moves SP: only if SP is what it writes, by what its bytes tell of a sum or a difference.
fn operand_move(instr: &Instr, op: Operation) -> StackMove
    ensures { result ≡ operand_move instr.now op }
{
    if !writes_first(op) || !is_sp(first(instr)) {
        return StackMove::By(0);
    }
    match (op, second(instr)) {
        (Operation::Arithmetic(Arithmetic::Add), Operand::Number(number)) => StackMove::By(number),
        (Operation::Arithmetic(Arithmetic::Sub), Operand::Number(number)) => {
            StackMove::By(number.wrapping_neg())
        }
        (Operation::Unary(Unary::Inc), _) => StackMove::By(1),
        (Operation::Unary(Unary::Dec), _) => StackMove::By(0xFFFF),
        _ => StackMove::Loads,
    }
}

/// Whether an operation that calculates writes its first operand back.
pub(crate) fn writes_first(op: Operation) -> bool
    ensures { result ≡ writes_first op }
{
    match op {
        Operation::Arithmetic(Arithmetic::Cmp | Arithmetic::Test) => false,
        Operation::Arithmetic(_) | Operation::Shift(_) | Operation::Unary(_) => true,
        _ => false,
    }
}

/// Whether an operand is SP.
fn is_sp(operand: Operand) -> bool
    ensures { result ≡ is_sp operand }
{
    matches!(operand, Operand::Word(WordRegister::Sp))
}
