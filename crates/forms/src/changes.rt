//! Which registers and flags an instruction may change.
ghost use Rattle.std.specs.Prelude.{◌≡◌};
ghost use Rattle.forms.specs.Changed.{adjusted_flags, alters_of, compared_flags, control_flags, elements_set, is_word, operand_sets, operand_sets_segment, processor_flags, product_sets, sets_segment, sets_word, shifted_flags, sp_moves, transfer_flags, transfer_sets, word_of};

use crate::operands::{first, second};
use crate::stack::{StackMove, move_of, writes_first};
use board_types::regs::Flags;
use digest::operand::Operand;
use isa::form::Instr;
use isa::operation::{
    Adjust, Control, Looping, Operation, Processor, Product, Shift, Strings, Transfer, Unary,
};
use isa::register::{ByteRegister, SegmentRegister, WordRegister};

/// No flag at all.
const NONE: Flags = Flags {
    carry: false,
    parity: false,
    auxiliary_carry: false,
    zero: false,
    sign: false,
    trap: false,
    interrupt_enable: false,
    direction: false,
    overflow: false,
};

/// The six flags that tell of a result.
const STATUS: Flags = Flags {
    carry: true,
    parity: true,
    auxiliary_carry: true,
    zero: true,
    sign: true,
    trap: false,
    interrupt_enable: false,
    direction: false,
    overflow: true,
};

/// All nine flags.
const ALL: Flags = Flags {
    carry: true,
    parity: true,
    auxiliary_carry: true,
    zero: true,
    sign: true,
    trap: true,
    interrupt_enable: true,
    direction: true,
    overflow: true,
};

/// The two flags that an entry clears.
const ENTRY: Flags = Flags {
    carry: false,
    parity: false,
    auxiliary_carry: false,
    zero: false,
    sign: false,
    trap: true,
    interrupt_enable: true,
    direction: false,
    overflow: false,
};

/// Which flags an instruction may change.
#[tactic(auto, unfolding(crate::specs::Changed::alters_of))]
pub fn alters_of(instr: &Instr) -> Flags
    ensures { result ≡ alters_of instr.now }
{
    match instr.form.row.operation() {
        Operation::Arithmetic(_) => STATUS,
        Operation::Shift(op) => shifted_flags(op),
        Operation::Product(Product::Mul | Product::Imul) => Flags {
            carry: true,
            overflow: true,
            ..NONE
        },
        Operation::Product(Product::Div | Product::Idiv) => ENTRY,
        Operation::Unary(Unary::Inc | Unary::Dec) => Flags {
            carry: false,
            ..STATUS
        },
        Operation::Unary(Unary::Not) => NONE,
        Operation::Unary(Unary::Neg) => STATUS,
        Operation::Strings(op) => compared_flags(op),
        Operation::Adjust(op) => adjusted_flags(op),
        Operation::Transfer(op) => transfer_flags(op),
        Operation::Control(op) => control_flags(op),
        Operation::Processor(op) => processor_flags(op),
        Operation::Jump(_) | Operation::Looping(_) => NONE,
    }
}

/// Which flags a shift or rotate may change: SF, ZF and PF tell of the result of shifts alone.
fn shifted_flags(op: Shift) -> Flags
    ensures { result ≡ shifted_flags op }
{
    let tells = matches!(op, Shift::Shl | Shift::Shr | Shift::Sar);
    Flags {
        carry: true,
        parity: tells,
        zero: tells,
        sign: tells,
        overflow: true,
        ..NONE
    }
}

/// Which flags a string instruction may change: those that compare set the six.
fn compared_flags(op: Strings) -> Flags
    ensures { result ≡ compared_flags op }
{
    match op {
        Strings::Cmpsb | Strings::Cmpsw | Strings::Scasb | Strings::Scasw => STATUS,
        _ => NONE,
    }
}

/// Which flags an adjustment may change.
fn adjusted_flags(op: Adjust) -> Flags
    ensures { result ≡ adjusted_flags op }
{
    match op {
        Adjust::Daa | Adjust::Das => Flags {
            overflow: false,
            ..STATUS
        },
        Adjust::Aaa | Adjust::Aas => Flags {
            carry: true,
            auxiliary_carry: true,
            ..NONE
        },
        Adjust::Aam | Adjust::Aad => Flags {
            parity: true,
            zero: true,
            sign: true,
            ..NONE
        },
        Adjust::Cbw | Adjust::Cwd => NONE,
    }
}

/// Which flags a data transfer may change.
fn transfer_flags(op: Transfer) -> Flags
    ensures { result ≡ transfer_flags op }
{
    match op {
        Transfer::Popf => ALL,
        Transfer::Sahf => Flags {
            overflow: false,
            ..STATUS
        },
        _ => NONE,
    }
}

/// Which flags an interrupt or a return from it may change.
fn control_flags(op: Control) -> Flags
    ensures { result ≡ control_flags op }
{
    match op {
        Control::Int3 | Control::Int | Control::Into => ENTRY,
        Control::Iret => ALL,
        _ => NONE,
    }
}

/// Which flag an operation on single flags may change.
fn processor_flags(op: Processor) -> Flags
    ensures { result ≡ processor_flags op }
{
    match op {
        Processor::Cmc | Processor::Clc | Processor::Stc => Flags {
            carry: true,
            ..NONE
        },
        Processor::Cli | Processor::Sti => Flags {
            interrupt_enable: true,
            ..NONE
        },
        Processor::Cld | Processor::Std => Flags {
            direction: true,
            ..NONE
        },
        Processor::Hlt | Processor::Wait | Processor::Esc => NONE,
    }
}

/// Whether an instruction may change a word register, or half of it.
#[tactic(auto, unfolding(crate::specs::Changed::sets_word))]
pub fn sets_word(instr: &Instr, register: WordRegister) -> bool
    ensures { result ≡ sets_word instr.now register }
{
    if matches!(register, WordRegister::Sp) {
        return moves_sp(move_of(instr));
    }
    match instr.form.row.operation() {
        Operation::Product(op) => product_sets(op, is_word(first(instr)), register),
        Operation::Looping(op) => {
            !matches!(op, Looping::Jcxz) && matches!(register, WordRegister::Cx)
        }
        Operation::Strings(op) => elements_set(op, instr.is_repeated(), register),
        Operation::Adjust(Adjust::Cwd) => matches!(register, WordRegister::Dx),
        Operation::Adjust(_) => matches!(register, WordRegister::Ax),
        Operation::Transfer(op) => transfer_sets(instr, op, register),
        op => writes_first(op) && operand_sets(first(instr), register),
    }
}

/// Whether a move of SP changes it.
fn moves_sp(by: StackMove) -> bool
    ensures { result ≡ sp_moves by }
{
    !matches!(by, StackMove::By(0))
}

/// Whether an operand is a word in a register or in memory.
fn is_word(operand: Operand) -> bool
    ensures { result ≡ is_word operand }
{
    !matches!(
        operand,
        Operand::Byte(_) | Operand::ByteByPlace | Operand::ByteAt(_)
    )
}

/// Whether a multiplication or division, of words or of bytes, sets a word register: AX, and of words DX, too.
fn product_sets(op: Product, words: bool, register: WordRegister) -> bool
    ensures { result ≡ product_sets op words register }
{
    let _ = op;
    match register {
        WordRegister::Ax => true,
        WordRegister::Dx => words,
        _ => false,
    }
}

/// Whether a string instruction sets a word register: the index registers of its elements, AX if it loads them, and CX
/// if it is repeated.
fn elements_set(op: Strings, repeated: bool, register: WordRegister) -> bool
    ensures { result ≡ elements_set op repeated register }
{
    match register {
        WordRegister::Ax => matches!(op, Strings::Lodsb | Strings::Lodsw),
        WordRegister::Cx => repeated,
        WordRegister::Si => !matches!(
            op,
            Strings::Stosb | Strings::Stosw | Strings::Scasb | Strings::Scasw
        ),
        WordRegister::Di => !matches!(op, Strings::Lodsb | Strings::Lodsw),
        _ => false,
    }
}

/// Whether a data transfer sets a word register other than SP.
fn transfer_sets(instr: &Instr, op: Transfer, register: WordRegister) -> bool
    ensures { result ≡ transfer_sets instr.now op register }
{
    match op {
        Transfer::Mov
        | Transfer::Lea
        | Transfer::Les
        | Transfer::Lds
        | Transfer::Pop
        | Transfer::In => operand_sets(first(instr), register),
        Transfer::Xchg => {
            operand_sets(first(instr), register) || operand_sets(second(instr), register)
        }
        Transfer::Xlat | Transfer::Lahf => matches!(register, WordRegister::Ax),
        Transfer::Push | Transfer::Pushf | Transfer::Popf | Transfer::Sahf | Transfer::Out => false,
    }
}

/// Whether what is written to an operand changes a word register: it is the register or half of it.
fn operand_sets(operand: Operand, register: WordRegister) -> bool
    ensures { result ≡ operand_sets operand register }
{
    match operand {
        Operand::Word(to) => to.number() == register.number(),
        Operand::Byte(to) => word_of(to).number() == register.number(),
        _ => false,
    }
}

/// The word register of which a byte register is half.
fn word_of(half: ByteRegister) -> WordRegister
    ensures { result ≡ word_of half }
{
    match half {
        ByteRegister::Al | ByteRegister::Ah => WordRegister::Ax,
        ByteRegister::Cl | ByteRegister::Ch => WordRegister::Cx,
        ByteRegister::Dl | ByteRegister::Dh => WordRegister::Dx,
        ByteRegister::Bl | ByteRegister::Bh => WordRegister::Bx,
    }
}

/// Whether an instruction may change a segment register other than CS, which its target tells.
#[tactic(auto, unfolding(crate::specs::Changed::sets_segment))]
pub fn sets_segment(instr: &Instr, register: SegmentRegister) -> bool
    ensures { result ≡ sets_segment instr.now register }
{
    match instr.form.row.operation() {
        Operation::Transfer(Transfer::Mov | Transfer::Pop) => {
            operand_sets_segment(first(instr), register)
        }
        Operation::Transfer(Transfer::Les) => matches!(register, SegmentRegister::Es),
        Operation::Transfer(Transfer::Lds) => matches!(register, SegmentRegister::Ds),
        _ => false,
    }
}

/// Whether what is written to an operand changes a segment register.
fn operand_sets_segment(operand: Operand, register: SegmentRegister) -> bool
    ensures { result ≡ operand_sets_segment operand register }
{
    match operand {
        Operand::Segment(to) => to.number() == register.number(),
        _ => false,
    }
}
