//! The names by which operations, registers, prefixes and keywords are written: the first of the words for each.
ghost use Rattle.std.specs.Prelude.{◌≡◌};
ghost use Rattle.isa.specs.declared.operation.Operation.TheVariants as operations;
ghost use Rattle.dialect.specs.declared.register.Register.TheVariants as registers;
ghost use Rattle.dialect.specs.Names.{keyword_name, mnemonic_name, operation_name, prefix_name, register_name};

use crate::keyword::Keyword;
use crate::mnemonic::Mnemonic;
use crate::register::Register;
use isa::form::{Prefix, Repeat};
use isa::operation::{
    Adjust, Arithmetic, Control, JumpCondition, Looping, Operation, Processor, Product, Shift,
    Strings, Transfer, Unary,
};
use isa::register::{ByteRegister, SegmentRegister, WordRegister};

/// The mnemonic that the disassembler writes for an operation, the first of those that mean it. A far jump or call has
/// that of the near one.
pub fn operation_name(operation: Operation) -> &'static str
    ensures { result.now ≡ operation_name operation }
{
    match operation {
        Operation::Arithmetic(arithmetic) => arithmetic_name(arithmetic),
        Operation::Shift(shift) => shift_name(shift),
        Operation::Product(product) => product_name(product),
        Operation::Unary(unary) => unary_name(unary),
        Operation::Jump(condition) => jump_name(condition),
        Operation::Looping(looping) => looping_name(looping),
        Operation::Strings(strings) => strings_name(strings),
        Operation::Adjust(adjust) => adjust_name(adjust),
        Operation::Transfer(transfer) => transfer_name(transfer),
        Operation::Control(control) => control_name(control),
        Operation::Processor(processor) => processor_name(processor),
    }
}

/// The mnemonic that the disassembler writes for an arithmetic or logic operation on two operands.
#[tactic(auto, unfolding(crate::specs::Words::words))]
fn arithmetic_name(arithmetic: Arithmetic) -> &'static str
    ensures { result.now ≡ operation_name (operations.Arithmetic arithmetic) }
{
    match arithmetic {
        Arithmetic::Add => "ADD",
        Arithmetic::Or => "OR",
        Arithmetic::Adc => "ADC",
        Arithmetic::Sbb => "SBB",
        Arithmetic::And => "AND",
        Arithmetic::Sub => "SUB",
        Arithmetic::Xor => "XOR",
        Arithmetic::Cmp => "CMP",
        Arithmetic::Test => "TEST",
    }
}

/// The mnemonic that the disassembler writes for a shift or rotate; SHL, not SAL.
#[tactic(auto, unfolding(crate::specs::Words::words))]
fn shift_name(shift: Shift) -> &'static str
    ensures { result.now ≡ operation_name (operations.Shift shift) }
{
    match shift {
        Shift::Rol => "ROL",
        Shift::Ror => "ROR",
        Shift::Rcl => "RCL",
        Shift::Rcr => "RCR",
        Shift::Shl => "SHL",
        Shift::Shr => "SHR",
        Shift::Sar => "SAR",
    }
}

/// The mnemonic that the disassembler writes for a multiplication or division.
#[tactic(auto, unfolding(crate::specs::Words::words))]
fn product_name(product: Product) -> &'static str
    ensures { result.now ≡ operation_name (operations.Product product) }
{
    match product {
        Product::Mul => "MUL",
        Product::Imul => "IMUL",
        Product::Div => "DIV",
        Product::Idiv => "IDIV",
    }
}

/// The mnemonic that the disassembler writes for an operation on one operand.
#[tactic(auto, unfolding(crate::specs::Words::words))]
fn unary_name(unary: Unary) -> &'static str
    ensures { result.now ≡ operation_name (operations.Unary unary) }
{
    match unary {
        Unary::Inc => "INC",
        Unary::Dec => "DEC",
        Unary::Not => "NOT",
        Unary::Neg => "NEG",
    }
}

/// The mnemonic that the disassembler writes for a conditional jump, the first of its names, such as JB and not JC.
#[tactic(auto, unfolding(crate::specs::Words::words))]
fn jump_name(condition: JumpCondition) -> &'static str
    ensures { result.now ≡ operation_name (operations.Jump condition) }
{
    match condition {
        JumpCondition::Overflow => "JO",
        JumpCondition::NotOverflow => "JNO",
        JumpCondition::Below => "JB",
        JumpCondition::NotBelow => "JNB",
        JumpCondition::Zero => "JZ",
        JumpCondition::NotZero => "JNZ",
        JumpCondition::BelowOrZero => "JBE",
        JumpCondition::Above => "JA",
        JumpCondition::Sign => "JS",
        JumpCondition::NotSign => "JNS",
        JumpCondition::Parity => "JP",
        JumpCondition::NotParity => "JNP",
        JumpCondition::Less => "JL",
        JumpCondition::NotLess => "JGE",
        JumpCondition::LessOrZero => "JLE",
        JumpCondition::Greater => "JG",
    }
}

/// The mnemonic that the disassembler writes for a jump that depends on CX, such as LOOPE and not LOOPZ.
#[tactic(auto, unfolding(crate::specs::Words::words))]
fn looping_name(looping: Looping) -> &'static str
    ensures { result.now ≡ operation_name (operations.Looping looping) }
{
    match looping {
        Looping::Loopne => "LOOPNE",
        Looping::Loope => "LOOPE",
        Looping::Loop => "LOOP",
        Looping::Jcxz => "JCXZ",
    }
}

/// The mnemonic that the disassembler writes for a string instruction.
#[tactic(auto, unfolding(crate::specs::Words::words))]
fn strings_name(strings: Strings) -> &'static str
    ensures { result.now ≡ operation_name (operations.Strings strings) }
{
    match strings {
        Strings::Movsb => "MOVSB",
        Strings::Movsw => "MOVSW",
        Strings::Cmpsb => "CMPSB",
        Strings::Cmpsw => "CMPSW",
        Strings::Stosb => "STOSB",
        Strings::Stosw => "STOSW",
        Strings::Lodsb => "LODSB",
        Strings::Lodsw => "LODSW",
        Strings::Scasb => "SCASB",
        Strings::Scasw => "SCASW",
    }
}

/// The mnemonic that the disassembler writes for an adjustment of AL or AX.
#[tactic(auto, unfolding(crate::specs::Words::words))]
fn adjust_name(adjust: Adjust) -> &'static str
    ensures { result.now ≡ operation_name (operations.Adjust adjust) }
{
    match adjust {
        Adjust::Daa => "DAA",
        Adjust::Das => "DAS",
        Adjust::Aaa => "AAA",
        Adjust::Aas => "AAS",
        Adjust::Aam => "AAM",
        Adjust::Aad => "AAD",
        Adjust::Cbw => "CBW",
        Adjust::Cwd => "CWD",
    }
}

/// The mnemonic that the disassembler writes for a data transfer.
#[tactic(auto, unfolding(crate::specs::Words::words))]
fn transfer_name(transfer: Transfer) -> &'static str
    ensures { result.now ≡ operation_name (operations.Transfer transfer) }
{
    match transfer {
        Transfer::Mov => "MOV",
        Transfer::Xchg => "XCHG",
        Transfer::Lea => "LEA",
        Transfer::Les => "LES",
        Transfer::Lds => "LDS",
        Transfer::Push => "PUSH",
        Transfer::Pop => "POP",
        Transfer::Pushf => "PUSHF",
        Transfer::Popf => "POPF",
        Transfer::Sahf => "SAHF",
        Transfer::Lahf => "LAHF",
        Transfer::Xlat => "XLAT",
        Transfer::In => "IN",
        Transfer::Out => "OUT",
    }
}

/// The mnemonic that the disassembler writes for a jump without a condition, a call, a return or an interrupt. Near and
/// far JMP and CALL differ in their operands alone.
#[tactic(auto, unfolding(crate::specs::Words::words))]
fn control_name(control: Control) -> &'static str
    ensures { result.now ≡ operation_name (operations.Control control) }
{
    match control {
        Control::Jmp => "JMP",
        Control::Call => "CALL",
        Control::Ret => "RET",
        Control::JmpFar => "JMP",
        Control::CallFar => "CALL",
        Control::Retf => "RETF",
        Control::Int3 => "INT3",
        Control::Int => "INT",
        Control::Into => "INTO",
        Control::Iret => "IRET",
    }
}

/// The mnemonic that the disassembler writes for an instruction of processor control.
#[tactic(auto, unfolding(crate::specs::Words::words))]
fn processor_name(processor: Processor) -> &'static str
    ensures { result.now ≡ operation_name (operations.Processor processor) }
{
    match processor {
        Processor::Hlt => "HLT",
        Processor::Cmc => "CMC",
        Processor::Clc => "CLC",
        Processor::Stc => "STC",
        Processor::Cli => "CLI",
        Processor::Sti => "STI",
        Processor::Cld => "CLD",
        Processor::Std => "STD",
        Processor::Wait => "WAIT",
        Processor::Esc => "ESC",
    }
}

impl Mnemonic {
    /// The word that is written for a mnemonic's meaning, such as the disassembler's NOP: the first of those that mean
    /// it, in upper case.
    #[tactic(auto, unfolding(crate::specs::Words::words))]
    pub fn name(self) -> &'static str
        ensures { result.now ≡ mnemonic_name self }
    {
        match self {
            Mnemonic::Plain(operation) => operation_name(operation),
            Mnemonic::Jmp => "JMP",
            Mnemonic::Call => "CALL",
            Mnemonic::Nop => "NOP",
        }
    }
}

impl Register {
    /// The register's name in upper case, as the disassembler writes it.
    pub fn name(self) -> &'static str
        ensures { result.now ≡ register_name self }
    {
        match self {
            Register::Byte(register) => byte_register_name(register),
            Register::Word(register) => word_register_name(register),
            Register::Segment(register) => segment_register_name(register),
        }
    }
}

/// The byte register's name in upper case, as the disassembler writes it.
#[tactic(auto, unfolding(crate::specs::Words::words))]
fn byte_register_name(register: ByteRegister) -> &'static str
    ensures { result.now ≡ register_name (registers.Byte register) }
{
    match register {
        ByteRegister::Al => "AL",
        ByteRegister::Cl => "CL",
        ByteRegister::Dl => "DL",
        ByteRegister::Bl => "BL",
        ByteRegister::Ah => "AH",
        ByteRegister::Ch => "CH",
        ByteRegister::Dh => "DH",
        ByteRegister::Bh => "BH",
    }
}

/// The word register's name in upper case, as the disassembler writes it.
#[tactic(auto, unfolding(crate::specs::Words::words))]
fn word_register_name(register: WordRegister) -> &'static str
    ensures { result.now ≡ register_name (registers.Word register) }
{
    match register {
        WordRegister::Ax => "AX",
        WordRegister::Cx => "CX",
        WordRegister::Dx => "DX",
        WordRegister::Bx => "BX",
        WordRegister::Sp => "SP",
        WordRegister::Bp => "BP",
        WordRegister::Si => "SI",
        WordRegister::Di => "DI",
    }
}

/// The segment register's name in upper case, as the disassembler writes it for an operand or an override.
#[tactic(auto, unfolding(crate::specs::Words::words))]
fn segment_register_name(register: SegmentRegister) -> &'static str
    ensures { result.now ≡ register_name (registers.Segment register) }
{
    match register {
        SegmentRegister::Es => "ES",
        SegmentRegister::Cs => "CS",
        SegmentRegister::Ss => "SS",
        SegmentRegister::Ds => "DS",
    }
}

/// The word that the disassembler writes for a prefix; for an override that of its segment register, which a colon
/// follows in the text.
#[tactic(auto, unfolding(crate::specs::Words::words))]
pub fn prefix_name(prefix: Prefix) -> &'static str
    ensures { result.now ≡ prefix_name prefix }
{
    match prefix {
        Prefix::Segment(register) => segment_register_name(register),
        Prefix::Lock => "LOCK",
        Prefix::Repeat(Repeat::Repne) => "REPNE",
        Prefix::Repeat(Repeat::Rep) => "REP",
    }
}

impl Keyword {
    /// The keyword's word in upper case, as a source has it and the disassembler writes WORD or SHORT.
    #[tactic(auto, unfolding(crate::specs::Words::words))]
    pub fn name(self) -> &'static str
        ensures { result.now ≡ keyword_name self }
    {
        match self {
            Keyword::Segment => "SEGMENT",
            Keyword::At => "AT",
            Keyword::Ends => "ENDS",
            Keyword::Equ => "EQU",
            Keyword::Org => "ORG",
            Keyword::Db => "DB",
            Keyword::Dw => "DW",
            Keyword::Dd => "DD",
            Keyword::Dup => "DUP",
            Keyword::Seg => "SEG",
            Keyword::Byte => "BYTE",
            Keyword::Word => "WORD",
            Keyword::Far => "FAR",
            Keyword::Short => "SHORT",
        }
    }
}
