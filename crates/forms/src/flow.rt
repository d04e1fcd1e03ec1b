//! Where an instruction leads.
ghost use Rattle.std.specs.Prelude.{◌≡◌};
ghost use Rattle.forms.specs.Flow.{control_flow, control_target, far_target, flow_of, near_target, target_of};

use crate::operands::first;
use digest::operand::Operand;
use isa::form::Instr;
use isa::operation::{Control, Operation, Processor, Product};

/// How an instruction leads on.
#[derive(Clone, Copy, Debug, PartialEq, Eq)]
pub enum Flow {
    /// To the next one.
    Next,
    /// To its target.
    Jump,
    /// To its target if a condition holds, else to the next one.
    Branch,
    /// To its target, from which a return leads to the next one.
    Call,
    /// To a place on the stack.
    Return,
    /// Into an interrupt.
    Enter,
    /// Into an interrupt if a condition holds or a division has no quotient, else to the next one.
    MayEnter,
    /// To the next one, once an interrupt has come.
    Halt,
    /// To itself, once for each element, and then to the next one.
    Repeat,
}

/// The place to which an instruction leads if not to the next one alone.
#[derive(Clone, Copy, Debug, PartialEq, Eq)]
pub enum Target {
    /// The next instruction.
    Next,
    /// The place that lies this number of bytes after the next instruction; offsets wrap.
    Relative(u16),
    /// This segment and offset.
    Far(u16, u16),
    /// The offset in a register.
    Register,
    /// The offset, or the offset and segment, in memory.
    Memory,
    /// The offset, or the offset and segment, on the stack.
    Stack,
    /// Where the vector of this type leads.
    Vector(u8),
}

/// How an instruction leads on.
#[tactic(auto, unfolding(crate::specs::Flow::flow_of))]
pub fn flow_of(instr: &Instr) -> Flow
    ensures { result ≡ flow_of instr.now }
{
    match instr.form.row.operation() {
        Operation::Jump(_) | Operation::Looping(_) => Flow::Branch,
        Operation::Product(Product::Div | Product::Idiv) => Flow::MayEnter,
        Operation::Strings(_) => {
            if instr.is_repeated() {
                Flow::Repeat
            } else {
                Flow::Next
            }
        }
        Operation::Control(op) => control_flow(op),
        Operation::Processor(Processor::Hlt) => Flow::Halt,
        _ => Flow::Next,
    }
}

/// How a jump without a condition, a call, a return or an interrupt leads on.
fn control_flow(op: Control) -> Flow
    ensures { result ≡ control_flow op }
{
    match op {
        Control::Jmp | Control::JmpFar => Flow::Jump,
        Control::Call | Control::CallFar => Flow::Call,
        Control::Ret | Control::Retf | Control::Iret => Flow::Return,
        Control::Int3 | Control::Int => Flow::Enter,
        Control::Into => Flow::MayEnter,
    }
}

/// The place to which an instruction leads, if not to the next one alone.
#[tactic(auto, unfolding(crate::specs::Flow::target_of))]
pub fn target_of(instr: &Instr) -> Target
    ensures { result ≡ target_of instr.now }
{
    match instr.form.row.operation() {
        Operation::Jump(_) | Operation::Looping(_) => near_target(instr),
        Operation::Product(Product::Div | Product::Idiv) => Target::Vector(0),
        Operation::Control(op) => control_target(instr, op),
        _ => Target::Next,
    }
}

/// The place to which a jump without a condition, a call, a return or an interrupt leads.
fn control_target(instr: &Instr, op: Control) -> Target
    ensures { result ≡ control_target instr.now op }
{
    match op {
        Control::Jmp | Control::Call => near_target(instr),
        Control::JmpFar | Control::CallFar => far_target(instr),
        Control::Ret | Control::Retf | Control::Iret => Target::Stack,
        Control::Int3 => Target::Vector(3),
        Control::Int => Target::Vector((instr.values.number % 256) as u8),
        Control::Into => Target::Vector(4),
    }
}

/// The place to which a near jump or call leads: its operand is a distance, a register or a word in memory.
fn near_target(instr: &Instr) -> Target
    ensures { result ≡ near_target instr.now }
{
    match first(instr) {
        Operand::Number(distance) => Target::Relative(distance),
        Operand::Word(_) => Target::Register,
        _ => Target::Memory,
    }
}

/// The place to which a far jump or call leads: it stands in the instruction or in memory.
fn far_target(instr: &Instr) -> Target
    ensures { result ≡ far_target instr.now }
{
    match first(instr) {
        Operand::Number(offset) => Target::Far(instr.values.segment, offset),
        _ => Target::Memory,
    }
}
