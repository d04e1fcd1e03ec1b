//! Instructions: the form that the table gives them, and the numbers in their fields.
ghost use Rattle.std.specs.Prelude.{◌≡◌, ◌≤◌, ◌^◌, true, length, IfSome};
ghost use Rattle.std.specs.List.{list_all};
ghost use Rattle.isa.specs.Encoding.{IsForm};
ghost use Rattle.assembler_syntax.specs.Weights.{is_displacement_within, is_operand_within};
ghost use Rattle.assembler_meaning.specs.Instructions.{IsFormFor, displacement_value, instruction_asked, instruction_size, known_memory, numbers_of, numbers_with, known_operand, override_of, prefixes_of};
ghost use Rattle.assembler_meaning.specs.Values.{AreSmall, term_limit};

use crate::constant::known_number;
use crate::symbol::{Symbols, label};
use crate::value::value_of;
use assembler_form::choose::choose;
use assembler_form::fields::Numbers;
use assembler_form::operand::{KnownMemory, KnownOperand, Number};
use assembler_syntax::operand::{Address, Operand};
use assembler_syntax::statement::Instruction;
use isa::form::Form;
use isa::register::SegmentRegister;

/// The greatest number of prefixes that an instruction may have, with the override of its operand.
const PREFIX_LIMIT: usize = 7;

/// The form that an instruction gets in the first pass. `None`, for which its line is refused, if no row of the
/// encoding table takes it, or it has more than two operands or more than seven prefixes.
#[tactic(auto, unfolding(crate::specs::Instructions::instruction_asked))]
pub fn form_of(symbols: &Symbols, instruction: &Instruction) -> Option<Form>
    requires small { AreSmall symbols.now.entries }
    requires short { list_all (is_operand_within term_limit) instruction.now.operands ≡ true }
    ensures chosen { IsFormFor (instruction_asked symbols.now.entries instruction.now) result }
    ensures form { IfSome result IsForm }
{
    if prefix_count(instruction) > PREFIX_LIMIT {
        return None;
    }
    let (first, second) = match instruction.operands.as_slice() {
        [] => (KnownOperand::Nothing, KnownOperand::Nothing),
        [first] => (known_operand(symbols, first), KnownOperand::Nothing),
        [first, second] => (
            known_operand(symbols, first),
            known_operand(symbols, second),
        ),
        _ => return None,
    };
    choose(instruction.mnemonic, first, second)
}

/// How many prefixes the instruction has, with the override written in its operand: each is a byte of its size, and at
/// most seven are allowed.
#[tactic(auto, unfolding(crate::specs::Instructions::prefixes_of))]
pub fn prefix_count(instruction: &Instruction) -> usize
    ensures { result ≡ length (prefixes_of instruction.now) }
{
    let written = instruction.prefixes.as_slice().len();
    match override_of(instruction) {
        Some(_) => written + 1,
        None => written,
    }
}

/// The segment register before a colon in the instruction's operand in memory, which gives an override prefix; `None`
/// if there is none. No row has two operands in memory.
pub fn override_of(instruction: &Instruction) -> Option<SegmentRegister>
    ensures { result ≡ override_of instruction.now.operands }
{
    for operand in instruction.operands.as_slice() {
        if let Operand::Memory(
            Address {
                segment: Some(segment),
                ..
            },
        ) = operand
        {
            return Some(*segment);
        }
    }
    None
}

/// What the first pass knows of an operand when it chooses the instruction's form: of its numbers only those that are
/// constants.
fn known_operand(symbols: &Symbols, operand: &Operand) -> KnownOperand
    requires small { AreSmall symbols.now.entries }
    requires short { is_operand_within term_limit operand.now ≡ true }
    ensures { result ≡ known_operand symbols.now.entries operand.now }
{
    match operand {
        Operand::Register(register) => KnownOperand::Register(*register),
        Operand::One => KnownOperand::One,
        Operand::Value(value) => KnownOperand::Number(known_number(symbols, value)),
        Operand::Memory(address) => KnownOperand::Memory(known_memory(symbols, address)),
        Operand::Short(_) => KnownOperand::Short,
        Operand::FarLabel(_) | Operand::FarPointer(_, _) => KnownOperand::Far,
    }
}

/// What the first pass knows of an operand in memory: its size and base as written, and its displacement as far as
/// `known_number` knows it; 0 for an operand without a displacement.
fn known_memory(symbols: &Symbols, address: &Address) -> KnownMemory
    requires small { AreSmall symbols.now.entries }
    requires short { is_displacement_within term_limit address.now.displacement ≡ true }
    ensures { result ≡ known_memory symbols.now.entries address.now }
{
    let displacement = match &address.displacement {
        Some(displacement) => known_number(symbols, displacement),
        None => Number::Constant(0),
    };
    KnownMemory {
        size: address.size,
        base: address.base,
        displacement,
    }
}

/// How many bytes the instruction has, with its prefixes: by this the first pass moves the location on.
pub fn instruction_size(form: Form, instruction: &Instruction) -> u64
    requires few { length (prefixes_of instruction.now) ≤ 7 }
    ensures value { result ≡ instruction_size form instruction.now }
    ensures bound { result ≤ 17 }
{
    prefix_count(instruction) as u64 + u64::from(form.length())
}

/// The numbers that an instruction's operands name, in a line at the offset `here`, for the second pass to put into its
/// fields. `None` if a name in them isn't defined, or is no label though one is wanted.
#[tactic(auto, unfolding(crate::specs::Instructions::numbers_of))]
pub fn numbers_of(symbols: &Symbols, here: u64, instruction: &Instruction) -> Option<Numbers>
    requires small { AreSmall symbols.now.entries }
    requires here { here ≤ 2 ^ 40 }
    requires short { list_all (is_operand_within term_limit) instruction.now.operands ≡ true }
    ensures { result ≡ numbers_of symbols.now.entries here instruction.now.operands }
{
    let mut numbers = Numbers {
        displacement: 0,
        number: 0,
        segment: 0,
    };
    for operand in instruction.operands.as_slice() {
        numbers = numbers_with(symbols, here, numbers, operand)?;
    }
    Some(numbers)
}

/// Adds the numbers of one more operand to those that an instruction's operands name, in a line at the offset `here`.
/// `None` if a name in it isn't defined. No row has two operands that name the same number.
fn numbers_with(
    symbols: &Symbols,
    here: u64,
    numbers: Numbers,
    operand: &Operand,
) -> Option<Numbers>
    requires small { AreSmall symbols.now.entries }
    requires here { here ≤ 2 ^ 40 }
    requires short { is_operand_within term_limit operand.now ≡ true }
    ensures { result ≡ numbers_with symbols.now.entries here numbers operand.now }
{
    match operand {
        Operand::Register(_) => Some(numbers),
        Operand::One => Some(Numbers {
            number: 1,
            ..numbers
        }),
        Operand::Value(value) | Operand::Short(value) => Some(Numbers {
            number: value_of(symbols, here, value)?,
            ..numbers
        }),
        Operand::Memory(address) => Some(Numbers {
            displacement: displacement_of(symbols, here, address)?,
            ..numbers
        }),
        Operand::FarLabel(name) => {
            let place = label(symbols, *name)?;
            Some(Numbers {
                number: place.offset as i64,
                segment: i64::from(place.segment),
                ..numbers
            })
        }
        Operand::FarPointer(segment, offset) => Some(Numbers {
            number: value_of(symbols, here, offset)?,
            segment: value_of(symbols, here, segment)?,
            ..numbers
        }),
    }
}

/// The value of an address's displacement, 0 if it has none; `None` if it names a symbol that isn't defined. `here` is
/// what `$` stands for.
fn displacement_of(symbols: &Symbols, here: u64, address: &Address) -> Option<i64>
    requires small { AreSmall symbols.now.entries }
    requires here { here ≤ 2 ^ 40 }
    requires short { is_displacement_within term_limit address.now.displacement ≡ true }
    ensures { result ≡ displacement_value symbols.now.entries here address.now.displacement }
{
    match &address.displacement {
        Some(displacement) => value_of(symbols, here, displacement),
        None => Some(0),
    }
}
