//! The bytes of lines.
ghost use Rattle.std.specs.Prelude.{◌≡◌, ◌≤◌, ◌^◌, ◌++◌, true, map, IfOk, OnOk};
ghost use Rattle.std.specs.List.{flat_map, list_all};
ghost use Rattle.isa.specs.Encoding.{FitsForm, IsForm, prefix_byte};
ghost use Rattle.assembler_syntax.specs.Weights.{is_item_within, is_piece_within};
ghost use Rattle.assembler_meaning.specs.Data.{data_bytes, number_bytes, piece_bytes, repeated};
ghost use Rattle.assembler_meaning.specs.Instructions.{override_prefix, prefixes_of, code_bytes};
ghost use Rattle.assembler_meaning.specs.Values.{AreSmall, term_limit};

use crate::data::{item_count, item_pieces};
use crate::instruction::override_of;
use crate::symbol::Symbols;
use crate::value::value_of;
use assembler_syntax::statement::{DataWidth, Instruction, Item, Piece};
use isa::encoding::encode;
use isa::form::{Form, Prefix, Values};
use isa::register::SegmentRegister;
use std::alloc::{AllocError, Global};

/// The bytes of an instruction, which the second pass puts into the image: its prefixes, the override of its operand in
/// memory, and the form's bytes with these numbers in their fields.
pub fn instruction_bytes(
    alloc: Global,
    form: &Form,
    values: Values,
    instruction: &Instruction,
) -> Result<Vec<u8>, AllocError>
    requires form { IsForm form.now }
    requires values { FitsForm form.now values }
    ensures { IfOk result (λ bytes. bytes.items ≡ code_bytes form.now instruction.now values) }
{
    let mut bytes = prefix_bytes(alloc, instruction)?;
    bytes.extend_from_slice(encode(form, values).as_slice())?;
    Ok(bytes)
}

/// The bytes of an instruction's prefixes: those written before its mnemonic, in their order, and last the override
/// written in its operand in memory.
fn prefix_bytes(alloc: Global, instruction: &Instruction) -> Result<Vec<u8>, AllocError>
    ensures { IfOk result (λ bytes. bytes.items ≡ map prefix_byte (prefixes_of instruction.now)) }
{
    let mut bytes = Vec::new(alloc);
    for prefix in instruction.prefixes.as_slice() {
        bytes.push(prefix.byte())?;
    }
    push_override(&mut bytes, override_of(instruction))?;
    Ok(bytes)
}

/// Adds the byte of the segment override that is written in an operand in memory, if there is one, to an instruction's
/// prefixes.
fn push_override(bytes: &mut Vec<u8>, segment: Option<SegmentRegister>) -> Result<(), AllocError>
    ensures { OnOk result (bytes.new.items ≡ bytes.old.items ++ map prefix_byte (override_prefix segment)) }
{
    if let Some(segment) = segment {
        bytes.push(Prefix::Segment(segment).byte())?;
    }
    Ok(())
}

/// The bytes that a data line at the offset `here` places, with what DUP repeats, for the second pass to put into the
/// image.
#[tactic(auto, unfolding(crate::specs::Data::data_bytes))]
pub fn data_bytes(
    alloc: Global,
    symbols: &Symbols,
    here: u64,
    width: DataWidth,
    items: &[Item],
) -> Result<Vec<u8>, AllocError>
    requires small { AreSmall symbols.now.entries }
    requires here { here ≤ 2 ^ 40 }
    requires short { list_all (is_item_within term_limit) items.now ≡ true }
    ensures { IfOk result (λ bytes. bytes.items ≡ data_bytes symbols.now.entries here width items.now) }
{
    let mut bytes = Vec::new(alloc);
    for item in items {
        let once = pieces_bytes(alloc, symbols, here, width, item_pieces(item))?;
        push_repeated(&mut bytes, once.as_slice(), item_count(symbols, item))?;
    }
    Ok(bytes)
}

/// Adds the bytes of an item of a data line, as many times as its count before DUP says.
#[tactic(auto, using(crate::proofs::LeavesBytes::repeated_more))]
fn push_repeated(bytes: &mut Vec<u8>, once: &[u8], times: u64) -> Result<(), AllocError>
    ensures { OnOk result (bytes.new.items ≡ bytes.old.items ++ repeated times once.now) }
{
    for _ in 0..times {
        bytes.extend_from_slice(once)?;
    }
    Ok(())
}

/// The bytes of an item of a data line at the offset `here`, placed once: numbers low byte first, and texts character
/// by character. A number without a value leaves none; such a line is refused before.
fn pieces_bytes(
    alloc: Global,
    symbols: &Symbols,
    here: u64,
    width: DataWidth,
    pieces: &[Piece],
) -> Result<Vec<u8>, AllocError>
    requires small { AreSmall symbols.now.entries }
    requires here { here ≤ 2 ^ 40 }
    requires short { list_all (is_piece_within term_limit) pieces.now ≡ true }
    ensures { IfOk result (λ bytes. bytes.items ≡ flat_map (piece_bytes symbols.now.entries here width) pieces.now) }
{
    let mut bytes = Vec::new(alloc);
    for piece in pieces {
        match piece {
            Piece::Text(text) => bytes.extend_from_slice(text.as_slice())?,
            Piece::Value(value) => {
                if let Some(number) = value_of(symbols, here, value) {
                    push_number(&mut bytes, number, width)?;
                }
            }
        }
    }
    Ok(bytes)
}

/// Adds a number of a data line to its bytes: 1, 2 or 4 of them, low byte first, a negative number as its two's
/// complement.
fn push_number(bytes: &mut Vec<u8>, number: i64, width: DataWidth) -> Result<(), AllocError>
    ensures { OnOk result (bytes.new.items ≡ bytes.old.items ++ number_bytes width number) }
{
    match width {
        DataWidth::Byte => bytes.push(number.rem_euclid(0x100) as u8)?,
        DataWidth::Word => {
            bytes.extend_from_slice(&(number.rem_euclid(0x1_0000) as u16).to_le_bytes())?
        }
        DataWidth::Double => {
            bytes.extend_from_slice(&(number.rem_euclid(0x1_0000_0000) as u32).to_le_bytes())?
        }
    }
    Ok(())
}
