//! Random operands of instructions.

ghost use Rattle.std.specs.Prelude.{◌<◌};

use crate::chance::Chance;
use crate::code::Code;
use crate::program::{CODE_SIZE, DATA_AT};
use std::alloc::AllocError;

/// All word registers except DX, which counts the rounds, and SP.
const WORD_REGISTERS: [u8; 6] = [0, 1, 3, 5, 6, 7];

/// All byte registers except those of DX.
const BYTE_REGISTERS: [u8; 6] = [0, 1, 3, 4, 5, 7];

/// `[SI]`, `[DI]` and `[BX]`.
const BASES: [u8; 3] = [4, 5, 7];

/// `[BP]` and `[BX]`, with a displacement.
const DISPLACED: [u8; 2] = [6, 7];

/// Draws the number of a word register that a random instruction may change: not DX, which counts the loop's rounds,
/// nor SP.
pub fn word_register(chance: &mut Chance) -> u8
    ensures { result < 8 }
{
    chance.pick(&WORD_REGISTERS) % 8
}

/// Draws the number of a byte register that a random instruction may change: not DL or DH, as DX counts the loop's
/// rounds.
pub fn byte_register(chance: &mut Chance) -> u8
    ensures { result < 8 }
{
    chance.pick(&BYTE_REGISTERS) % 8
}

/// Draws the number of a register, of a word or a byte, that a random instruction may change.
pub fn register(chance: &mut Chance, is_word: bool) -> u8
    ensures { result < 8 }
{
    if is_word {
        word_register(chance)
    } else {
        byte_register(chance)
    }
}

/// Draws the offset of a byte of data, or once in four of the random code, to which an instruction may then store.
pub fn offset(chance: &mut Chance) -> u16 {
    if chance.once_in(4) {
        chance.below(CODE_SIZE)
    } else {
        DATA_AT + chance.below(200)
    }
}

/// Puts the addressing byte of an instruction that has a register operand, `register`, and another register or
/// operation code, `reg`.
pub fn put_register(code: &mut Code, reg: u8, register: u8) -> Result<(), AllocError>
    requires reg { reg < 8 }
    requires register { register < 8 }
{
    code.put(0xC0 + 8 * reg + register)
}

/// Puts the addressing byte, and a displacement or an offset, of an instruction that has a random memory operand and a
/// register or operation code, `reg`.
pub fn put_memory(chance: &mut Chance, code: &mut Code, reg: u8) -> Result<(), AllocError>
    requires { reg < 8 }
{
    match chance.below(4) {
        0 => code.put(8 * reg + chance.pick(&BASES) % 8),
        1 => {
            code.put(0x40 + 8 * reg + chance.pick(&DISPLACED) % 8)?;
            code.put(chance.byte())
        }
        _ => {
            code.put(8 * reg + 6)?;
            code.put_word(offset(chance))
        }
    }
}
