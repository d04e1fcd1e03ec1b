//! Random instructions, chosen so that most do something and few lead nowhere.

use crate::chance::Chance;
use crate::code::Code;
use crate::operands::{byte_register, offset, put_memory, put_register, register, word_register};
use crate::program::{DATA_AT, ROUTINE_AT};
use std::alloc::AllocError;

/// Opcodes of two byte operands: ADD, OR, ADC, SBB, AND, SUB, XOR, CMP, TEST, XCHG, MOV.
const OF_TWO: [u8; 11] = [
    0x00, 0x08, 0x10, 0x18, 0x20, 0x28, 0x30, 0x38, 0x84, 0x86, 0x88,
];

/// Opcodes of two byte operands that blocks have: ADD, AND, SUB, XOR, CMP, MOV.
const OF_BLOCKS: [u8; 6] = [0x00, 0x20, 0x28, 0x30, 0x38, 0x88];

/// Accesses to text memory begin at this offset of it or up to 31 bytes further on; its last byte stands at FFFh.
const TEXT_NEAR_END: u16 = 0xFE8;

/// String instructions: MOVSB, MOVSW, CMPSB, STOSB, STOSW, LODSB, LODSW, SCASW.
const STRINGS: [u8; 8] = [0xA4, 0xA5, 0xA6, 0xAA, 0xAB, 0xAC, 0xAD, 0xAF];

/// Opcodes without operands: CLI, STI, CBW, CWD, LAHF, SAHF, XLAT, DAA, CMC, CLD, NOP.
const ALONE: [u8; 11] = [
    0xFA, 0xFB, 0x98, 0x99, 0x9F, 0x9E, 0xD7, 0x27, 0xF5, 0xFC, 0x90,
];

/// The high bytes of segments in RAM, text memory, ROM and unused addresses.
const SEGMENTS: [u8; 4] = [0x01, 0xB0, 0xF0, 0x40];

/// Puts a random instruction, or a few that belong together, into the program's loops; common ones come more often.
pub fn put_instruction(chance: &mut Chance, code: &mut Code) -> Result<(), AllocError> {
    match chance.below(24) {
        0..=3 => put_two_operands(chance, code),
        4..=6 => put_load(chance, code),
        7 | 8 => put_immediate(chance, code),
        9 | 10 => put_jump(chance, code),
        11 => put_store_nearby(chance, code),
        12 => put_shift(chance, code),
        13 => put_unary(chance, code),
        14 => put_stack(chance, code),
        15 => put_segment(chance, code),
        16 => put_string(chance, code),
        17 => put_call(code),
        18 => put_loop(chance, code),
        19 => put_port(chance, code),
        20 | 21 => put_step(chance, code),
        22 => put_compare_and_jump(chance, code),
        _ => code.put(chance.pick(&ALONE)),
    }
}

/// Puts an operation on two registers, or on a register and memory, such as ADD or MOV, into a random program.
fn put_two_operands(chance: &mut Chance, code: &mut Code) -> Result<(), AllocError> {
    let is_word = chance.once_in(2);
    let to_register = chance.once_in(2);
    let opcode = chance.pick(&OF_TWO) % 0x89;
    code.put(opcode + u8::from(is_word) + if to_register && opcode != 0x84 { 2 } else { 0 })?;
    let reg = register(chance, is_word);
    if chance.once_in(2) {
        let other = register(chance, is_word);
        return put_register(code, reg, other);
    }
    put_memory(chance, code, reg)
}

/// Puts MOV of a number into a register, mostly the offset of a byte to which later instructions store, into a random
/// program.
fn put_load(chance: &mut Chance, code: &mut Code) -> Result<(), AllocError> {
    if chance.once_in(4) {
        code.put(0xB0 + byte_register(chance))?;
        return code.put(chance.byte());
    }
    code.put(0xB8 + word_register(chance))?;
    let number = offset(chance);
    code.put_word(number)
}

/// Puts an operation of a memory word or a register with a byte that is extended by its sign (opcode 83h) into a random
/// program.
fn put_immediate(chance: &mut Chance, code: &mut Code) -> Result<(), AllocError> {
    let operation = chance.byte() % 8;
    code.put(0x83)?;
    if chance.once_in(2) {
        let register = word_register(chance);
        put_register(code, operation, register)?;
    } else {
        put_memory(chance, code, operation)?;
    }
    code.put(chance.byte())
}

/// Puts a short jump over a few bytes, mostly a conditional one, into a random program; it may end in the middle of an
/// instruction.
fn put_jump(chance: &mut Chance, code: &mut Code) -> Result<(), AllocError> {
    if chance.once_in(8) {
        code.put(0xEB)?;
    } else {
        code.put(0x70 + chance.byte() % 16)?;
    }
    code.put(chance.byte() % 7)
}

/// Puts a comparison or test of registers and a short jump by its flags into a random program, as the run's loop makes
/// them together.
fn put_compare_and_jump(chance: &mut Chance, code: &mut Code) -> Result<(), AllocError> {
    let is_word = chance.once_in(2);
    code.put(chance.pick(&[0x38, 0x84]) % 0x85 + u8::from(is_word))?;
    let reg = register(chance, is_word);
    let other = register(chance, is_word);
    put_register(code, reg, other)?;
    put_jump(chance, code)
}

/// Puts a store into one of the bytes shortly before or after this place into a random program, so that it changes
/// itself.
fn put_store_nearby(chance: &mut Chance, code: &mut Code) -> Result<(), AllocError> {
    let near = (code.here() + 24).saturating_sub(chance.below(40));
    match chance.below(3) {
        // MOV BYTE [near],number
        0 => {
            code.put_all(&[0xC6, 0x06])?;
            code.put_word(near)?;
            code.put(chance.byte())
        }
        // MOV [near],AX
        1 => {
            code.put(0xA3)?;
            code.put_word(near)
        }
        // INC BYTE [near]
        _ => {
            code.put_all(&[0xFE, 0x06])?;
            code.put_word(near)
        }
    }
}

/// Puts a shift or rotation of a register or of memory, by 1 or CL, into a random program.
fn put_shift(chance: &mut Chance, code: &mut Code) -> Result<(), AllocError> {
    let is_word = chance.once_in(2);
    let by_cl = if chance.once_in(3) { 2 } else { 0 };
    code.put(0xD0 + u8::from(is_word) + by_cl)?;
    let operation = chance.pick(&[0, 1, 2, 3, 4, 5, 7]) % 8;
    if chance.once_in(4) {
        return put_memory(chance, code, operation);
    }
    let register = register(chance, is_word);
    put_register(code, operation, register)
}

/// Puts NOT, NEG, MUL, IMUL, DIV or IDIV of a register or of memory into a random program.
fn put_unary(chance: &mut Chance, code: &mut Code) -> Result<(), AllocError> {
    let is_word = chance.once_in(2);
    let operation = chance.pick(&[2, 3, 4, 5, 6, 7]) % 8;
    code.put(0xF6 + u8::from(is_word))?;
    if chance.once_in(4) {
        return put_memory(chance, code, operation);
    }
    let register = register(chance, is_word);
    put_register(code, operation, register)
}

/// Puts a push of a register, memory or a segment register, and a pop, into a random program.
fn put_stack(chance: &mut Chance, code: &mut Code) -> Result<(), AllocError> {
    match chance.below(4) {
        0 => {
            code.put(0xFF)?;
            put_memory(chance, code, 6)?;
        }
        1 => code.put(chance.pick(&[0x06, 0x0E, 0x16, 0x1E]))?,
        _ => code.put(0x50 + word_register(chance))?,
    }
    if chance.once_in(5) {
        return code.put(0x07);
    }
    code.put(0x58 + word_register(chance))
}

/// Puts into a random program a load of ES with a segment of RAM, text memory, ROM or nothing, and then either a
/// store through ES or a load of ES with CS.
fn put_segment(chance: &mut Chance, code: &mut Code) -> Result<(), AllocError> {
    code.put(0xB8)?;
    code.put_word(u16::from(chance.pick(&SEGMENTS)) * 256)?;
    code.put_all(&[0x8E, 0xC0])?;
    match chance.below(4) {
        // MOV ES:[DI],AX
        0 | 1 => code.put_all(&[0x26, 0x89, 0x05]),
        // STOSW
        2 => code.put(0xAB),
        // PUSH CS; POP ES
        _ => code.put_all(&[0x0E, 0x07]),
    }
}

/// Puts into a random program an access by ES:DI to text memory, up to its last byte or past it.
pub fn put_text_access(chance: &mut Chance, code: &mut Code) -> Result<(), AllocError> {
    // MOV BP,0B000h; MOV ES,BP; MOV DI,number
    code.put_all(&[0xBD, 0x00, 0xB0, 0x8E, 0xC5, 0xBF])?;
    code.put_word(TEXT_NEAR_END + chance.below(32))?;
    match chance.below(6) {
        // MOV ES:[DI],AX; MOV AX,ES:[DI]; ADD ES:[DI],AX; MOV ES:[DI],AL
        0 => code.put_all(&[0x26, 0x89, 0x05]),
        1 => code.put_all(&[0x26, 0x8B, 0x05]),
        2 => code.put_all(&[0x26, 0x01, 0x05]),
        3 => code.put_all(&[0x26, 0x88, 0x05]),
        // MOV CX,8; REP STOSW
        4 => code.put_all(&[0xB9, 0x08, 0x00, 0xF3, 0xAB]),
        // MOV CX,8; MOV SI,0FF0h; REP MOVSW from ES
        _ => code.put_all(&[0xB9, 0x08, 0x00, 0xBE, 0xF0, 0x0F, 0xF3, 0x26, 0xA5]),
    }
}

/// Puts a step that a block can have into a random program: MOV or an operation on two registers, or on a register and
/// a byte or word of data.
pub fn put_block_step(chance: &mut Chance, code: &mut Code) -> Result<(), AllocError> {
    let is_word = chance.once_in(2);
    code.put(
        chance.pick(&OF_BLOCKS) % 0x89 + u8::from(is_word) + if chance.once_in(2) { 2 } else { 0 },
    )?;
    let reg = register(chance, is_word);
    if chance.once_in(2) {
        let other = register(chance, is_word);
        return put_register(code, reg, other);
    }
    code.put(8 * reg + 6)?;
    code.put_word(DATA_AT + chance.below(200))
}

/// Puts a string instruction, perhaps repeated up to five times, into a random program.
fn put_string(chance: &mut Chance, code: &mut Code) -> Result<(), AllocError> {
    if chance.once_in(2) {
        code.put(0xB9)?;
        code.put_word(chance.below(6))?;
        code.put(chance.pick(&[0xF2, 0xF3]))?;
    }
    code.put(chance.pick(&STRINGS))
}

/// Puts a CALL of the routine after the code, which only increments AX, into a random program.
fn put_call(code: &mut Code) -> Result<(), AllocError> {
    let next = code.here() + 3;
    code.put(0xE8)?;
    code.put_word(ROUTINE_AT.wrapping_sub(next))
}

/// Puts a loop of up to 40 rounds into a random program: a LOOP to itself, DEC and JNZ, or LOOP around an ADD.
fn put_loop(chance: &mut Chance, code: &mut Code) -> Result<(), AllocError> {
    code.put(0xB9)?;
    code.put_word(1 + chance.below(40))?;
    match chance.below(3) {
        0 => { code.put_all(&[0xE2, 0xFE]) }
        1 => {
            code.put_all(&[0x49, 0x75])?;
            code.put(0xFD)
        }
        _ => {
            code.put(0x01)?;
            put_register(code, 0, 3)?;
            code.put_all(&[0xE2, 0xFC])
        }
    }
}

/// Puts IN from the timer (40h, 42h), port B (61h) or the interrupt controller (20h), or, once in three, OUT to port B,
/// into a random program.
fn put_port(chance: &mut Chance, code: &mut Code) -> Result<(), AllocError> {
    if chance.once_in(3) {
        code.put(0xE6)?;
        return code.put(0x61);
    }
    code.put(0xE4)?;
    code.put(chance.pick(&[0x40, 0x42, 0x61, 0x20]))
}

/// Puts INC or DEC of a register or of memory into a random program.
fn put_step(chance: &mut Chance, code: &mut Code) -> Result<(), AllocError> {
    if chance.once_in(2) {
        code.put(0xFE + chance.byte() % 2)?;
        let operation = chance.byte() % 2;
        return put_memory(chance, code, operation);
    }
    let base = if chance.once_in(2) { 0x40 } else { 0x48 };
    code.put(base + word_register(chance))
}
