//! A random program, with what sets the board up for it.

use crate::chance::Chance;
use crate::code::Code;
use crate::instructions::{put_block_step, put_instruction, put_text_access};
use anyhow::{Result, bail};
use assembler::assembly::assemble;
use board_types::image::{Image, is_loadable};
use std::alloc::{AllocError, Global};

/// The random code has about this many bytes, from 0100:0000 on.
pub const CODE_SIZE: u16 = 0x180;

/// The offset at which the random code's data begin.
pub const DATA_AT: u16 = 0x300;

/// The offset of the routine that the random code calls.
pub const ROUTINE_AT: u16 = 0x2F0;

/// The address at which the random code begins.
const CODE_AT: u32 = 0x1000;

/// How far apart two pieces of random code stand, by the seed.
const DISTANCES: [u16; 3] = [0x1000, 0x1800, 0x2000];

/// INC AX; RET, the routine that the random code calls.
const ROUTINE: [u8; 2] = [0x40, 0xC3];

/// What the loops of a random program are made of.
#[derive(Clone, Copy)]
pub enum Shape {
    /// Random instructions of all kinds.
    Mixed,
    /// Every other one accesses text memory, up to and past its last byte.
    Text,
    /// Random instructions in two pieces of code 4,096, 6,144 or 8,192 bytes apart, of which the second stores into the
    /// first.
    Apart,
    /// Steps that blocks have: a loop is one block that leads back to its own start.
    Rounds,
}

/// The source around the random code: it sets the segments, lets timer and keyboard interrupt, and jumps to the random
/// code. All interrupts have one handler.
const AROUND: &str = "SEGMENT BEFORE AT 0F000h
start:  MOV AX,100h
        MOV DS,AX
        MOV ES,AX
        MOV SS,AX
        MOV SP,0E00h
        MOV AL,13h              ; the controller: a single one, by edges
        OUT 20h,AL
        MOV AL,8
        OUT 21h,AL
        MOV AL,9
        OUT 21h,AL
        MOV AL,0FCh
        OUT 21h,AL
        MOV AL,99h              ; the parallel port: A and C are inputs
        OUT 63h,AL
        MOV AL,34h              ; counter 0: mode 2; the random code gives it a count
        OUT 43h,AL
        MOV AL,96h              ; counter 2: mode 3
        OUT 43h,AL
        MOV AL,60
        OUT 42h,AL
        JMP FAR 100h:0
ENDS

SEGMENT RESET AT 0FFFFh
        JMP FAR start
ENDS

SEGMENT MAIN AT 100h
        ORG 2C0h
handle: PUSH AX
        IN AL,60h
        IN AL,61h
        MOV AH,AL
        OR AL,80h
        OUT 61h,AL
        MOV AL,AH
        OUT 61h,AL
        MOV AL,20h
        OUT 20h,AL
        POP AX
        IRET
        ORG 2F0h
        INC AX
        RET
ENDS

SEGMENT VECTORS AT 0
        DW 256 DUP(handle,SEG handle)
ENDS
";

/// The image of the program of this shape that a seed decides, with what sets the board up and handles interrupts around
/// the random code, for the boards that are compared.
pub fn random_image(alloc: Global, shape: Shape, seed: u64) -> Result<Image> {
    let listing = match assemble(alloc, AROUND.as_bytes()) {
        Ok(listing) => listing,
        Err(_) => bail!("the setup isn't assembled"),
    };
    let mut image = Image::new(alloc);
    for (addr, byte) in listing.image().iter() {
        put_in(&mut image, *addr, *byte)?;
    }
    let mut chance = Chance::new(seed);
    if !matches!(shape, Shape::Apart) {
        let code = random_code(alloc, shape, &mut chance, None)?;
        put_code(&mut image, 0, code.bytes.as_slice())?;
        return Ok(image);
    }
    let distance = DISTANCES[(seed % 3) as usize];
    let first = random_code(alloc, shape, &mut chance, Some(distance))?;
    put_code(&mut image, 0, first.bytes.as_slice())?;
    let second = random_code(alloc, shape, &mut chance, Some(0u16.wrapping_sub(distance)))?;
    put_code(&mut image, distance, second.bytes.as_slice())?;
    put_code(&mut image, distance.saturating_add(ROUTINE_AT), &ROUTINE)?;
    Ok(image)
}

/// Puts bytes of the random code into its image, from this offset of its segment on.
fn put_code(image: &mut Image, offset: u16, bytes: &[u8]) -> Result<(), AllocError> {
    let mut addr = CODE_AT + u32::from(offset);
    for byte in bytes {
        put_in(image, addr, *byte)?;
        addr = addr.saturating_add(1);
    }
    Ok(())
}

/// Puts a byte of the program into its image, if its address is loadable.
fn put_in(image: &mut Image, addr: u32, byte: u8) -> Result<(), AllocError> {
    if !is_loadable(addr) {
        return Ok(());
    }
    image.put(addr, byte)
}

/// The random code of a program: loops of random instructions, with stores into them in between, again and again. It
/// goes on at the offset `to`, counted from its own start, or with its first loop if there is none.
fn random_code(
    alloc: Global,
    shape: Shape,
    chance: &mut Chance,
    to: Option<u16>,
) -> Result<Code, AllocError> {
    let mut code = Code::new(alloc);
    put_counts(chance, &mut code)?;
    let begin = code.here();
    for _ in 0..2 + chance.below(3) {
        put_rounds(shape, chance, &mut code)?;
        put_stores(chance, &mut code)?;
    }
    put_jump_back(&mut code, to.unwrap_or(begin))?;
    Ok(code)
}

/// Puts the start of the random code: it gives counter 0 a count, 256 to 1,279, so that the timer interrupts, and
/// enables interrupts or disables them.
fn put_counts(chance: &mut Chance, code: &mut Code) -> Result<(), AllocError> {
    for byte in [chance.byte(), 1 + chance.byte() % 4] {
        code.put_all(&[0xB0, byte, 0xE6, 0x40])?;
    }
    code.put(if chance.once_in(3) { 0xFA } else { 0xFB })
}

/// Puts a loop of 10 to 33 rounds into the random code: MOV DX, random instructions, DEC DX, and a jump back to them,
/// short if it can be; half of them also store into themselves in the end.
fn put_rounds(shape: Shape, chance: &mut Chance, code: &mut Code) -> Result<(), AllocError> {
    code.put(0xBA)?;
    code.put_word(10 + chance.below(24))?;
    code.close()?;
    let creeps = chance.once_in(2) && !matches!(shape, Shape::Rounds);
    if creeps {
        put_start_of_creep(chance, code)?;
    }
    let begin = code.here();
    for _ in 0..3 + chance.below(8) {
        put_one_of(shape, chance, code)?;
        code.close()?;
    }
    if creeps {
        // MOV [BX],AL; DEC BX
        code.put_all(&[0x88, 0x07, 0x4B])?;
    }
    code.put(0x4A)?;
    put_round_back(code, begin)
}

/// Puts an instruction of a loop of this shape.
fn put_one_of(shape: Shape, chance: &mut Chance, code: &mut Code) -> Result<(), AllocError> {
    match shape {
        Shape::Text if chance.once_in(2) => put_text_access(chance, code),
        Shape::Rounds => put_block_step(chance, code),
        _ => put_instruction(chance, code),
    }
}

/// Puts MOV BX with an offset some bytes from here before a loop: the loop's store at BX, which goes down by one each
/// round, comes to the loop's own code after some rounds.
fn put_start_of_creep(chance: &mut Chance, code: &mut Code) -> Result<(), AllocError> {
    let offset = code.here() + 10 + chance.below(30);
    code.put(0xBB)?;
    code.put_word(offset)?;
    code.close()
}

/// Puts JNZ, or JZ over a JMP, back to the loop's first instruction, according to how far that is.
fn put_round_back(code: &mut Code, begin: u16) -> Result<(), AllocError> {
    let size = code.here().saturating_sub(begin);
    if size < 120 {
        return code.put_all(&[0x75, (254 - size) as u8]);
    }
    code.put_all(&[0x74, 0x03])?;
    put_jump_back(code, begin)
}

/// Puts up to two stores into instructions put so far, INC BYTE [..] or MOV BYTE [..],number, so that they change
/// between loops.
fn put_stores(chance: &mut Chance, code: &mut Code) -> Result<(), AllocError> {
    for _ in 0..chance.below(3) {
        let offset = code.some_last(chance);
        if chance.once_in(2) {
            code.put_all(&[0xFE, 0x06])?;
            code.put_word(offset)?;
        } else {
            code.put_all(&[0xC6, 0x06])?;
            code.put_word(offset)?;
            code.put(chance.byte() % 8)?;
        }
    }
    Ok(())
}

/// Puts a near JMP back to a place in the code, for the program's endless loop or a round too long for a short jump.
fn put_jump_back(code: &mut Code, to: u16) -> Result<(), AllocError> {
    let next = code.here() + 3;
    code.put(0xE9)?;
    code.put_word(to.wrapping_sub(next))
}
