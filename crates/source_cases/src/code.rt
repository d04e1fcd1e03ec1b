//! Bytes at an address.

use arrayvec::ArrayVec;
use board_types::address::physical;
use board_types::bytes::Bytes;
use board_types::image::Image;
use decode::decode::decoding_at;
use decode::decoding::Decoding;
use isa::form::Instr;

/// The segment of the instructions.
pub const SEGMENT: u16 = 0x1000;

/// The offset of the instructions. No short target wraps from there.
pub const OFFSET: u16 = 0x4000;

/// The first bytes at the offset; all others are 0.
#[derive(Drop)]
pub struct Code {
    bytes: ArrayVec<u8, 16>,
}

impl Code {
    /// The bytes that a `back` case decodes: a prefix if there is one, an opcode, its addressing byte (mod, reg, r/m)
    /// and the four bytes after that.
    pub fn new(prefix: Option<u8>, opcode: u8, addressing: u8, tail: [u8; 4]) -> Code {
        let mut bytes = ArrayVec::new();
        if let Some(prefix) = prefix {
            let _ = bytes.try_push(prefix);
        }
        let _ = bytes.try_push(opcode);
        let _ = bytes.try_push(addressing);
        let _ = bytes.try_extend_from_slice(&tail);
        Code { bytes }
    }

    /// The first 16 bytes that an assembled image has at the offset, 0 for those it lacks, so that what was assembled
    /// can be decoded.
    pub fn of_image(image: &Image) -> Code {
        let mut bytes = ArrayVec::new();
        for n in 0..16u16 {
            let byte = image.get(physical(SEGMENT, OFFSET + n)).unwrap_or(0);
            let _ = bytes.try_push(byte);
        }
        Code { bytes }
    }

    /// The instruction that is decoded at the offset; `None` if the encoding table has no row for the bytes.
    pub fn instruction(&self) -> Option<Instr> {
        match decoding_at(self, SEGMENT, OFFSET) {
            Decoding::Found(instr, _) => Some(instr),
            Decoding::NoRow => None,
        }
    }
}

impl Bytes for Code {
    ghost use Rattle.std.specs.Prelude.{◌+◌, ◌%◌, slice_index_or};

    ghost byte_at = { λ c address. slice_index_or c.bytes.items ((address + 0xEC000) % 0x100000) 0 };

    /// The byte at a physical address, for decoding: one of the code's bytes, counted from 1000:4000, or 0.
    fn byte(&self, addr: u32) -> u8 {
        let index = (addr + 0xE_C000) % 0x10_0000;
        match self.bytes.as_slice().get(index as usize) {
            Some(byte) => *byte,
            None => 0,
        }
    }
}
