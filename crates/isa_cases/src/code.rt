//! Bytes at an offset of a segment near the end of the memory map.

use anyhow::{Context, Result, bail};
use arrayvec::ArrayVec;
use board_types::bytes::Bytes;

/// The segment of all cases. Its offsets from 8000h on wrap at 2^20.
pub const SEGMENT: u16 = 0xF800;

/// The first bytes from an offset of the segment on; all others are 90h.
#[derive(Drop)]
pub struct Code {
    pub ip: u16,
    pub bytes: ArrayVec<u8, 16>,
}

impl Code {
    /// Reads a case's instruction: the bytes of a word's digits, two for each and at most 16, from the offset `ip` on.
    pub fn read(ip: &str, digits: &str) -> Result<Code> {
        let mut bytes = ArrayVec::new();
        for i in 0..digits.len() / 2 {
            let pair = digits.get(2 * i..2 * i + 2).context("no digits")?;
            if bytes.try_push(u8::from_str_radix(pair, 16)?).is_err() {
                bail!("more than 16 bytes");
            }
        }
        Ok(Code {
            ip: u16::from_str_radix(ip, 16)?,
            bytes,
        })
    }

    /// The byte that stands `index` bytes after the offset, to be compared with an instruction encoded again; 90h after
    /// the case's bytes.
    pub fn at(&self, index: usize) -> u8 {
        self.bytes.as_slice().get(index).copied().unwrap_or(0x90)
    }
}

impl Bytes for Code {
    ghost use Rattle.std.specs.Prelude.{◌+◌, ◌*◌, ◌-◌, ◌%◌, slice_index_or};

    ghost byte_at = { λ c address. slice_index_or c.bytes.items
        ((((address + 0x100000) - 16 * 0xF800) + (0x10000 - c.ip)) % 0x10000) 0x90 };

    /// The byte at a physical address, for decoding: one of the case's bytes, whose offset may wrap at the segment's
    /// end, or 90h.
    fn byte(&self, addr: u32) -> u8 {
        let ip = self.ip;
        let offset = addr + 0x10_0000 - 16 * u32::from(SEGMENT);
        let index = (offset + (0x1_0000 - u32::from(ip))) % 0x1_0000;
        match self.bytes.as_slice().get(index as usize) {
            Some(byte) => *byte,
            None => 0x90,
        }
    }
}
