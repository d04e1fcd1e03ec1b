//! The memory map, and what a board's memory holds at power-on.
ghost use Rattle.std.specs.Prelude.{ℕ, ◌≡◌, ◌<◌, ◌≤◌, ◌*◌, ◌+◌, ◌%◌, ◌/◌, ◌^◌, ◌⊎◌, ◌≢◌, IfOk, IfSome, OnOk, IsTrue, ◌↔◌, length, map, slice_index, unwrap_or};
ghost use Rattle.std.specs.Int.{to_le_bytes, w64};
ghost use Rattle.std.specs.List.{range_with_len};
ghost use Rattle.std.specs.Result.{IsErrOf};
ghost use Rattle.board_types.specs.Image.{image_byte};
ghost use Rattle.memory.specs.Regions.{IsTextAddress};
ghost use Rattle.memory.specs.declared.map.MemoryFault.TheVariants.{OutOfMemory};
ghost use Rattle.memory.specs.MapCells.{with_cell};
ghost use Rattle.memory.specs.Map.{byte_at, with_byte, power_on, memory_fault_number, IsRamSize, FitsRam, IsMap};

use crate::region::{Region, region_of};
use board_types::address::{ADDRESS_COUNT, RAM_LIMIT, ROM_START};
use board_types::image::Image;
use std::alloc::{AllocError, Global};
use std::marker::Model;
use thiserror::Error;

/// How many bytes of ROM there are: it ends where the addresses do.
const ROM_SIZE: u32 = ADDRESS_COUNT - ROM_START;

/// Why a memory can't be made.
#[derive(Clone, Copy, Debug, PartialEq, Eq, Drop, Error)]
pub enum MemoryFault {
    #[error("the RAM's size isn't a multiple of 16 KB from 16 to 640, or the image goes past it")]
    RamSize,
    #[error("out of memory")]
    OutOfMemory,
}

impl MemoryFault {
    /// The number by which the user and a calling program are told the fault.
    pub fn number(self) -> u8
        ensures { result ≡ memory_fault_number self }
    {
        match self {
            MemoryFault::RamSize => 36,
            MemoryFault::OutOfMemory => 41,
        }
    }
}

impl From<AllocError> for MemoryFault {
    ghost from_gives = { λ _ fault. fault ≡ OutOfMemory };

    /// Makes a refused allocation the fault `OutOfMemory`, so that `?` passes it on.
    fn from(_error: AllocError) -> MemoryFault {
        MemoryFault::OutOfMemory
    }
}

/// The board's memory: the bytes of RAM and of the ROM. No room is taken for the addresses between them, since nothing
/// changes there.
#[derive(Drop)]
pub struct Memory {
    ram_size: u32,
    /// The bytes from 0 on, `ram_size` of them.
    ram: Vec<u8>,
    /// The bytes from F0000h on.
    rom: Vec<u8>,
}

impl Model for Memory {
    ghost use Rattle.std.specs.Prelude.{◌≡◌, ◌≤◌, length};
    ghost use Rattle.memory.specs.Map.{MemoryMap};
    ghost use Rattle.memory.specs.MapLayout.{map_of};

    ghost Value = { MemoryMap };

    ghost view = { λ m. map_of m.ram.items m.rom.items };

    ghost invariant = { λ m. ((length m.ram.items ≤ 0xA0000) × (length m.rom.items ≡ 65536))
        × (m.ram_size ≡ length m.ram.items) };
}

impl Memory {
    /// The memory at power-on of a board with `ram_kb` times 1,024 bytes of RAM: RAM is 0 and the ROM FFh, but for the
    /// image's bytes. Refused as `RamSize` if the size isn't a multiple of 16 from 16 to 640, or if the image has a
    /// byte between the RAM's end and A0000h.
    #[tactic(auto, unfolding(crate::specs::Map::power_on))]
    pub fn new(alloc: Global, ram_kb: u16, image: &Image) -> Result<Memory, MemoryFault>
        ensures power_on { IfOk result (λ memory. memory ≡ power_on image.now (1024 * ram_kb)) }
        ensures size { OnOk result (IsRamSize ram_kb) }
        ensures fits { OnOk result (FitsRam image.now (1024 * ram_kb)) }
        ensures refused { IsErrOf result MemoryFault.RamSize
            ↔ (¬ (IsRamSize ram_kb × FitsRam image.now (1024 * ram_kb))) }
    {
        if !is_ram_size(ram_kb) {
            return Err(MemoryFault::RamSize);
        }
        let ram_size = 1024 * u32::from(ram_kb);
        if !fits_ram(image, ram_size) {
            return Err(MemoryFault::RamSize);
        }
        let ram = vec![in alloc; 0; ram_size as usize]?;
        let rom = vec![in alloc; 0xFF; ROM_SIZE as usize]?;
        Ok(Memory {
            ram_size,
            ram: with_image(ram, 0, image),
            rom: with_image(rom, ROM_START, image),
        })
    }

    /// The byte that a read of `addr` gives to the processor or a viewer. `addr` is below 100000h and outside the text
    /// adapter's memory, which has bytes of its own.
    #[tactic(auto, unfolding(crate::specs::Map::byte_at))]
    pub fn read(&self, addr: u32) -> u8
        requires within { addr < 2 ^ 20 }
        requires outside_text { ¬ (IsTextAddress addr) }
        ensures byte { result ≡ byte_at self.now addr }
        ensures map { IsMap self.now }
    {
        match region_of(self.ram_size, addr) {
            Region::Ram => self.ram[addr as usize],
            Region::Text => 0,
            Region::Rom => self.rom[(addr - ROM_START) as usize],
            Region::Nothing => 0xFF,
        }
    }

    /// The eight bytes from `addr` on, the first one lowest, for the cache of decoded instructions, which compares them
    /// in one go; `None` unless they lie all in RAM or all in the ROM.
    #[inline(always)]
    pub fn code(&self, addr: u32) -> Option<u64>
        requires { addr < 2 ^ 20 }
        ensures place { IfSome result (λ _. (addr + 8 ≤ 0xA0000) ⊎ ((0xF0000 ≤ addr) × (addr + 8 ≤ 2 ^ 20))) }
        ensures code { IfSome result (λ code. to_le_bytes w64 code
            ≡ map (λ k. byte_at self.now (addr + k)) (range_with_len 0 8)) }
    {
        if addr + 8 <= self.ram_size {
            return Some(eight_bytes(self.ram.as_slice(), addr as usize));
        }
        if addr >= ROM_START && addr + 8 <= ADDRESS_COUNT {
            let at = (addr - ROM_START) as usize;
            return Some(eight_bytes(self.rom.as_slice(), at));
        }
        None
    }

    /// Whether `addr` lies in RAM, and so neither in the text adapter's memory nor in the ROM: the quick way for most
    /// accesses asks this.
    #[inline(always)]
    #[tactic(auto, using(crate::proofs::RamRom::is_map), unfolding(crate::specs::MapLayout::map_of))]
    pub fn has_ram(&self, addr: u32) -> bool
        ensures ram { IsTrue result ↔ addr < self.now.ram_size }
        ensures map { IsMap self.now }
    {
        addr < self.ram_size
    }

    /// Writes `byte` at `addr`, below 100000h and outside the text adapter's memory, for the processor. Without RAM
    /// there, in the ROM as well, nothing changes.
    pub fn write(&mut self, addr: u32, byte: u8)
        requires within { addr < 2 ^ 20 }
        requires outside_text { ¬ (IsTextAddress addr) }
        ensures { self.new ≡ with_byte self.old addr byte }
    {
        if self.has_ram(addr) {
            self.write_ram(addr, byte);
        }
    }

    /// Writes `byte` at `addr`, which must lie in RAM, as the caller has found.
    #[inline(always)]
    pub fn write_ram(&mut self, addr: u32, byte: u8)
        requires { addr < self.old.ram_size }
        ensures put { self.new ≡ with_byte self.old addr byte }
        ensures within { addr < 0xA0000 }
    {
        self.ram[addr as usize] = byte;
    }

    /// Writes the two bytes of a word, the low one at `addr`, in one access. Both must lie in RAM, as the caller has
    /// found.
    #[inline(always)]
    pub fn write_word(&mut self, addr: u32, word: u16)
        requires { addr + 1 < self.old.ram_size }
        ensures put { self.new ≡ with_byte (with_byte self.old addr (word % 256)) (addr + 1) (word / 256) }
        ensures within { addr + 1 < 0xA0000 }
    {
        let at = addr as usize;
        // the bytes' place is asked for once, so that the word is written in one access
        let ram = self.ram.as_mut_slice();
        ram[at] = (word % 256) as u8;
        ram[at + 1] = (word / 256) as u8;
    }

    /// Puts `byte` into the cell of `addr`, below 100000h, in the ROM as well: for a session that changes memory, not for
    /// the processor. If `addr` has no cell, nothing changes.
    #[tactic(auto, unfolding(crate::specs::MapCells::with_cell))]
    pub fn put(&mut self, addr: u32, byte: u8)
        requires { addr < 2 ^ 20 }
        ensures { self.new ≡ with_cell self.old addr byte }
    {
        if self.has_ram(addr) {
            self.ram[addr as usize] = byte;
        } else if addr >= ROM_START {
            self.rom[(addr - ROM_START) as usize] = byte;
        }
    }

    /// A copy of the memory for a copied board, in a place of its own. Fails only if there is no memory for it.
    pub fn copy(&self) -> Result<Memory, AllocError>
        ensures { IfOk result (λ memory. memory ≡ self.now) }
    {
        Ok(Memory {
            ram_size: self.ram_size,
            ram: self.ram.clone()?,
            rom: self.rom.clone()?,
        })
    }
}

/// Whether a board can have `ram_kb` times 1,024 bytes of RAM, which a run file or caller asks for: a multiple of 16
/// from 16 to 640.
fn is_ram_size(ram_kb: u16) -> bool
    ensures { IsTrue result ↔ IsRamSize ram_kb }
{
    16 <= ram_kb && ram_kb <= 640 && ram_kb % 16 == 0
}

/// Whether the image has no byte between the RAM's end and A0000h, where it would be lost: a new board is refused
/// otherwise.
fn fits_ram(image: &Image, ram_size: u32) -> bool
    ensures { IsTrue result ↔ FitsRam image.now ram_size }
{
    for (addr, _) in image.iter() {
        if ram_size <= *addr && *addr < RAM_LIMIT {
            return false;
        }
    }
    true
}

/// The bytes at power-on of RAM or of the ROM, which begin at the address `start`: the image's, and elsewhere those of
/// `bare`.
fn with_image(bare: Vec<u8>, start: u32, image: &Image) -> Vec<u8>
    requires { start + length bare.items < 2 ^ 32 }
    ensures bytes { (at : ℕ) → at < length bare.items
        → slice_index result.items at ≡ unwrap_or (image_byte image.now (start + at)) (slice_index bare.items at) }
    ensures length { length result.items ≡ length bare.items }
{
    let mut bytes = bare;
    for (addr, byte) in image.iter() {
        put_byte(&mut bytes, start, *addr, *byte);
    }
    bytes
}

/// Puts `byte` at the address `addr`, if it is one of these bytes', which begin at the address `start`.
fn put_byte(bytes: &mut Vec<u8>, start: u32, addr: u32, byte: u8)
    requires { start + length bytes.old.items < 2 ^ 32 }
    ensures length { length bytes.new.items ≡ length bytes.old.items }
    ensures there { (at : ℕ) → at < length bytes.old.items → start + at ≡ addr → slice_index bytes.new.items at ≡ byte }
    ensures others { (at : ℕ) → start + at ≢ addr → slice_index bytes.new.items at ≡ slice_index bytes.old.items at }
{
    let at = addr.wrapping_sub(start) as usize;
    if at < bytes.len() {
        bytes[at] = byte;
    }
}

/// Eight bytes as one number, the first one lowest, for `code`.
#[inline(always)]
fn eight_bytes(bytes: &[u8], at: usize) -> u64
    requires { at + 8 ≤ length bytes.now }
    ensures { to_le_bytes w64 result ≡ map (λ k. slice_index bytes.now (at + k)) (range_with_len 0 8) }
{
    u64::from_le_bytes([
        bytes[at],
        bytes[at + 1],
        bytes[at + 2],
        bytes[at + 3],
        bytes[at + 4],
        bytes[at + 5],
        bytes[at + 6],
        bytes[at + 7],
    ])
}
