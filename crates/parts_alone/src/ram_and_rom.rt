//! The memory alone: an image, writes, and what is read at an address of RAM, of the ROM and of neither.
ghost use Rattle.std.specs.Prelude.{◌≡◌, IfOk};

use anyhow::Result;
use board_types::image::Image;
use memory::map::Memory;
use std::alloc::Global;

/// What is read at 00400h, at F0000h and at 10000h of a memory of 64 KB, after 55h was written to each: RAM takes it,
/// the ROM keeps the image's EAh, and nothing answers. An example of the memory used alone.
pub fn bytes_read(alloc: Global) -> Result<(u8, u8, u8)> {
    let mut image = Image::new(alloc);
    image.put(0xF_0000, 0xEA)?;
    let mut memory = Memory::new(alloc, 64, &image)?;
    memory.write(0x0_0400, 0x55); // RAM
    memory.write(0xF_0000, 0x55); // the ROM keeps the image's byte
    memory.write(0x1_0000, 0x55); // after the end of the RAM nothing answers
    Ok((
        memory.read(0x0_0400),
        memory.read(0xF_0000),
        memory.read(0x1_0000),
    ))
}
