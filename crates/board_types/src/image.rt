//! The bytes that a program brings to the board's memory.
ghost use Rattle.std.specs.Prelude.{◌≡◌, [], ◌↔◌, All, IsTrue, None, OnOk, OnErr, Some};
ghost use Rattle.std.specs.Ordering.{nat_cmp};
ghost use Rattle.std.specs.BTreeMap.{insert_entry};
ghost use Rattle.board_types.specs.Image.{IsImage, IsLoadable, image_byte};

use crate::address::{ADDRESS_COUNT, RAM_LIMIT, ROM_START};
use std::alloc::{AllocError, Global};
use std::collections::BTreeMap;
use std::collections::btree_map::Iter;
use std::marker::Model;

/// Bytes at loadable addresses, those below A0000h and from F0000h to FFFFFh.
#[derive(Drop)]
pub struct Image {
    bytes: BTreeMap<u32, u8>,
}

impl Model for Image {
    ghost use Rattle.std.specs.Prelude.{List, ℕ};
    ghost use Rattle.board_types.specs.Image.{IsImage};

    // the addresses that have a byte, rising, each with its byte
    ghost Value = { List (ℕ × ℕ) };

    ghost view = { λ a. a.bytes.entries };

    ghost invariant = { λ a. IsImage a.bytes.entries };
}

/// Whether a program's bytes may go to the physical address `addr`, in RAM (below A0000h) or in the ROM (F0000h to
/// FFFFFh): assembler and loader ask before they place a byte.
pub fn is_loadable(addr: u32) -> bool
    ensures { IsTrue result ↔ IsLoadable addr }
{
    addr < RAM_LIMIT || ROM_START <= addr && addr < ADDRESS_COUNT
}

impl Image {
    /// An empty image, into which the assembler or the loader then puts a program's bytes.
    pub fn new(alloc: Global) -> Self
        ensures { result ≡ [] }
    {
        Image {
            bytes: BTreeMap::new(alloc),
        }
    }

    /// The byte that the program places at the physical address `addr`; `None` if it places none there.
    pub fn get(&self, addr: u32) -> Option<u8>
        ensures byte { result ≡ image_byte self.now addr }
        ensures is_image { IsImage self.now }
    {
        self.bytes.get(&addr).copied()
    }

    /// The addresses that have a byte, rising, each with its byte: what a board's memory is loaded with at power-on.
    pub fn iter(&self) -> Iter<'_, u32, u8>
        ensures entries { result ≡ self.now }
        ensures found { All (λ e. image_byte self.now e.0 ≡ Some e.1) self.now }
        ensures is_image { IsImage self.now }
    {
        self.bytes.iter()
    }

    /// Places `byte` at the loadable address `addr`, in place of a byte that was there. Fails only if the image can't
    /// grow, and then stays as it was; if it has a byte at `addr` already, it needn't grow.
    pub fn put(&mut self, addr: u32, byte: u8) -> Result<(), AllocError>
        requires { IsLoadable addr }
        ensures ok { OnOk result (self.new ≡ insert_entry nat_cmp self.old addr byte) }
        ensures err { OnErr result (self.new ≡ self.old) }
        ensures grows { OnErr result (image_byte self.old addr ≡ None) }
    {
        self.bytes.insert(addr, byte)?;
        Ok(())
    }
}
