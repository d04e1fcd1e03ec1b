//! What answers at an address.
ghost use Rattle.std.specs.Prelude.{◌≡◌};
ghost use Rattle.memory.specs.Regions.{is_text_address, region_of};

use board_types::address::{ROM_START, TEXT_SIZE, TEXT_START};

/// What answers at an address.
#[derive(Clone, Copy)]
pub enum Region {
    /// Memory that a write changes.
    Ram,
    /// The text adapter's memory.
    Text,
    /// Memory that a write leaves as it is.
    Rom,
    /// Nothing: FFh is read, and a write is lost.
    Nothing,
}

/// Whether the physical address `addr` is one of the text adapter's 4,096, so that the adapter and not the memory
/// answers.
pub fn is_text_address(addr: u32) -> bool
    ensures { result ≡ is_text_address addr }
{
    TEXT_START <= addr && addr < TEXT_START + TEXT_SIZE
}

/// What answers at the physical address `addr` of a board with `ram_size` bytes of RAM: decides what a read gives and
/// whether a write changes anything.
pub fn region_of(ram_size: u32, addr: u32) -> Region
    ensures { result ≡ region_of ram_size addr }
{
    if addr < ram_size {
        Region::Ram
    } else if is_text_address(addr) {
        Region::Text
    } else if addr >= ROM_START {
        Region::Rom
    } else {
        Region::Nothing
    }
}
