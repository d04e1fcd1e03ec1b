//! Addresses of the 8086 (8086 Family User's Manual, "Physical Address Generation").
ghost use Rattle.std.specs.Prelude.{◌≡◌, ◌<◌, ◌^◌};
ghost use Rattle.board_types.specs.Address.{physical};

/// How many physical addresses there are: 2^20.
pub const ADDRESS_COUNT: u32 = 0x10_0000;

/// The address below which all RAM lies (IBM PC Technical Reference, "System Memory Map").
pub const RAM_LIMIT: u32 = 0xA0000;

/// Where text memory begins.
pub const TEXT_START: u32 = 0xB0000;

/// How many bytes text memory has.
pub const TEXT_SIZE: u32 = 4096;

/// Where the ROM begins; it ends with the last address.
pub const ROM_START: u32 = 0xF0000;

/// The physical address of an offset in a segment, as the 8086 forms it: 16 times the segment plus the offset, modulo
/// 2^20.
pub fn physical(segment: u16, offset: u16) -> u32
    ensures value { result ≡ physical segment offset }
    ensures bound { result < 2 ^ 20 }
{
    (16 * u32::from(segment) + u32::from(offset)) % ADDRESS_COUNT
}
