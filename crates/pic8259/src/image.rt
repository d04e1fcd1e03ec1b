//! A controller as plain numbers, laid out as C lays them out: for callers that know no enums, such as benches in C.
ghost use Rattle.std.specs.Prelude.{◌≡◌, ◌≤◌};
ghost use Rattle.pic8259.specs.PicNumbers.{flag_of, expected_of, base_of};

use crate::controller::{Expected, Pic};

/// A controller in 18 bytes. All numbers stand for something: a flag is 0 for no, and anything else for yes.
#[repr(C)]
#[derive(Clone, Copy)]
pub struct PicImage {
    /// The level with the lowest priority, modulo 8; the one after it has the highest.
    pub lowest: u8,
    /// The levels whose line is high: bit n stands for level n, here and in the three sets below.
    pub high: u8,
    /// The levels whose line has risen since they were last taken.
    pub risen: u8,
    /// The interrupt mask register.
    pub masked: u8,
    /// The levels in service.
    pub served: u8,
    /// The word that the initialisation sequence waits for: 2, 3 or 4 for ICW2, ICW3 or ICW4, else none.
    pub expected: u8,
    /// ICW1's bit 1 was clear: ICW3 belongs to the sequence.
    pub is_cascaded: u8,
    /// ICW1's bit 0: ICW4 belongs to the sequence.
    pub asks_icw4: u8,
    /// ICW1's bit 3: level mode, else edge mode.
    pub is_level_triggered: u8,
    /// The vector of level 0; above 248 it counts as 248.
    pub vector_base: u8,
    /// ICW3 as it was written.
    pub slaves: u8,
    /// ICW4's bit 0: 8086 mode, the only one in which levels are taken.
    pub is_8086: u8,
    /// ICW4's bit 1: automatic end of interrupt.
    pub auto_end: u8,
    /// ICW4's bit 4, without effect.
    pub is_specially_nested: u8,
    /// Rotation under automatic end of interrupt.
    pub rotates: u8,
    pub special_mask: u8,
    /// A poll command waits for its read.
    pub polled: u8,
    /// A read at A0 = 0 gives the levels in service, and else the requests.
    pub reads_served: u8,
}

/// Makes a controller's image and a controller of it again, which is what it was: so a caller in C that holds only the
/// image loses nothing.
pub fn goes_through_its_image(pic: &Pic) -> Pic
    ensures { result ≡ pic.now }
{
    Pic::from_image(&pic.image())
}

/// Reads a flag of an image, for `Pic::from_image`: 0 is no, and any other number yes.
pub(crate) fn flag_of(number: u8) -> bool
    ensures { result ≡ flag_of number }
{
    number != 0
}

/// Writes a flag as a number, for `Pic::image`: 1 for yes, 0 for no.
pub(crate) fn flag_number(flag: bool) -> u8
    ensures { flag_of result ≡ flag }
{
    if flag { 1 } else { 0 }
}

/// Reads from an image, for `Pic::from_image`, the word that the initialisation sequence waits for: 2, 3 or 4 is ICW2,
/// ICW3 or ICW4, and any other number none.
pub(crate) fn expected_of(number: u8) -> Expected
    ensures { result ≡ expected_of number }
{
    match number {
        2 => Expected::Icw2,
        3 => Expected::Icw3,
        4 => Expected::Icw4,
        _ => Expected::Operation,
    }
}

/// Writes as a number, for `Pic::image`, the word that the initialisation sequence waits for: 2, 3 or 4, or 0 if no
/// sequence is under way.
pub(crate) fn expected_number(expected: Expected) -> u8
    ensures { expected_of result ≡ expected }
{
    match expected {
        Expected::Icw2 => 2,
        Expected::Icw3 => 3,
        Expected::Icw4 => 4,
        Expected::Operation => 0,
    }
}

/// Reads the vector of level 0 from an image, for `Pic::from_image`: above 248 it counts as 248, so that the vector of
/// level 7 is a byte, too.
pub(crate) fn base_of(number: u8) -> u8
    ensures base { result ≡ base_of number }
    ensures bound { result ≤ 248 }
{
    if number > 248 { 248 } else { number }
}
