//! A timer as plain numbers, laid out as C lays them out: for callers that know no enums, such as benches in C.
ghost use Rattle.std.specs.Prelude.{◌≡◌, ◌<◌, ◌≤◌, ◌%◌, if◌then◌else◌};
ghost use Rattle.board_types.specs.declared.line.Line.{Line};
ghost use Rattle.board_types.specs.LineLevel.{is_high};
ghost use Rattle.pit8253.specs.Program.{mode_of, access_of, radix_of, mode_number, access_number, radix_number, modulus};
ghost use Rattle.pit8253.specs.PitNumbers.{flag_of, kind_of, line_of, option_of, progress_of};

use crate::pit::Pit;
use crate::program::{Access, Mode, Progress, Radix};
use board_types::choice::TimerKind;
use board_types::line::Line;

/// A counter in 24 bytes. All numbers stand for something: if a field names its values, it also says what any other
/// number stands for.
#[repr(C)]
#[derive(Clone, Copy)]
pub struct CounterImage {
    /// The newest full count; 0 is the largest. Modulo 10,000 if `radix` is decimal.
    pub newest: u16,
    /// The running count; 0 is the largest. Modulo 10,000 if `count_radix` is decimal.
    pub count: u16,
    /// The latched count, as it is read, if `has_latch` isn't 0.
    pub latch: u16,
    /// 0 to 5, as in bits 3 to 1 of a control word: 6 and 7 are modes 2 and 3. Modulo 8.
    pub mode: u8,
    /// 1 low byte, 2 high byte, 3 (and 0) low then high, as in bits 5 and 4 of a control word. Modulo 4.
    pub access: u8,
    /// The control word's radix: 0 binary, else decimal.
    pub radix: u8,
    /// The running count's radix: 0 binary, else decimal.
    pub count_radix: u8,
    /// 0 no full count yet, 1 one that waits to be loaded, else a loaded one.
    pub progress: u8,
    /// The first byte of two, if `has_first_byte` isn't 0.
    pub first_byte: u8,
    pub has_first_byte: u8,
    pub has_latch: u8,
    /// Whether the next tick loads the newest count: 0 no, else yes.
    pub load_due: u8,
    /// Whether the loaded count's strobe is still to come: 0 no, else yes.
    pub strobe_due: u8,
    /// Whether the high byte is the next to be read of two: 0 no, else yes.
    pub high_next: u8,
    /// The gate: 0 low, else high.
    pub gate: u8,
    /// OUT: 0 low, else high.
    pub out: u8,
    /// 0 an 8253, else an 8254.
    pub kind: u8,
    /// An 8254's latched status, if `has_status` isn't 0.
    pub status: u8,
    pub has_status: u8,
    /// Whether a count is still to be loaded, which an 8254 shows: 0 no, else yes.
    pub is_null: u8,
    /// Whether an 8254's half in mode 3 keeps its fall to 0 for a tick: 0 no, else yes.
    pub keeps_zero: u8,
}

/// A timer in 72 bytes.
#[repr(C)]
#[derive(Clone, Copy)]
pub struct PitImage {
    pub counter_0: CounterImage,
    pub counter_1: CounterImage,
    pub counter_2: CounterImage,
}

/// Makes a timer's image and a timer of it again, which is what it was: so a caller in C that holds only the image
/// loses nothing.
pub fn goes_through_its_image(pit: &Pit) -> Pit
    ensures { result ≡ pit.now }
{
    Pit::from_image(&pit.image())
}

/// Reads a timer's kind from an image, for `Counter::from_image`: 0 is an 8253, and any other number an 8254.
pub(crate) fn kind_of(number: u8) -> TimerKind
    ensures { result ≡ kind_of number }
{
    if number == 0 {
        TimerKind::I8253
    } else {
        TimerKind::I8254
    }
}

/// Writes a timer's kind as a number, for `Counter::image`: 0 for an 8253, 1 for an 8254.
pub(crate) fn kind_number(kind: TimerKind) -> u8
    ensures { kind_of result ≡ kind }
{
    match kind {
        TimerKind::I8253 => 0,
        TimerKind::I8254 => 1,
    }
}

/// Writes a mode as its number, 0 to 5, for `Counter::image` and for the status byte.
pub(crate) fn mode_number(mode: Mode) -> u8
    ensures number { result ≡ mode_number mode }
    ensures bound { result ≤ 5 }
    ensures means { mode_of (result % 8) ≡ mode }
{
    match mode {
        Mode::TerminalCount => 0,
        Mode::OneShot => 1,
        Mode::RateGenerator => 2,
        Mode::SquareWave => 3,
        Mode::SoftwareStrobe => 4,
        Mode::HardwareStrobe => 5,
    }
}

/// Reads an access from an image, for `Counter::from_image`: 1 is the low byte, 2 the high byte, and any other number
/// both.
pub(crate) fn access_of(bits: u8) -> Access
    ensures { result ≡ access_of bits }
{
    match bits {
        1 => Access::LowByte,
        2 => Access::HighByte,
        _ => Access::LowThenHigh,
    }
}

/// Writes an access as bits 5 and 4 of a control word have it, for `Counter::image` and for the status byte: 1 the low
/// byte, 2 the high byte, 3 both.
pub(crate) fn access_number(access: Access) -> u8
    ensures number { result ≡ access_number access }
    ensures bound { result ≤ 3 }
    ensures means { access_of (result % 4) ≡ access }
{
    match access {
        Access::LowByte => 1,
        Access::HighByte => 2,
        Access::LowThenHigh => 3,
    }
}

/// Writes a radix as bit 0 of a control word has it, for `Counter::image` and for the status byte: 0 binary, 1
/// decimal.
pub(crate) fn radix_number(radix: Radix) -> u8
    ensures number { result ≡ radix_number radix }
    ensures bound { result ≤ 1 }
    ensures means { radix_of result ≡ radix }
{
    match radix {
        Radix::Binary => 0,
        Radix::Decimal => 1,
    }
}

/// Reads from an image, for `Counter::from_image`, how far a count has come: 0 none written, 1 one that waits to be
/// loaded, any other number a loaded one.
pub(crate) fn progress_of(number: u8) -> Progress
    ensures { result ≡ progress_of number }
{
    match number {
        0 => Progress::Awaited,
        1 => Progress::Written,
        _ => Progress::Loaded,
    }
}

/// Writes as a number, for `Counter::image`, how far a count has come: 0 none written, 1 one that waits to be loaded,
/// 2 a loaded one.
pub(crate) fn progress_number(progress: Progress) -> u8
    ensures { progress_of result ≡ progress }
{
    match progress {
        Progress::Awaited => 0,
        Progress::Written => 1,
        Progress::Loaded => 2,
    }
}

/// Reads the level of the gate or of OUT from an image, for `Counter::from_image`: 0 is low, and any other number
/// high.
pub(crate) fn line_of(number: u8) -> Line
    ensures { result ≡ line_of number }
{
    if number == 0 { Line::Low } else { Line::High }
}

/// Writes the level of the gate or of OUT as a number, for `Counter::image` and for the status byte: 0 low, 1 high.
pub(crate) fn line_number(line: Line) -> u8
    ensures number { result ≡ (if is_high line then 1 else 0) }
    ensures bound { result ≤ 1 }
    ensures means { line_of result ≡ line }
{
    match line {
        Line::Low => 0,
        Line::High => 1,
    }
}

/// Reads a flag of an image, for `Counter::from_image`: 0 is no, and any other number yes.
pub(crate) fn flag_of(number: u8) -> bool
    ensures { result ≡ flag_of number }
{
    number != 0
}

/// Writes a flag as a number, for `Counter::image` and for the status byte: 1 for yes, 0 for no.
pub(crate) fn flag_number(flag: bool) -> u8
    ensures number { result ≡ (if flag then 1 else 0) }
    ensures bound { result ≤ 1 }
    ensures means { flag_of result ≡ flag }
{
    if flag { 1 } else { 0 }
}

/// Reads a byte from the two numbers that an image has for it, for `Counter::from_image`: there is none if `is_there`
/// is 0.
pub(crate) fn byte_where(is_there: u8, byte: u8) -> Option<u8>
    ensures { result ≡ option_of is_there byte }
{
    if is_there == 0 { None } else { Some(byte) }
}

/// Writes a byte that may be missing as two numbers, for `Counter::image`: whether it is there, 1 or 0, and the byte,
/// 0 if it isn't.
pub(crate) fn byte_numbers(byte: Option<u8>) -> (u8, u8)
    ensures { option_of result.0 result.1 ≡ byte }
{
    match byte {
        None => (0, 0),
        Some(byte) => (1, byte),
    }
}

/// Reads a latched count from the two numbers that an image has for it, for `Counter::from_image`: there is none if
/// `is_there` is 0.
pub(crate) fn word_where(is_there: u8, word: u16) -> Option<u16>
    ensures { result ≡ option_of is_there word }
{
    if is_there == 0 { None } else { Some(word) }
}

/// Writes a latched count that may be missing as two numbers, for `Counter::image`: whether it is there, 1 or 0, and
/// the count, 0 if it isn't.
pub(crate) fn word_numbers(word: Option<u16>) -> (u8, u16)
    ensures { option_of result.0 result.1 ≡ word }
{
    match word {
        None => (0, 0),
        Some(word) => (1, word),
    }
}

/// Reads a count from an image, for `Counter::from_image`: in decimal it is taken modulo 10,000, so that any number
/// stands for a count.
pub(crate) fn count_within(radix: Radix, count: u16) -> u16
    ensures count { result ≡ count % modulus radix }
    ensures within { result < modulus radix }
{
    match radix {
        Radix::Binary => count,
        Radix::Decimal => count % 10_000,
    }
}
