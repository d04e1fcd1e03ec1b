//! Counts: how they are written, how long they are and how they fall (Intel 8253 data sheet, "Programming the 8253").
ghost use Rattle.std.specs.Prelude.{◌≡◌, ◌+◌, ◌*◌, ◌/◌, ◌%◌, ◌-◌, ◌<◌, ◌≤◌, if◌then◌else◌};
ghost use Rattle.board_types.specs.LineLevel.{is_high};
ghost use Rattle.pit8253.specs.Program.{modulus, count_of, digits_of};
ghost use Rattle.pit8253.specs.PitLaws.{length_of, count_after};

use crate::program::Radix;
use board_types::line::Line;

/// How many ticks bring a count to 0, at 1 a tick: 0 itself is the largest count, 65,536 or in decimal 10,000.
pub(crate) fn length_of(radix: Radix, count: u16) -> u64
    requires { count < modulus radix }
    ensures ticks { result ≡ length_of radix count }
    ensures some { 0 < result }
    ensures bound { result ≤ modulus radix }
{
    match (count, radix) {
        (0, Radix::Binary) => 65_536,
        (0, Radix::Decimal) => 10_000,
        _ => u64::from(count),
    }
}

/// A count that falls by 1 at each of `ticks` ticks, and goes on from FFFFh or 9999 below 0: what a counter shows
/// however many ticks have passed at once.
pub(crate) fn count_after(radix: Radix, count: u16, ticks: u64) -> u16
    requires { count < modulus radix }
    ensures after { result ≡ count_after radix count ticks }
    ensures within { result < modulus radix }
{
    let count = u32::from(count);
    match radix {
        Radix::Binary => ((count + 65_536 - (ticks % 65_536) as u32) % 65_536) as u16,
        Radix::Decimal => ((count + 10_000 - (ticks % 10_000) as u32) % 10_000) as u16,
    }
}

/// What is left of a count after `ticks` ticks at 1 a tick, at least 0: above 0 a counter needn't look for the end of
/// its count.
pub(crate) fn left_after(count: u16, ticks: u64) -> u16
    ensures left { result ≡ count - ticks }
    ensures bound { result ≤ count }
{
    u64::from(count).saturating_sub(ticks) as u16
}

/// Half a count, as mode 3 falls by 2 up to the end of a half; of an odd count the high half has one more.
pub(crate) fn half_of(count: u16, out: Line) -> u16
    ensures half { result ≡ (if is_high out then (count + 1) / 2 else count / 2) }
    ensures bound { result ≤ 32768 }
{
    match out {
        Line::High => count / 2 + count % 2,
        Line::Low => count / 2,
    }
}

/// The count that sixteen written bits stand for: in decimal each digit counts by its weight, and the sum is taken
/// modulo 10,000.
pub(crate) fn count_of(radix: Radix, word: u16) -> u16
    ensures count { result ≡ count_of radix word }
    ensures within { result < modulus radix }
{
    match radix {
        Radix::Binary => word,
        Radix::Decimal => (1000 * (word / 4096)
            + 100 * (word / 256 % 16)
            + 10 * (word / 16 % 16)
            + word % 16)
            % 10_000,
    }
}

/// The sixteen bits in which a program reads a count: the count itself in binary; in decimal (BCD) its four lowest
/// digits, four bits each, so 10000 reads as 0.
pub(crate) fn digits_of(radix: Radix, count: u16) -> u16
    ensures { result ≡ digits_of radix count }
{
    match radix {
        Radix::Binary => count,
        Radix::Decimal => 4096 * (count / 1000 % 10)
            + 256 * (count / 100 % 10)
            + 16 * (count / 10 % 10)
            + count % 10,
    }
}

/// The sixteen bits of a count written as two bytes.
pub(crate) fn word_of(low: u8, high: u8) -> u16
    ensures { result ≡ low + 256 * high }
{
    u16::from(low) + 256 * u16::from(high)
}

/// The low byte of the sixteen bits that a read shows.
pub(crate) fn low_byte(word: u16) -> u8
    ensures { result ≡ word % 256 }
{
    (word % 256) as u8
}

/// The high byte of the sixteen bits that a read shows.
pub(crate) fn high_byte(word: u16) -> u8
    ensures { result ≡ word / 256 }
{
    (word / 256) as u8
}
