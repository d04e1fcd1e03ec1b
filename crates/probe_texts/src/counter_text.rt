//! A counter of the timer as text.
ghost use Rattle.std.specs.Prelude.{◌≡◌, ◌%◌, ◌<◌, ◌≤◌, IfOk, if◌then◌else◌, [], ◌++◌, OnOk};
ghost use Rattle.std.specs.String.{string_bytes};
ghost use Rattle.board_types.specs.LineLevel.{is_high};
ghost use Rattle.pit8253.specs.Counter.{after_ticks, is_8254, reads_high, status_of};
ghost use Rattle.pit8253.specs.PitNumbers.{counter_of, flag_of, kind_of, line_of, option_of, progress_of};
ghost use Rattle.pit8253.specs.Program.{access_number, access_of, digits_of, mode_number, mode_of, modulus, radix_number, radix_of};
ghost use Rattle.probe_texts.specs.CounterText.{counter_counts, counter_line, counter_lines, counter_running, counter_status, loads_next, newest_of};

use crate::shown::{ByteOrNone, WordOrNone, digit, flag_digit};
use board_types::digits::{HexByte, HexWord};
use board_types::timed::Timed;
use pit8253::counter::Counter;
use pit8253::image::CounterImage;
use std::alloc::AllocError;

/// Adds the line of the timer's counter `number` to the answer to `chips`, by its image: the mode, access (RW) and BCD
/// of the control word, its counts and lines, what it is about to do, and an 8254's status.
#[tactic(auto, unfolding(crate::specs::CounterText::counter_line, pit8253::specs::PitNumbers::counter_of))]
pub(crate) fn push_counter(
    text: &mut String,
    number: u8,
    image: &CounterImage,
) -> Result<(), AllocError>
    ensures { OnOk result
        (string_bytes text.new ≡ string_bytes text.old ++ counter_line number (counter_of image.now)) }
{
    let mode = mode_digit(image);
    let access = access_digit(image);
    let radix = flag_digit(image.radix);
    let count = HexWord(digits_in(image.count_radix, image.count));
    let newest = WordOrNone(newest(image));
    write!(
        text,
        "counter {number} mode {mode} RW {access} BCD {radix} count {count} newest {newest}"
    )?;
    let load = loads_next(image);
    let out = flag_digit(image.out);
    let gate = flag_digit(image.gate);
    let first = ByteOrNone((image.has_first_byte != 0).then_some(image.first_byte));
    let latch = WordOrNone((image.has_latch != 0).then_some(image.latch));
    let high = reads_high(image);
    write!(
        text,
        " load {load} OUT {out} GATE {gate} first {first} latch {latch} high {high}"
    )?;
    push_running(text, image)?;
    push_status(text, image)?;
    write!(text, "\n")
}

/// Adds what a counter is about to do: whether a count has been loaded, a load is due, a strobe is still to come, and the
/// running count is decimal.
#[tactic(auto, unfolding(pit8253::specs::PitNumbers::counter_of))]
fn push_running(text: &mut String, image: &CounterImage) -> Result<(), AllocError>
    ensures { OnOk result
        (string_bytes text.new ≡ string_bytes text.old ++ counter_running (counter_of image.now)) }
{
    let loaded = digit(image.progress > 1);
    let due = flag_digit(image.load_due);
    let strobe = flag_digit(image.strobe_due);
    let decimal = flag_digit(image.count_radix);
    write!(
        text,
        " loaded {loaded} due {due} strobe {strobe} decimal {decimal}"
    )
}

/// Returns what a counter's line shows as `load`, 1 if the next tick loads the newest count, else 0: a copy of the
/// counter makes the tick, after its count has been marked as null, which a load alone clears.
fn loads_next(image: &CounterImage) -> u8
    ensures { result ≡ (if loads_next (counter_of image.now) then 1 else 0) }
{
    let mut null = *image;
    null.is_null = 1;
    let mut counter = Counter::from_image(&null);
    counter.advance(1);
    digit(counter.image().is_null == 0)
}

/// Returns what a counter's line shows as `high`: 1 if the next read of the count gives its high byte, else 0.
#[tactic(auto, unfolding(pit8253::specs::PitNumbers::counter_of))]
fn reads_high(image: &CounterImage) -> u8
    ensures { result ≡ (if reads_high (counter_of image.now).access (counter_of image.now).high_next then 1 else 0) }
{
    match image.access % 4 {
        1 => 0,
        2 => 1,
        _ => flag_digit(image.high_next),
    }
}

/// Adds to the line of an 8254's counter its status, the latched status, and whether mode 3 keeps its 0 for a tick; an
/// 8253 has none of them.
#[tactic(auto, unfolding(crate::specs::CounterText::counter_status, pit8253::specs::PitNumbers::counter_of))]
fn push_status(text: &mut String, image: &CounterImage) -> Result<(), AllocError>
    ensures { OnOk result (string_bytes text.new ≡ string_bytes text.old
        ++ (if is_8254 (counter_of image.now).kind then counter_status (counter_of image.now) else [])) }
{
    if image.kind == 0 {
        return Ok(());
    }
    let status = HexByte(status(image));
    let latched = ByteOrNone((image.has_status != 0).then_some(image.status));
    let keeps = flag_digit(image.keeps_zero);
    write!(text, " status {status} latched {latched} keeps {keeps}")
}

/// Returns the mode's number, 0 to 5, for the counter's line and its status byte; 6 and 7 of an image mean modes 2 and
/// 3.
#[tactic(auto, unfolding(pit8253::specs::PitNumbers::counter_of))]
fn mode_digit(image: &CounterImage) -> u8
    ensures digit { result ≡ mode_number (counter_of image.now).mode }
    ensures bound { result ≤ 5 }
{
    match image.mode % 8 {
        0 => 0,
        1 => 1,
        4 => 4,
        5 => 5,
        bits => 2 + bits % 2,
    }
}

/// Returns which bytes of a count are read and written, RW of the control word, for the counter's line and its status
/// byte: 1 the low byte, 2 the high byte, 3 both.
#[tactic(auto, unfolding(pit8253::specs::PitNumbers::counter_of))]
fn access_digit(image: &CounterImage) -> u8
    ensures digit { result ≡ access_number (counter_of image.now).access }
    ensures bound { result ≤ 3 }
{
    match image.access % 4 {
        1 => 1,
        2 => 2,
        _ => 3,
    }
}

/// Returns the newest full count since the control word for the counter's line, as it was written; `None` if there is
/// none yet.
#[tactic(auto, unfolding(pit8253::specs::PitNumbers::counter_of))]
fn newest(image: &CounterImage) -> Option<u16>
    ensures { result ≡ newest_of (counter_of image.now) }
{
    (image.progress != 0).then_some(digits_in(image.radix, image.newest))
}

/// Returns a count as it is read and written, for the counter's line: in BCD (`radix` not 0), four decimal digits of
/// four bits each.
fn digits_in(radix: u8, count: u16) -> u16
    ensures { result ≡ digits_of (radix_of radix) (count % modulus (radix_of radix)) }
{
    if radix == 0 {
        return count;
    }
    let count = count % 10000;
    4096 * (count / 1000) + 256 * (count / 100 % 10) + 16 * (count / 10 % 10) + count % 10
}

/// Returns the status byte that an 8254's counter would latch now, for its line: OUT, null count, access, mode and BCD.
#[tactic(auto, unfolding(pit8253::specs::PitNumbers::counter_of))]
fn status(image: &CounterImage) -> u8
    ensures { result ≡ status_of (counter_of image.now) }
{
    let out = flag_digit(image.out);
    let null = flag_digit(image.is_null);
    let radix = flag_digit(image.radix);
    128 * out + 64 * null + 16 * access_digit(image) + 2 * mode_digit(image) + radix
}
