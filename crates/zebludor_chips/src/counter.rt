//! One counter of the Intel 8253 or 8254 by itself: a third of the timer's image, and a third of its work.
ghost use Rattle.std.specs.Prelude.{◌≡◌, ◌≤◌, if◌then◌else◌};
ghost use Rattle.board_types.specs.declared.choice.TimerKind.TheVariants.{I8253};
ghost use Rattle.board_types.specs.LineLevel.{is_high};
ghost use Rattle.board_types.specs.Timed.{IsUntilTurn};
ghost use Rattle.pit8253.specs.Counter.{after_control_word, after_gate, after_read, after_read_back, after_ticks, after_write, next_byte, out_of, power_on};
ghost use Rattle.pit8253.specs.PitNumbers.{counter_of, kind_of, line_of};
ghost use Rattle.zebludor_chips.specs.Turns.{turn_of};

use crate::levels::{kind_of, line_of, number_of};
use board_types::choice::TimerKind;
use board_types::timed::Timed;
use pit8253::counter::Counter;
use pit8253::image::CounterImage;

/// Makes `*counter` a counter of an 8253 at power-on, for a bench in C that needs only one: the gate at a level, mode
/// 0, no count, OUT low. The image may hold any bytes before.
#[unsafe(no_mangle)]
pub extern "C" fn zebludor_counter_power_on(counter: &mut CounterImage, gate: u8)
    ensures { counter_of counter.new ≡ power_on I8253 (line_of gate) }
{
    *counter = Counter::new(TimerKind::I8253, line_of(gate)).image();
}

/// Makes `*counter` a counter of either kind (0 for an 8253, else an 8254) at power-on, for a bench in C that needs
/// only one: the gate at a level, mode 0, no count, OUT low. The image may hold any bytes before.
#[unsafe(no_mangle)]
pub extern "C" fn zebludor_counter_power_on_as(counter: &mut CounterImage, kind: u8, gate: u8)
    ensures { counter_of counter.new ≡ power_on (kind_of kind) (line_of gate) }
{
    *counter = Counter::new(kind_of(kind), line_of(gate)).image();
}

/// Gives the counter, for a bench in C, a read-back that names it: an 8254 latches the count if bit 5 of `word` is 0,
/// and the status if bit 4 is 0; an 8253 does nothing.
#[unsafe(no_mangle)]
pub extern "C" fn zebludor_counter_read_back(counter: &mut CounterImage, word: u8)
    ensures { counter_of counter.new ≡ after_read_back (counter_of counter.old) word }
{
    let mut chip = Counter::from_image(counter);
    chip.read_back(word);
    *counter = chip.image();
}

/// Writes a bench's control word to the counter, of which only bits 5 to 0 matter here: access 00 latches the count,
/// any other programs the counter anew.
#[unsafe(no_mangle)]
pub extern "C" fn zebludor_counter_write_control(counter: &mut CounterImage, word: u8)
    ensures { counter_of counter.new ≡ after_control_word (counter_of counter.old) word }
{
    let mut chip = Counter::from_image(counter);
    chip.write_control(word);
    *counter = chip.image();
}

/// Writes a bench's byte of a count to the counter: the low or the high one, or the next of both, by its access.
#[unsafe(no_mangle)]
pub extern "C" fn zebludor_counter_write(counter: &mut CounterImage, value: u8)
    ensures { counter_of counter.new ≡ after_write (counter_of counter.old) value }
{
    let mut chip = Counter::from_image(counter);
    chip.write(value);
    *counter = chip.image();
}

/// Answers a bench's read of the counter: with a latched status, else a byte of the latched count, else one of the
/// running count.
#[unsafe(no_mangle)]
pub extern "C" fn zebludor_counter_read(counter: &mut CounterImage) -> u8
    ensures byte { result ≡ next_byte (counter_of counter.old) }
    ensures state { counter_of counter.new ≡ after_read (counter_of counter.old) }
{
    let mut chip = Counter::from_image(counter);
    let byte = chip.read();
    *counter = chip.image();
    byte
}

/// Sets the counter's gate, as a bench in C drives it: low if `level` is 0, else high.
#[unsafe(no_mangle)]
pub extern "C" fn zebludor_counter_set_gate(counter: &mut CounterImage, level: u8)
    ensures { counter_of counter.new ≡ after_gate (counter_of counter.old) (line_of level) }
{
    let mut chip = Counter::from_image(counter);
    chip.set_gate(line_of(level));
    *counter = chip.image();
}

/// The level of OUT, 0 or 1, for a bench in C to compare with its own timer's.
#[unsafe(no_mangle)]
pub extern "C" fn zebludor_counter_out(counter: &CounterImage) -> u8
    ensures { result ≡ (if is_high (counter_of counter.now).out then 1 else 0) }
{
    number_of(Counter::from_image(counter).out())
}

/// Lets `ticks` ticks of the counter pass for a bench in C, which are falling edges of CLK; any number takes as long.
#[unsafe(no_mangle)]
pub extern "C" fn zebludor_counter_advance(counter: &mut CounterImage, ticks: u64)
    ensures { counter_of counter.new ≡ after_ticks (counter_of counter.old) ticks }
{
    let mut chip = Counter::from_image(counter);
    chip.advance(ticks);
    *counter = chip.image();
}

/// After how many ticks, from 1 to 65,537, OUT first changes, so that a bench can pass them at once: as long as
/// nothing is written and the gate stays. 0 if it never does.
#[unsafe(no_mangle)]
pub extern "C" fn zebludor_counter_until_change(counter: &CounterImage) -> u64
    ensures turn { IsUntilTurn after_ticks out_of (counter_of counter.now) (turn_of result) }
    ensures bound { result ≤ 65537 }
{
    Counter::from_image(counter).until_change().unwrap_or(0)
}
