//! The Intel 8253 and 8254. Ports are numbered by A1 and A0, counters from 0 to 2.
ghost use Rattle.std.specs.Prelude.{◌≡◌, ◌≤◌, ◌%◌, if◌then◌else◌};
ghost use Rattle.board_types.specs.declared.choice.TimerKind.TheVariants.{I8253};
ghost use Rattle.board_types.specs.LineLevel.{is_high};
ghost use Rattle.board_types.specs.Timed.{IsUntilTurn};
ghost use Rattle.pit8253.specs.Counter as one;
ghost use Rattle.pit8253.specs.Counter.{out_of};
ghost use Rattle.pit8253.specs.PitNumbers.{counter_of, kind_of, line_of, pit_of};
ghost use Rattle.pit8253.specs.Pit.{power_on, counter, after_gate, after_read, after_ticks, after_write, byte_at};
ghost use Rattle.zebludor_chips.specs.Turns.{turn_of};

use crate::levels::{kind_of, line_of, number_of};
use board_types::timed::Timed;
use pit8253::counter::Counter;
use pit8253::image::{CounterImage, PitImage};
use pit8253::pit::Pit;

/// Makes `*pit` an 8253 at power-on, for a bench in C: each counter in mode 0 with no count, OUT low; gates 0 and 1
/// high, gate 2 low. The image may hold any bytes before.
#[unsafe(no_mangle)]
pub extern "C" fn zebludor_pit_power_on(pit: &mut PitImage)
    ensures { pit_of pit.new ≡ power_on I8253 }
{
    *pit = Pit::new().image();
}

/// Makes `*pit` a timer of either kind (0 for an 8253, else an 8254) at power-on, for a bench in C: each counter in
/// mode 0 with no count, OUT low; gates 0 and 1 high, gate 2 low. The image may hold any bytes before.
#[unsafe(no_mangle)]
pub extern "C" fn zebludor_pit_power_on_as(pit: &mut PitImage, kind: u8)
    ensures { pit_of pit.new ≡ power_on (kind_of kind) }
{
    *pit = Pit::with(kind_of(kind)).image();
}

/// Answers a bench's read of `port` modulo 4: a byte of the counter of that number, an 8254's latched status before
/// its count; port 3 gives FFh.
#[unsafe(no_mangle)]
pub extern "C" fn zebludor_pit_read(pit: &mut PitImage, port: u8) -> u8
    ensures byte { result ≡ byte_at (pit_of pit.old) (port % 4) }
    ensures state { pit_of pit.new ≡ after_read (pit_of pit.old) (port % 4) }
{
    let mut chip = Pit::from_image(pit);
    let byte = chip.read(port % 4);
    *pit = chip.image();
    byte
}

/// Does a bench's write to `port` modulo 4: a byte of a count for the counter of that number, or at port 3 a control
/// word: from C0h on an 8254's read-back, which an 8253 ignores.
#[unsafe(no_mangle)]
pub extern "C" fn zebludor_pit_write(pit: &mut PitImage, port: u8, value: u8)
    ensures { pit_of pit.new ≡ after_write (pit_of pit.old) (port % 4) value }
{
    let mut chip = Pit::from_image(pit);
    chip.write(port % 4, value);
    *pit = chip.image();
}

/// Sets gate `n` modulo 3, as a bench in C drives it: low if `level` is 0, else high.
#[unsafe(no_mangle)]
pub extern "C" fn zebludor_pit_set_gate(pit: &mut PitImage, n: u8, level: u8)
    ensures { pit_of pit.new ≡ after_gate (pit_of pit.old) (n % 3) (line_of level) }
{
    let mut chip = Pit::from_image(pit);
    chip.set_gate(n % 3, line_of(level));
    *pit = chip.image();
}

/// The level of OUT `n` modulo 3, 0 or 1, for a bench in C to compare with its own timer's.
#[unsafe(no_mangle)]
pub extern "C" fn zebludor_pit_out(pit: &PitImage, n: u8) -> u8
    ensures { result ≡ (if is_high (counter (pit_of pit.now) (n % 3)).out then 1 else 0) }
{
    number_of(Counter::from_image(counter_image(pit, n % 3)).out())
}

/// Lets `ticks` ticks of the three counters pass for a bench in C, which are falling edges of CLK; any number takes as
/// long.
#[unsafe(no_mangle)]
pub extern "C" fn zebludor_pit_advance(pit: &mut PitImage, ticks: u64)
    ensures { pit_of pit.new ≡ after_ticks (pit_of pit.old) ticks }
{
    let mut chip = Pit::from_image(pit);
    chip.advance(ticks);
    *pit = chip.image();
}

/// After how many ticks, from 1 to 65,537, OUT `n` modulo 3 first changes, so that a bench can pass them at once: as
/// long as nothing is written and its gate stays. 0 if it never does.
#[unsafe(no_mangle)]
pub extern "C" fn zebludor_pit_until_change(pit: &PitImage, n: u8) -> u64
    ensures turn { IsUntilTurn one.after_ticks out_of (counter (pit_of pit.now) (n % 3)) (turn_of result) }
    ensures bound { result ≤ 65537 }
{
    let counter = Counter::from_image(counter_image(pit, n % 3));
    counter.until_change().unwrap_or(0)
}

/// One counter of a timer's image, `n` being 0, 1 or any other for 2: `zebludor_pit_out` and
/// `zebludor_pit_until_change` need only it, and leave the others out.
#[tactic(auto, unfolding(pit8253::specs::PitNumbers::pit_of))]
fn counter_image(pit: &PitImage, n: u8) -> &CounterImage
    ensures { counter_of result.now ≡ counter (pit_of pit.now) n }
{
    match n {
        0 => &pit.counter_0,
        1 => &pit.counter_1,
        _ => &pit.counter_2,
    }
}
