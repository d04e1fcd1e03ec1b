//! An 8253 alone, as a model of a timer: counter 2 is programmed through the ports, ticks, and is watched for changes
//! of its output.
ghost use Rattle.std.specs.Prelude.{◌≡◌, ◌<◌, ℕ, IfOk};
ghost use Rattle.parts_alone.specs.Timer.{changes, level_after, square};

use board_types::line::Line;
use pit8253::pit::Pit;
use std::alloc::{AllocError, Global};

/// A timer whose counter 2, programmed through the ports as a program does, makes a square wave of `count` ticks.
pub fn square_timer(count: u16) -> Pit
    requires { 1 < count }
    ensures { (n : ℕ) → level_after result n ≡ square count n }
{
    let mut pit = Pit::new();
    pit.set_gate(2, Line::High);
    pit.write(3, 0xB6); // counter 2, two bytes, mode 3, binary
    pit.write(2, (count % 256) as u8);
    pit.write(2, (count / 256) as u8);
    pit
}

/// Advances the timer by `ticks` ticks and lists those, counted from 1, at which OUT2 changes: the timer used as a
/// model of one.
pub fn changes(alloc: Global, pit: &mut Pit, ticks: u64) -> Result<Vec<u64>, AllocError>
    ensures { IfOk result (λ found. found.items ≡ changes (level_after pit.old) ticks) }
{
    let mut found = Vec::new(alloc);
    let mut level = pit.out(2);
    for tick in 0..ticks {
        pit.advance(1);
        let next = pit.out(2);
        if next != level {
            found.push(tick + 1)?;
        }
        level = next;
    }
    Ok(found)
}

/// The ticks, from 1 to `ticks`, at which a square wave of `count` ticks changes: an example of the timer used alone.
pub fn square_changes(alloc: Global, count: u16, ticks: u64) -> Result<Vec<u64>, AllocError>
    requires { 1 < count }
    ensures { IfOk result (λ found. found.items ≡ changes (square count) ticks) }
{
    let mut pit = square_timer(count);
    changes(alloc, &mut pit, ticks)
}
