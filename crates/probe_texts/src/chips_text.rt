//! What a board's chips hold, as lines of text.
ghost use Rattle.std.specs.Prelude.{◌≡◌, ◌++◌, OnOk};
ghost use Rattle.std.specs.List.{flat_map};
ghost use Rattle.std.specs.String.{string_bytes};
ghost use Rattle.debugger_meaning.specs.Dump.{spaced_byte};
ghost use Rattle.ppi8255.specs.PpiNumbers.{direction_by};
ghost use Rattle.probe_texts.specs.ChipsText.{adapter_line, direction_text, inhibited_text, keyboard_line, ports_line, processor_boundary, processor_state, speaker_line, timer_lines};

use crate::counter_text::push_counter;
use crate::shown::{ByteOrNone, digit};
use board_lines::lines::state_name;
use board_types::digits::{HexByte, HexWord};
use board_types::line::Line;
use board_types::state::State;
use execute_meaning::shadow::Shadow;
use keyboard::keyboard::Keyboard;
use mda_text::registers::Registers;
use pit8253::pit::Pit;
use ppi8255::ppi::{Inputs, Ppi};
use std::alloc::AllocError;

/// Adds the lines of the timer's three counters to the answer to `chips`.
#[tactic(auto, unfolding(crate::specs::ChipsText::timer_lines, pit8253::specs::PitNumbers::pit_of))]
pub fn push_timer(text: &mut String, pit: &Pit) -> Result<(), AllocError>
    ensures { OnOk result (string_bytes text.new ≡ string_bytes text.old ++ timer_lines pit.now) }
{
    let image = pit.image();
    push_counter(text, 0, &image.counter_0)?;
    push_counter(text, 1, &image.counter_1)?;
    push_counter(text, 2, &image.counter_2)
}

/// Adds the parallel port's line to the answer to `chips`: each port's direction, and the byte that a read would give
/// now.
#[tactic(auto, unfolding(crate::specs::ChipsText::ports_line, ppi8255::specs::PpiNumbers::ppi_of))]
pub fn push_ports(text: &mut String, ppi: &Ppi, inputs: Inputs) -> Result<(), AllocError>
    ensures { OnOk result (string_bytes text.new ≡ string_bytes text.old ++ ports_line ppi.now inputs) }
{
    let image = ppi.image();
    let a = direction_text(image.a);
    let b = direction_text(image.b);
    let upper = direction_text(image.c_upper);
    let lower = direction_text(image.c_lower);
    let port_a = HexByte(ppi.read(0, inputs));
    let port_b = HexByte(ppi.read(1, inputs));
    let port_c = HexByte(ppi.read(2, inputs));
    write!(
        text,
        "ports A {a} {port_a} B {b} {port_b} C {upper}/{lower} {port_c}\n"
    )
}

/// Returns the word for a port's direction in the parallel port's line: `out` for 0 in its image, else `in`.
fn direction_text(number: u8) -> &'static str
    ensures { result.now ≡ direction_text (direction_by number) }
{
    if number == 0 { "out" } else { "in" }
}

/// Adds the keyboard's line to the answer to `chips`: the code in its latch, how many codes were lost, and those that
/// wait.
#[tactic(auto, unfolding(crate::specs::ChipsText::keyboard_line))]
pub fn push_keyboard(text: &mut String, keyboard: &Keyboard) -> Result<(), AllocError>
    ensures { OnOk result (string_bytes text.new ≡ string_bytes text.old ++ keyboard_line keyboard.now) }
{
    let latch = ByteOrNone(keyboard.latch());
    let lost = keyboard.lost();
    write!(text, "keyboard latch {latch} lost {lost} waiting")?;
    push_waiting(text, keyboard)?;
    text.push_str("\n")
}

/// Adds the key codes that wait to the keyboard's line, a blank before each.
fn push_waiting(text: &mut String, keyboard: &Keyboard) -> Result<(), AllocError>
    ensures { OnOk result (string_bytes text.new ≡ string_bytes text.old ++ flat_map spaced_byte keyboard.now.waiting) }
{
    let mut index = 0;
    while let Some(code) = keyboard.waiting(index) {
        let code = HexByte(code);
        write!(text, " {code}")?;
        index += 1;
    }
    Ok(())
}

/// Adds the speaker's line to the answer to `chips`, with its level.
#[tactic(auto, unfolding(crate::specs::ChipsText::speaker_line))]
pub fn push_speaker(text: &mut String, level: Line) -> Result<(), AllocError>
    ensures { OnOk result (string_bytes text.new ≡ string_bytes text.old ++ speaker_line level) }
{
    let level = digit(level.is_high());
    write!(text, "speaker {level}\n")
}

/// Adds the display adapter's line to the answer to `chips`: the index register, the addresses where the screen starts
/// and where the cursor stands, whether video is on, and where the beam stands in its raster.
#[tactic(auto, unfolding(crate::specs::ChipsText::adapter_line))]
pub fn push_adapter(text: &mut String, registers: Registers) -> Result<(), AllocError>
    ensures { OnOk result (string_bytes text.new ≡ string_bytes text.old ++ adapter_line registers) }
{
    let index = HexByte(registers.index);
    let start = HexWord(registers.start);
    let cursor = HexWord(registers.cursor);
    let video = digit(registers.video);
    let raster = registers.raster;
    write!(
        text,
        "adapter index {index} start {start} cursor {cursor} video {video} raster {raster}\n"
    )
}

/// Adds the start of the processor's line: its state, the clocks that its last step or entry still takes, and IF.
#[tactic(auto, unfolding(crate::specs::ChipsText::processor_state))]
pub fn push_processor(
    text: &mut String,
    state: State,
    busy: u16,
    enabled: bool,
) -> Result<(), AllocError>
    ensures { OnOk result (string_bytes text.new ≡ string_bytes text.old ++ processor_state state busy enabled) }
{
    let state = state_name(state);
    let enabled = digit(enabled);
    write!(text, "processor {state} busy {busy} IF {enabled}")
}

/// Adds the end of the processor's line, what decides its next boundary: the interrupts that the last instruction keeps
/// off, and whether a single step is due or a repeat is under way.
#[tactic(auto, unfolding(crate::specs::ChipsText::processor_boundary))]
pub fn push_boundary(
    text: &mut String,
    shadow: Shadow,
    is_step_due: bool,
    is_repeating: bool,
) -> Result<(), AllocError>
    ensures { OnOk result (string_bytes text.new
        ≡ string_bytes text.old ++ processor_boundary shadow is_step_due is_repeating) }
{
    let inhibited = inhibited_text(shadow);
    let step = digit(is_step_due);
    let repeat = digit(is_repeating);
    write!(text, " inhibits {inhibited} step {step} repeat {repeat}\n")
}

/// Returns the word of the processor's line for what the last instruction keeps off: `none`, `requests`, or all
/// `interrupts`.
fn inhibited_text(shadow: Shadow) -> &'static str
    ensures { result.now ≡ inhibited_text shadow }
{
    match shadow {
        Shadow::Nothing => "none",
        Shadow::Requests => "requests",
        Shadow::Interrupts => "interrupts",
    }
}
