//! Lines of a board's report: its clock, its registers, its state, and the changes of the speaker's level.
ghost use Rattle.std.specs.Prelude.{◌≡◌, ◌++◌, IfOk, OnOk};
ghost use Rattle.std.specs.String.{string_bytes};
ghost use Rattle.std.specs.List.{flat_map};
ghost use Rattle.board_lines.specs.Text.{change_line, clock_line, general_line, register_lines, segment_line, state_lines, state_name};

use board_plain::speaker::SpeakerChange;
use board_types::digits::HexWord;
use board_types::regs::Regs;
use board_types::state::State;
use std::alloc::{AllocError, Global};

/// The first of the two lines of registers: AX to DX, SP, BP, SI and DI in hexadecimal. Fails only if there is no
/// memory for it.
#[tactic(auto, unfolding(crate::specs::Text::general_line))]
fn general_line(alloc: Global, regs: &Regs) -> Result<String, AllocError>
    ensures { IfOk result (λ text. string_bytes text ≡ general_line regs.now) }
{
    let ax = HexWord(regs.ax);
    let bx = HexWord(regs.bx);
    let cx = HexWord(regs.cx);
    let dx = HexWord(regs.dx);
    let sp = HexWord(regs.sp);
    let bp = HexWord(regs.bp);
    let si = HexWord(regs.si);
    let di = HexWord(regs.di);
    format!(in alloc; "AX={ax} BX={bx} CX={cx} DX={dx} SP={sp} BP={bp} SI={si} DI={di}\n")
}

/// The second of the two lines of registers: segment registers, IP and the flags word in hexadecimal. Fails only if
/// there is no memory for it.
#[tactic(auto, unfolding(crate::specs::Text::segment_line))]
fn segment_line(alloc: Global, regs: &Regs) -> Result<String, AllocError>
    ensures { IfOk result (λ text. string_bytes text ≡ segment_line regs.now) }
{
    let cs = HexWord(regs.cs);
    let ds = HexWord(regs.ds);
    let es = HexWord(regs.es);
    let ss = HexWord(regs.ss);
    let ip = HexWord(regs.ip);
    let fl = HexWord(regs.flags.word());
    format!(in alloc; "CS={cs} DS={ds} ES={es} SS={ss} IP={ip} FL={fl}\n")
}

/// The two lines of the registers, in a board's report and as the debugger's answer. Fails only if there is no memory
/// for them.
#[tactic(auto, unfolding(crate::specs::Text::register_lines))]
pub fn register_lines(alloc: Global, regs: &Regs) -> Result<String, AllocError>
    ensures { IfOk result (λ text. string_bytes text ≡ register_lines regs.now) }
{
    let mut text = general_line(alloc, regs)?;
    let segments = segment_line(alloc, regs)?;
    text.push_str(segments.as_str())?;
    Ok(text)
}

/// The line with which a board's report begins, its clock in decimal. Fails only if there is no memory for it.
#[tactic(auto, unfolding(crate::specs::Text::clock_line))]
pub fn clock_line(alloc: Global, clock: u64) -> Result<String, AllocError>
    ensures { IfOk result (λ text. string_bytes text ≡ clock_line clock) }
{
    format!(in alloc; "clock {clock}\n")
}

/// A state's name, as reports and the probe print it.
pub fn state_name(state: State) -> &'static str
    ensures { result.now ≡ state_name state }
{
    match state {
        State::Running => "running",
        State::Halted => "halted",
        State::Jammed => "jammed",
    }
}

/// The lines in a board's report of the processor's state, of the lost key codes, and of how many changes of the
/// speaker's level follow. Fails only if there is no memory for them.
#[tactic(auto, unfolding(crate::specs::Text::state_lines))]
pub fn state_lines(
    alloc: Global,
    state: State,
    lost: u64,
    changes: usize,
) -> Result<String, AllocError>
    ensures { IfOk result (λ text. string_bytes text ≡ state_lines state lost changes) }
{
    let name = state_name(state);
    format!(in alloc; "state {name}\nlost {lost}\nsound {changes}\n")
}

/// The line in a board's report of one change of the speaker's level: its clock, and 1 for high or 0 for low. Fails
/// only if there is no memory for it.
#[tactic(auto, unfolding(crate::specs::Text::change_line))]
fn change_line(alloc: Global, change: SpeakerChange) -> Result<String, AllocError>
    ensures { IfOk result (λ text. string_bytes text ≡ change_line change) }
{
    let clock = change.clock.get();
    let level: u8 = if change.level.is_high() { 1 } else { 0 };
    format!(in alloc; "{clock} {level}\n")
}

/// Adds to the text of a board's report a line for each change of the speaker's level, in order. Fails only if there is
/// no memory for them.
pub fn push_changes(
    alloc: Global,
    text: &mut String,
    changes: &[SpeakerChange],
) -> Result<(), AllocError>
    ensures { OnOk result (string_bytes text.new ≡ string_bytes text.old ++ flat_map change_line changes.now) }
{
    for change in changes {
        let line = change_line(alloc, *change)?;
        text.push_str(line.as_str())?;
    }
    Ok(())
}
