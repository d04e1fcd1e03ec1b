//! What a board's chips hold, as text.
ghost use Rattle.std.specs.Prelude.{◌≡◌, IfOk};
ghost use Rattle.std.specs.String.{string_bytes};
ghost use Rattle.probe_texts.specs.ChipsText.{chips_text};
ghost use Rattle.wiring.specs.EachWire.{inputs_of};

use board::board::Board;
use ppi8255::ppi::Inputs;
use probe_texts::chips_text::{
    push_adapter, push_boundary, push_keyboard, push_ports, push_processor, push_speaker,
    push_timer,
};
use probe_texts::controller_text::push_controller;
use std::alloc::{AllocError, Global};

/// Returns the answer to the inquiry `chips`: what the board's chips hold, a line for each chip and counter, and the
/// processor's last.
#[tactic(auto, unfolding(probe_texts::specs::ChipsText::chips_text))]
pub(crate) fn chips_text(alloc: Global, board: &Board) -> Result<String, AllocError>
    ensures { IfOk result (λ text. string_bytes text ≡ chips_text board.now.plain) }
{
    let mut text = String::new(alloc);
    push_controller(&mut text, &board.controller().image())?;
    push_timer(&mut text, &board.timer())?;
    push_ports(&mut text, &board.parallel_port(), inputs(board))?;
    push_keyboard(&mut text, board.keyboard())?;
    push_speaker(&mut text, board.speaker())?;
    push_adapter(&mut text, board.adapter())?;
    let enabled = board.regs().flags.interrupt_enable;
    push_processor(&mut text, board.state(), board.busy(), enabled)?;
    let (shadow, is_step_due) = (board.shadow(), board.is_step_due());
    push_boundary(&mut text, shadow, is_step_due, board.is_repeating())?;
    Ok(text)
}

/// Returns what the board brings to the parallel port's pins, the keyboard's latch and OUT2, by which its ports are
/// read.
fn inputs(board: &Board) -> Inputs
    ensures { result ≡ inputs_of board.now.plain.chips }
{
    Inputs {
        latch: board.keyboard().latch(),
        out2: board.timer().out(2),
    }
}
