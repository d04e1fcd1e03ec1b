//! The levels of a board's wires.
ghost use Rattle.std.specs.Prelude.{◌≡◌};
ghost use Rattle.pic8259.specs.Levels.{contains};
ghost use Rattle.probe_texts.specs.Told.{levels_of};

use board::board::Board;
use pic8259::Pic;
use probe_texts::telling::Levels;

/// The levels of a board's wires now. The probe takes them before and after a turn (one step of the board), to tell
/// which wires changed.
#[tactic(auto, unfolding(probe_texts::specs::Told::levels_of))]
pub(crate) fn levels_of(board: &Board) -> Levels
    ensures { result ≡ levels_of board.now.plain }
{
    let timer = board.timer();
    let controller = board.controller();
    let (ir_0, ir_1) = lines_of(&controller);
    Levels {
        out_0: timer.out(0).is_high(),
        out_2: timer.out(2).is_high(),
        ir_0,
        ir_1,
        int: controller.request(),
        speaker: board.speaker().is_high(),
    }
}

/// Whether request lines 0 and 1 of the interrupt controller are high, which the timer and the keyboard drive.
#[tactic(auto, unfolding(pic8259::specs::PicNumbers::pic_of))]
fn lines_of(controller: &Pic) -> (bool, bool)
    ensures ir_0 { result.0 ≡ contains controller.now.high 0 }
    ensures ir_1 { result.1 ≡ contains controller.now.high 1 }
{
    let lines = controller.image().high;
    (lines % 2 == 1, lines / 2 % 2 == 1)
}
