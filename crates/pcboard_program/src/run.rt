//! Running a source, an image or texts for a number of clocks.
ghost use Rattle.std.specs.Prelude.{◌≡◌, ◌+◌, ◌++◌, ◌≤◌, ◌^◌, ℕ, List, IfErr, IfOk, Ok, OnOk, string_bytes};
ghost use Rattle.board_plain.specs.declared.fault.BoardFault.TheVariants.{Memory};
ghost use Rattle.board_plain.specs.Plain.{after_clocks, changes_in, clock_of};
ghost use Rattle.board_lines.specs.Text.{report_text};
ghost use Rattle.assembler.specs.Gives.{Gives};
ghost use Rattle.loader.specs.declared.run_file.RunFile.{RunFile};
ghost use Rattle.loader.specs.RunFile.{Answers, run_of_text};
ghost use Rattle.pcboard_texts.specs.Answer.{GivesImage, IsReport, IsTrueRefusal};
ghost use Rattle.pcboard_texts.specs.ReadyBoard.{IsAtPowerOn};
ghost use Rattle.pcboard_texts.specs.ImageReport.{FitsBoard};
ghost use Rattle.pcboard_program.specs.Report.{ReportsImage, ReportsSource};
ghost use Rattle.pcboard_texts.specs.RunFaults.{IsTrueOfImage, IsTrueOfSource, IsWantOfMemory};

use crate::report::Report;
use assembler::assembly::assemble;
use board::board::Board;
use board_plain::config::Config;
use board_report::text::report_text;
use board_types::image::Image;
use loader::run_file::RunFile;
use pcboard_texts::fault::Fault;
use pcboard_texts::texts::read_texts;
use std::alloc::Global;

/// Assembles `source`, runs its image as the run file says, and reports the board: a run in one contract, for its
/// readers; the program itself uses `run_texts`. Refused with the source's first fault, with `RamSize` if image and RAM
/// don't suit the board, and for want of memory.
pub fn run_source(alloc: Global, source: &[u8], run: &RunFile) -> Result<Report, Fault>
    ensures report { IfOk result (λ report. ReportsSource source.now run.now report) }
    ensures fault { IfErr result (λ fault. IsTrueOfSource source.now run.now fault) }

    // If the source gives an image that fits the board, only the want of memory refuses it.
    ensures accepted { (image : List (ℕ × ℕ)) → Gives source.now image → FitsBoard image run.now
        → IfErr result IsWantOfMemory }
{
    let listing = assemble(alloc, source)?;
    run_image(alloc, listing.image(), run)
}

/// Runs a HEX text, if `hex`, else a source, as the text of a run file says, for the program `pcboard` and for calls
/// from C. Refused with the program's fault before the run file's, and with both before the board's.
pub fn run_texts(alloc: Global, hex: bool, bytes: &[u8], run: &[u8]) -> Result<Report, Fault>
    ensures report { IfOk result (λ report. IsReport hex bytes.now run.now (string_bytes report.text)) }
    ensures fault { IfErr result (IsTrueRefusal hex bytes.now run.now) }

    // If the bytes give an image and the run file a board that can have it, only the want of memory refuses them.
    ensures accepted { (image : List (ℕ × ℕ)) → GivesImage hex bytes.now image → (run_file : RunFile)
        → Answers (Ok run_file) (run_of_text run.now) → FitsBoard image run_file → IfErr result IsWantOfMemory }
{
    let (image, run) = read_texts(alloc, hex, bytes, run)?;
    run_image(alloc, &image, &run)
}

/// Runs an image for the run file's budget of clocks, on the board and with the stamped key codes that it describes,
/// and reports that board. Refused with `RamSize` if the board can't have that RAM or the image doesn't fit in it, and
/// for want of memory.
pub fn run_image(alloc: Global, image: &Image, run: &RunFile) -> Result<Report, Fault>
    ensures report { IfOk result (λ report. ReportsImage image.now run.now report) }
    ensures fault { IfErr result (λ fault. IsTrueOfImage image.now run.now fault) }

    // If the image fits the board, only the want of memory refuses it.
    ensures accepted { FitsBoard image.now run.now → IfErr result IsWantOfMemory }
{
    let mut board = new_board(alloc, image, run)?;
    match text_after(alloc, &mut board, run.budget.get()) {
        Ok(text) => Ok(Report { board, text }),
        Err(fault) => {
            // dropped by a call, so that this is proved once
            drop(board);
            Err(fault)
        }
    }
}

/// Runs a board for all the `count` clocks of a run file's budget, and returns the report's text, for `pcboard run`
/// to print. Fails only for want of memory.
fn text_after(alloc: Global, board: &mut Board, count: u64) -> Result<String, Fault>
    requires { clock_of board.old.plain + count ≤ 2 ^ 40 }
    ensures plain { OnOk result (board.new.plain ≡ after_clocks board.old.plain count) }
    ensures clock { OnOk result (clock_of board.new.plain ≡ clock_of board.old.plain + count) }
    ensures changes { OnOk result (board.new.changes ≡ board.old.changes ++ changes_in board.old.plain count) }
    ensures text { IfOk result (λ text. string_bytes text ≡ report_text board.new.plain board.new.changes) }
    ensures fault { IfErr result (λ fault. fault ≡ Fault.Board Memory) }
{
    board.run(count)?;
    Ok(report_text(alloc, board)?)
}

/// The board at power-on, for a run or a session, with the image in its memory, and with RAM, switches, timer, clock
/// table and keys as the run file says. Refused with `RamSize`, and for want of memory.
pub(crate) fn new_board(alloc: Global, image: &Image, run: &RunFile) -> Result<Board, Fault>
    ensures start { IfOk result (IsAtPowerOn image.now run.now) }
    ensures clock { IfOk result (λ board. clock_of board.plain ≡ 0) }
    ensures fault { IfErr result (IsTrueOfImage image.now run.now) }
{
    let config = Config {
        ram_kb: run.ram_kb,
        sw1: run.sw1,
        sw2: run.sw2,
        timer: run.timer,
        clocks: run.clocks,
    };
    let keys = run.keys.copy()?;
    Ok(Board::new(alloc, image, config, keys)?)
}
