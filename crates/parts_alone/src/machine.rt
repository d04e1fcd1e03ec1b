//! The board driven from code: an image, key codes that are stamped with clocks, and a run up to a stop.
ghost use Rattle.std.specs.Prelude.{◌≡◌, ◌↔◌, ◌<◌, ◌*◌, ◌^◌, ◌∷◌, [], IfOk};
ghost use Rattle.std.specs.Result.{IsErrOf};
ghost use Rattle.memory.specs.Map.{IsRamSize, FitsRam};
ghost use Rattle.board_plain.specs.Plain.{board_after, power_on};
ghost use Rattle.board_plain.specs.Stops.{IsStopOf, run_length};

use board::board::Board;
use board_plain::config::Config;
use board_plain::fault::BoardFault;
use board_plain::stop::{Condition, Stopped, Stops};
use board_types::choice::{ClockTable, TimerKind};
use board_types::image::Image;
use board_types::keys::Keys;
use std::alloc::Global;

/// 64 KB of RAM, all switches on, an 8253, and the first table of clocks.
pub const CONFIG: Config = Config {
    ram_kb: 64,
    sw1: 0,
    sw2: 0,
    timer: TimerKind::I8253,
    clocks: ClockTable::C1,
};

/// The source of a program for the board's example: it waits for a key's code, shows a character for it (for the key A
/// an A), and halts.
pub fn program() -> &'static [u8] {
    b"SEGMENT MAIN AT 0F000h
start:  MOV AL,99h
        OUT 63h,AL              ; the parallel port: B is an output
        MOV AL,40h
        OUT 61h,AL              ; line 6: the keyboard may send
poll:   IN AL,60h               ; the latch, 0 while it is empty
        TEST AL,AL
        JZ poll
        MOV BX,0B000h
        MOV ES,BX
        ADD AL,'A'-1Eh
        MOV AH,7
        STOSW
        MOV DX,3B8h
        MOV AL,8
        OUT DX,AL               ; video on
        HLT
ENDS
SEGMENT RESET AT 0FFFFh
        JMP FAR start
ENDS
"
}

/// Runs an image, with these keys, to the first clock at which the processor is halted, or `limit` clocks, and returns
/// the board there and which of the two it was: the board used from code. Refused as `RamSize` if the image doesn't fit
/// the RAM, as `ClockLimit` only if `limit` is above 2^40, and for want of memory.
pub fn run_to_halt(
    alloc: Global,
    image: &Image,
    keys: Keys,
    limit: u64,
) -> Result<(Board, Stopped), BoardFault>
    ensures ram_size { IsErrOf result BoardFault.RamSize
        ↔ (¬ (IsRamSize CONFIG.ram_kb × FitsRam image.now (1024 * CONFIG.ram_kb))) }
    ensures limit { IsErrOf result BoardFault.ClockLimit → 2 ^ 40 < limit }
    ensures stop { IfOk result (λ ran. IsStopOf (Condition.Halted ∷ []) limit (power_on image.now CONFIG keys) ran.1) }
    ensures plain { IfOk result (λ ran. ran.0.plain ≡ board_after image.now CONFIG keys
        (run_length limit (power_on image.now CONFIG keys) ran.1)) }
{
    let mut halt = Stops::new();
    halt.push(Condition::Halted);
    let mut board = Board::new(alloc, image, CONFIG, keys)?;
    let stopped = board.run_until(limit, &halt)?;
    Ok((board, stopped))
}
