//! The board of the sessions: counter 2 divides by 2 and goes to the speaker, and then the processor halts.
use anyhow::{Context, Result};
use board::board::Board;
use board_plain::config::Config;
use board_types::choice::{ClockTable, TimerKind};
use board_types::clock::Clock;
use board_types::image::{Image, is_loadable};
use board_types::keys::Keys;
use std::alloc::Global;

/// JMP FAR 0F000h:0, at the reset vector.
const JUMP: [u8; 5] = [0xEA, 0x00, 0x00, 0x00, 0xF0];

/// MOV AL,94h; OUT 43h,AL; MOV AL,2; OUT 42h,AL; MOV AL,99h; OUT 63h,AL; MOV AL,3; OUT 61h,AL; MUL BL; HLT.
const TONE: [u8; 19] = [
    0xB0, 0x94, 0xE6, 0x43, 0xB0, 0x02, 0xE6, 0x42, 0xB0, 0x99, 0xE6, 0x63, 0xB0, 0x03, 0xE6, 0x61,
    0xF6, 0xE3, 0xF4,
];

/// The clocks at which twenty keys each are struck. Nothing takes their codes, so some are lost.
const STRUCK: [u64; 2] = [80, 200];

/// The board of the session cases at power-on: it plays a tone and halts, and keys are struck in the meantime.
pub fn tone_board(alloc: Global) -> Result<Board> {
    let keys = struck(alloc)?;
    let image = tone_image(alloc)?;
    let config = Config {
        ram_kb: 64,
        sw1: 0,
        sw2: 0,
        timer: TimerKind::I8253,
        clocks: ClockTable::C1,
    };
    Ok(Board::new(alloc, &image, config, keys)?)
}

/// The image of the board that plays a tone: its program at F000:0 and a jump to it at the reset vector.
fn tone_image(alloc: Global) -> Result<Image> {
    let mut image = Image::new(alloc);
    put(&mut image, 0xF_FFF0, &JUMP)?;
    put(&mut image, 0xF_0000, &TONE)?;
    Ok(image)
}

/// Puts bytes into the image from an address on, up to the first that isn't loadable.
fn put(image: &mut Image, start: u32, bytes: &[u8]) -> Result<()> {
    let mut addr = start;
    for byte in bytes {
        if !is_loadable(addr) {
            return Ok(());
        }
        image.put(addr, *byte)?;
        addr += 1;
    }
    Ok(())
}

/// The key codes of the board that plays a tone, twenty at each of two clocks, more than its keyboard holds.
fn struck(alloc: Global) -> Result<Keys> {
    let mut keys = Keys::new(alloc);
    for clock in STRUCK {
        let stamp = Clock::new(clock).context("no clock")?;
        for _ in 0..20 {
            keys.push(stamp, 0x1E)?;
        }
    }
    Ok(keys)
}
