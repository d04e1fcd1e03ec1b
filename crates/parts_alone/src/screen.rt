//! The text adapter alone: its registers through their ports, a cell of text memory, and the status.
use board_types::timed::Timed;
use mda_text::mda::{INDEX_PORT, MODE_PORT, Mda, REGISTER_PORT, STATUS_PORT};
use std::alloc::{AllocError, Global};

/// When the beam first goes back, in processor clocks from power-on.
const FIRST_RETRACE: u64 = 219;

/// The character of the cell at row 2 and column 0, after the start address was set to word 1,920 and an `A` written to
/// the cell's word, and the status at power-on and when the beam first goes back: an example of the text adapter used
/// alone.
pub fn shown(alloc: Global) -> Result<(u8, u8, u8), AllocError> {
    let mut mda = Mda::new(alloc)?;
    mda.write_port(INDEX_PORT, 12);
    mda.write_port(REGISTER_PORT, 0x07); // the start address's high part
    mda.write_port(INDEX_PORT, 13);
    mda.write_port(REGISTER_PORT, 0x80); // its low part: 780h, which is 24 times 80
    mda.write_port(MODE_PORT, 0x08); // video enable
    mda.write_mem(0x40, b'A'); // word 32, which is (1,920 + 2 times 80) modulo 2,048: the code
    mda.write_mem(0x41, 0x07); // and the attribute
    let before = mda.read_port(STATUS_PORT);
    mda.advance(FIRST_RETRACE);
    Ok((mda.cell(2, 0), before, mda.read_port(STATUS_PORT)))
}
