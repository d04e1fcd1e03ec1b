//! A board's bytes, as the decoder reads them.
use board::board::Board;
use board_types::bytes::Bytes;

/// A board's memory as the bytes from which the decoder reads, for the inquiry `list`.
#[derive(Clone, Copy)]
pub(crate) struct BoardBytes<'a>(pub(crate) &'a Board);

impl Bytes for BoardBytes<'_> {
    ghost use Rattle.board_plain.specs.Plain.{byte_of};

    ghost byte_at = { λ bytes. byte_of bytes.0.now.plain };

    /// Reads a byte of the board's memory at a physical address, without any effect on the board.
    fn byte(&self, addr: u32) -> u8 {
        self.0.byte(addr)
    }
}
