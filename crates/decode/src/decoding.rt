//! What stands at CS:IP.
use isa::form::Instr;

/// What the decoder finds, written out.
#[derive(Drop)]
pub enum Decoding {
    /// The one instruction whose bytes stand at CS:IP, with its prefixes, and how many bytes it has with them.
    Found(Instr, u8),
    /// No row of the encoding table fits.
    NoRow,
}
