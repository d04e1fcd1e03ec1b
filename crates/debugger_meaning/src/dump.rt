//! Addresses and bytes of memory as text.
ghost use Rattle.std.specs.Prelude.{◌≡◌, ◌++◌, IfOk, OnOk, Some, codes};
ghost use Rattle.std.specs.String.{string_bytes};
ghost use Rattle.debugger_meaning.specs.Dump.{address_text, spaced_byte};

use board_types::digits::HexWord;
use std::alloc::{AllocError, Global};
use std::fmt;

/// A physical address, below 100000h, which dumps and event lines show in five hexadecimal digits.
#[derive(Clone, Copy)]
pub struct Address(pub u32);

impl fmt::Display for Address {
    ghost output = { λ a. Some (address_text a.0) };

    /// Writes the address in five hexadecimal digits, for dumps and for the lines of write events.
    #[tactic(auto, using(std::proofs::lemmas::Fmt::hex_one_digit))]
    fn fmt<W: fmt::Write>(&self, f: &mut fmt::Formatter<W>) -> fmt::Result {
        let bank = (self.0 / 65536 % 16) as u8;
        let rest = HexWord((self.0 % 65536) as u16);
        write!(f, "{bank:X}{rest}")
    }
}

/// Adds an address and a colon to a text: the start of a dump's line.
pub fn push_address(alloc: Global, text: &mut String, address: u32) -> Result<(), AllocError>
    ensures { OnOk result (string_bytes text.new ≡ string_bytes text.old ++ (address_text address ++ codes ":")) }
{
    let address = Address(address);
    let shown = format!(in alloc; "{address}:")?;
    text.push_str(shown.as_str())
}

/// Returns a byte in two hexadecimal digits after a blank, as a dump's line shows each.
#[tactic(auto, using(std::proofs::lemmas::Fmt::hex_byte))]
pub fn spaced_byte(alloc: Global, byte: u8) -> Result<String, AllocError>
    ensures { IfOk result (λ text. string_bytes text ≡ spaced_byte byte) }
{
    format!(in alloc; " {byte:02X}")
}
