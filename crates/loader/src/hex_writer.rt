//! Writing HEX texts.
ghost use Rattle.std.specs.Prelude.{◌≡◌, ◌+◌, ◌<◌, ◌≤◌, ◌^◌, ◌*◌, ◌/◌, ◌%◌, ◌∷◌, ◌++◌, [], OnOk, length, slice_index};
ghost use Rattle.std.specs.Io.KnownBytes.{Appends};
ghost use Rattle.arrayvec.specs.ArrayVec.{array_vec_len};
ghost use Rattle.hex.specs.Hex.{encode_upper, upper_digits};
ghost use Rattle.loader.specs.HexText.{bytes_from, checksum, hex_text, longest_run, record_line, row_lines};

use crate::hex_record::sum;
use arrayvec::ArrayVec;
use board_types::image::Image;
use std::io::Write;
use thiserror::Error;

/// How many bytes a bank has, whose addresses share an extension record.
const BANK_SIZE: u32 = 65_536;

/// Why a HEX text can't be written.
#[derive(Clone, Copy, Debug, PartialEq, Eq, Drop, Error)]
pub enum WriteFault {
    #[error("the writer failed")]
    Failed,
}

/// Writes the Intel HEX text of an image, to save an assembled program: in upper case, in the order of addresses, with
/// a record of its paragraph before each bank of 65,536 bytes that is in use, and in each record the longest run of up
/// to 16 bytes. Fails if the writer does; how much it has taken by then isn't said.
pub fn write_hex<W: Write>(image: &Image, to: &mut W) -> Result<(), WriteFault>
    ensures { OnOk result (Appends (W.contents to.old) (W.contents to.new) (hex_text image.now)) }
{
    let mut bank = None;
    let mut skip = 0;
    for (address, _) in image.iter() {
        if 0 < skip {
            skip -= 1;
            continue;
        }
        let address = *address;
        let row = row_at(image, address);
        let text = row_text(bank, address, row.as_slice());
        write_text(to, text.as_slice())?;
        bank = Some(address / BANK_SIZE);
        skip = row.len() - 1;
    }
    write_text(to, b":00000001FF\n")
}

/// Writes lines of a HEX text as a whole, or answers that the writer failed.
fn write_text<W: Write>(to: &mut W, text: &[u8]) -> Result<(), WriteFault>
    ensures { OnOk result (Appends (W.contents to.old) (W.contents to.new) text.now) }
{
    match to.write_all(text) {
        Ok(()) => Ok(()),
        Err(_) => Err(WriteFault::Failed),
    }
}

/// The bytes of the image that one record of its HEX text holds: the longest run of up to 16 from an address on, within
/// its bank of 65,536 bytes. Empty if there is no byte at the address.
fn row_at(image: &Image, start: u32) -> ArrayVec<u8, 16>
    requires { start < 2 ^ 20 }
    ensures { result.items ≡ longest_run (bytes_from image.now start) start 16 }
{
    let mut row = ArrayVec::new();
    for count in 0..16 {
        let address = start + count;
        let Some(byte) = image.get(address) else {
            return row;
        };
        row.push(byte);
        if (address + 1) % 65_536 == 0 {
            return row;
        }
    }
    row
}

/// The lines of a HEX text for a run of bytes at `address`: its data record, and before it the record of its bank's
/// paragraph, unless `last`, the bank of the run before, is the same.
fn row_text(last: Option<u32>, address: u32, row: &[u8]) -> ArrayVec<u8, 64>
    requires address { address < 2 ^ 20 }
    requires row { length row.now ≤ 16 }
    ensures { result.items ≡ row_lines last address row.now }
{
    let bank = address / BANK_SIZE;
    let mut text = ArrayVec::new();
    if last != Some(bank) {
        push_record(&mut text, &[2, 0, 0, 2, (16 * bank) as u8, 0]);
    }
    push_record(&mut text, data_bytes(address, row).as_slice());
    text
}

/// The bytes of a data record for a run of bytes, without its checksum: their number, the load offset with its high
/// byte first, the type 0, and the run.
fn data_bytes(address: u32, row: &[u8]) -> ArrayVec<u8, 20>
    requires { length row.now ≤ 16 }
    ensures bytes { result.items ≡ length row.now ∷ address % 65536 / 256 ∷ address % 256 ∷ 0 ∷ row.now }
    ensures length { array_vec_len result ≤ 20 }
{
    let mut bytes = ArrayVec::new();
    bytes.push(row.len() as u8);
    bytes.push((address % BANK_SIZE / 256) as u8);
    bytes.push((address % 256) as u8);
    bytes.push(0);
    for byte in row {
        bytes.push(*byte);
    }
    bytes
}

/// Adds to a HEX text the line of a record of these bytes: a colon, their digits, those of their checksum, and a line
/// feed.
#[tactic(auto, unfolding(crate::specs::HexText::record_line))]
fn push_record(text: &mut ArrayVec<u8, 64>, bytes: &[u8])
    requires { array_vec_len text.old + 2 * length bytes.now + 4 ≤ 64 }
    ensures line { text.new.items ≡ text.old.items ++ record_line bytes.now }
    ensures length { array_vec_len text.new ≡ array_vec_len text.old + 2 * length bytes.now + 4 }
{
    text.push(b':');
    for byte in bytes {
        push_byte(text, *byte);
    }
    push_byte(text, checksum(bytes));
    text.push(b'\n');
}

/// Adds a byte to a record's line, as two hexadecimal digits in upper case.
#[tactic(auto, unfolding(hex::specs::Hex::encode_with))]
fn push_byte(text: &mut ArrayVec<u8, 64>, byte: u8)
    requires { array_vec_len text.old + 2 ≤ 64 }
    ensures digits { text.new.items ≡ text.old.items ++ encode_upper (byte ∷ []) }
    ensures length { array_vec_len text.new ≡ array_vec_len text.old + 2 }
{
    text.push(digit(byte / 16));
    text.push(digit(byte % 16));
}

/// The character of a hexadecimal digit, 0 to 15, in upper case, for a record's line.
fn digit(number: u8) -> u8
    requires { number < 16 }
    ensures { result ≡ slice_index upper_digits number }
{
    b"0123456789ABCDEF"[usize::from(number)]
}

/// The checksum of a record with these bytes: the one with which all of them add to 0 modulo 256.
fn checksum(bytes: &[u8]) -> u8
    requires { length bytes.now < 2 ^ 16 }
    ensures { result ≡ checksum bytes.now }
{
    ((256 - sum(bytes) % 256) % 256) as u8
}
