//! The records of a HEX text.
ghost use Rattle.std.specs.Prelude.{◌≡◌, ◌<◌, ◌^◌, IfErr, IfOk, IsTrue, Ok, length, sum};
ghost use Rattle.loader.specs.Records.{address_in, is_whole, number_of_two, record_bytes, record_in, record_of_type, record_of_size};
ghost use Rattle.loader.specs.RecordViews.{IsSmall, Refuses, view_of, view_in};

use crate::hex_fault::RecordFault;
use std::alloc::Global;

/// What extends the offsets of a HEX text's data records to addresses: the last extension record.
#[derive(Clone, Copy)]
pub enum Extension {
    /// A paragraph of 16 bytes: offsets wrap within 65,536 bytes.
    Segment(u16),
    /// The upper 16 of 32 address bits.
    Linear(u16),
}

impl Extension {
    /// The address at which a byte of a data record is loaded, from its offset and the extension that holds there. One
    /// that is no address of the board is refused later.
    pub(crate) fn address(self, offset: u64) -> u64
        requires { offset < 2 ^ 32 }
        ensures { result ≡ address_in self offset }
    {
        match self {
            Extension::Segment(paragraph) => (16 * u64::from(paragraph) + offset % 65_536)
                % (1 << 20),
            Extension::Linear(high) => 65_536 * u64::from(high) + offset,
        }
    }
}

/// A record of a HEX text.
#[derive(Clone, Copy)]
pub enum Record<'a> {
    /// Bytes from a load offset on.
    Bytes { offset: u16, bytes: &'a [u8] },
    /// The end of the text.
    End,
    /// What extends the offsets that follow.
    Extension(Extension),
    /// Where a program starts; nothing is loaded.
    Start,
}

/// Why a line of a HEX text can't be read: a fault of the line, or want of memory.
#[derive(Clone, Copy, Drop)]
pub enum RecordError {
    Fault(RecordFault),
    Memory,
}

/// The bytes that a line of a HEX text spells after its colon, for reading a record from them. `BadRecord` if the
/// colon, a digit or a byte is missing, or there are too many.
pub(crate) fn record_bytes(alloc: Global, line: &[u8]) -> Result<Vec<u8>, RecordError>
    ensures found { IfOk result (λ bytes. record_bytes line.now ≡ Ok bytes.items) }
    ensures whole { IfOk result (λ bytes. IsTrue (is_whole bytes.items)) }
    ensures refused { IfErr result (λ error. Refuses error (record_bytes line.now)) }
{
    let [b':', digits @ ..] = line else {
        return Err(RecordError::Fault(RecordFault::BadRecord));
    };
    match hex::decode(alloc, digits) {
        Ok(bytes) if is_whole(bytes.as_slice()) => Ok(bytes),
        Err(hex::FromHexError::OutOfMemory) => Err(RecordError::Memory),
        _ => Err(RecordError::Fault(RecordFault::BadRecord)),
    }
}

/// Whether a line of a HEX text has all bytes of a record and no more: its first one says how many data bytes it has,
/// and there are five others.
fn is_whole(bytes: &[u8]) -> bool
    ensures { result ≡ is_whole bytes.now }
{
    !bytes.is_empty() && bytes.len() == usize::from(bytes[0]) + 5
}

/// The record that a line of a HEX text is, from all of its bytes; or its fault: they don't add to 0, or are no record
/// of their type.
#[tactic(auto, unfolding(crate::specs::Records::record_in))]
pub(crate) fn record_in(bytes: &[u8]) -> Result<Record<'_>, RecordFault>
    requires { IsTrue (is_whole bytes.now) }
    ensures found { view_in result ≡ record_in bytes.now }
    ensures small { IfOk result (λ found. IsSmall (view_of found)) }
{
    if sum(bytes) % 256 != 0 {
        return Err(RecordFault::BadSum);
    }
    let offset = number_of_two(bytes[1], bytes[2]);
    record_of_type(bytes[3], offset, &bytes[4..][..usize::from(bytes[0])])
}

/// The sum of a record's bytes, from which its checksum is made and by which it is checked.
pub(crate) fn sum(bytes: &[u8]) -> u32
    requires { length bytes.now < 2 ^ 16 }
    ensures { result ≡ sum bytes.now }
{
    bytes.iter().map(|byte| u32::from(*byte)).sum()
}

/// The number of two bytes of a record, high byte first: an offset, or an extension's paragraph or upper address bits.
fn number_of_two(high: u8, low: u8) -> u16
    ensures { result ≡ number_of_two high low }
{
    256 * u16::from(high) + u16::from(low)
}

/// The record of this type (0 data, 1 end, 2 and 4 extensions, 3 and 5 starts) with this load offset and these data
/// bytes. `BadType` for any other type, `BadRecord` if it must have another number of bytes.
#[tactic(auto, unfolding(crate::specs::Records::record_of_type))]
fn record_of_type(kind: u8, offset: u16, content: &[u8]) -> Result<Record<'_>, RecordFault>
    requires { length content.now < 256 }
    ensures found { view_in result ≡ record_of_type kind offset content.now }
    ensures small { IfOk result (λ found. IsSmall (view_of found)) }
{
    match kind {
        0 => Ok(Record::Bytes {
            offset,
            bytes: content,
        }),
        1 => record_of_size(0, content, Record::End),
        2 if content.len() == 2 => Ok(Record::Extension(Extension::Segment(number_of_two(
            content[0], content[1],
        )))),
        4 if content.len() == 2 => Ok(Record::Extension(Extension::Linear(number_of_two(
            content[0], content[1],
        )))),
        3 | 5 => record_of_size(4, content, Record::Start),
        2 | 4 => Err(RecordFault::BadRecord),
        _ => Err(RecordFault::BadType),
    }
}

/// The record `found`, an end or start, if it has as many data bytes as its type must, `size`; else `BadRecord`.
fn record_of_size<'a>(
    size: usize,
    content: &[u8],
    found: Record<'a>,
) -> Result<Record<'a>, RecordFault>
    requires { IsSmall (view_of found) }
    ensures found { view_in result ≡ record_of_size size content.now (view_of found.entry) }
    ensures small { IfOk result (λ given. IsSmall (view_of given)) }
{
    if content.len() == size {
        Ok(found)
    } else {
        Err(RecordFault::BadRecord)
    }
}
