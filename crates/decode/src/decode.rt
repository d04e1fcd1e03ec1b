//! The instruction at CS:IP.
ghost use Rattle.std.specs.Int.{to_le_bytes, w64};
ghost use Rattle.std.specs.Prelude.{◌≡◌, ◌≤◌, ◌<◌, ◌+◌, ◌^◌, length, take, drop, slice_index, None, Some, []};
ghost use Rattle.board_types.specs.Address.{physical, offset_after};
ghost use Rattle.isa.specs.Layout.{second_part};
ghost use Rattle.decode.specs.DecodedSlots.{IsSlotAt};
ghost use Rattle.decode.specs.Decoding.{code_at, decoded_after, decoded_from, form_at, found_or_none, prefix_of, prefixes_at, values_at, IsDecoded};

use crate::decoded::{Decoded, decoded};
use crate::decoding::Decoding;
use crate::parts::{code_of, number_at, place_at, prefix_of, reg_at, segment_at};
use arrayvec::ArrayVec;
use board_types::address::physical;
use board_types::bytes::Bytes;
use isa::form::{Form, Instr, Prefix, Values};
use isa::layout::Second;
use isa::parts::row_at;
use isa::row::Row;

/// As many bytes as the longest instruction has: seven prefixes, an opcode, a second byte, a displacement and a far
/// address.
const LONGEST: usize = 15;

/// Decodes the instruction at CS:IP, with seven prefixes at most, for steps and the decode cache: its slot, of the deed
/// `NoRow` if no row of the encoding table fits its bytes. CS:IP and the bytes aren't in the slot. Offsets wrap at 65,536
/// and addresses at 2^20.
#[tactic(auto, using(crate::proofs::Slots::fits))]
pub fn decode<B: Bytes>(bytes: &B, cs: u16, ip: u16) -> Decoded
    ensures value { IsSlotAt result (decoded_from (code_at (B.byte_at bytes.now) cs ip)) }
    ensures exact { IsDecoded (code_at (B.byte_at bytes.now) cs ip) (decoded_from (code_at (B.byte_at bytes.now) cs ip)) }
{
    decoded(&decoding_at(bytes, cs, ip))
}

/// Decodes the instruction at CS:IP as `decode` does, for a caller that has read the eight bytes from there on at once:
/// `front` has them, the first one lowest.
#[tactic(auto, using(crate::proofs::Slots::fits))]
pub fn decode_read<B: Bytes>(bytes: &B, cs: u16, ip: u16, front: u64) -> Decoded
    requires { to_le_bytes w64 front ≡ take 8 (code_at (B.byte_at bytes.now) cs ip) }
    ensures value { IsSlotAt result (decoded_from (code_at (B.byte_at bytes.now) cs ip)) }
    ensures exact { IsDecoded (code_at (B.byte_at bytes.now) cs ip) (decoded_from (code_at (B.byte_at bytes.now) cs ip)) }
{
    decoded(&decoding_by(bytes, cs, ip, &front_in(front)))
}

/// Decodes the instruction at CS:IP as `decode` does, and writes it out, for listings.
pub fn decoding_at<B: Bytes>(bytes: &B, cs: u16, ip: u16) -> Decoding
    ensures value { result ≡ decoded_from (code_at (B.byte_at bytes.now) cs ip) }
    ensures exact { IsDecoded (code_at (B.byte_at bytes.now) cs ip) result }
{
    decoding_by(bytes, cs, ip, &front_at(bytes, cs, ip))
}

/// Decodes the instruction at CS:IP, of which the first six bytes were read already; what `code` has after them doesn't
/// matter.
fn decoding_by<B: Bytes>(bytes: &B, cs: u16, ip: u16, code: &[u8; LONGEST]) -> Decoding
    requires { take 6 code.now ≡ take 6 (code_at (B.byte_at bytes.now) cs ip) }
    ensures value { result ≡ decoded_from (code_at (B.byte_at bytes.now) cs ip) }
    ensures exact { IsDecoded (code_at (B.byte_at bytes.now) cs ip) result }
{
    match prefix_of(code[0]) {
        None => decode_bare(code),
        Some(_) => decode_whole(bytes, cs, ip),
    }
}

/// Decodes an instruction at CS:IP that begins with a prefix, which is rare: it reads the full 15 bytes.
#[cold]
#[inline(never)]
fn decode_whole<B: Bytes>(bytes: &B, cs: u16, ip: u16) -> Decoding
    ensures value { result ≡ decoded_from (code_at (B.byte_at bytes.now) cs ip) }
    ensures exact { IsDecoded (code_at (B.byte_at bytes.now) cs ip) result }
{
    decode_code(&code_at(bytes, cs, ip))
}

/// The six bytes from CS:IP on that an instruction without prefixes may have, and zeros after them: most instructions
/// have no prefix, and each byte that isn't read saves time.
fn front_at<B: Bytes>(bytes: &B, cs: u16, ip: u16) -> [u8; LONGEST]
    ensures { take 6 result ≡ take 6 (code_at (B.byte_at bytes.now) cs ip) }
{
    let mut code = [0; LONGEST];
    code[0] = code_byte(bytes, cs, ip, 0);
    code[1] = code_byte(bytes, cs, ip, 1);
    code[2] = code_byte(bytes, cs, ip, 2);
    code[3] = code_byte(bytes, cs, ip, 3);
    code[4] = code_byte(bytes, cs, ip, 4);
    code[5] = code_byte(bytes, cs, ip, 5);
    code
}

/// The bytes of a number, the lowest first, and zeros after them.
fn front_in(front: u64) -> [u8; LONGEST]
    ensures { take 6 result ≡ take 6 (to_le_bytes w64 front) }
{
    let own = front.to_le_bytes();
    [
        own[0], own[1], own[2], own[3], own[4], own[5], own[6], own[7], 0, 0, 0, 0, 0, 0, 0,
    ]
}

/// The 15 bytes from CS:IP on, as many as the longest instruction has with its prefixes.
fn code_at<B: Bytes>(bytes: &B, cs: u16, ip: u16) -> [u8; LONGEST]
    ensures { result ≡ code_at (B.byte_at bytes.now) cs ip }
{
    [
        code_byte(bytes, cs, ip, 0),
        code_byte(bytes, cs, ip, 1),
        code_byte(bytes, cs, ip, 2),
        code_byte(bytes, cs, ip, 3),
        code_byte(bytes, cs, ip, 4),
        code_byte(bytes, cs, ip, 5),
        code_byte(bytes, cs, ip, 6),
        code_byte(bytes, cs, ip, 7),
        code_byte(bytes, cs, ip, 8),
        code_byte(bytes, cs, ip, 9),
        code_byte(bytes, cs, ip, 10),
        code_byte(bytes, cs, ip, 11),
        code_byte(bytes, cs, ip, 12),
        code_byte(bytes, cs, ip, 13),
        code_byte(bytes, cs, ip, 14),
    ]
}

/// The byte `index` bytes after CS:IP, with the offset wrapping in the segment, as the processor fetches it.
fn code_byte<B: Bytes>(bytes: &B, cs: u16, ip: u16, index: u16) -> u8
    ensures { result ≡ B.byte_at bytes.now (physical cs (offset_after ip index)) }
{
    bytes.byte(physical(cs, ip.wrapping_add(index)))
}

/// Decodes the instruction at the front of `code`, which begins with no prefix: the common and fast case of `decoding_at`.
fn decode_bare(code: &[u8; LONGEST]) -> Decoding
    requires { prefix_of (slice_index code.now 0) ≡ None }
    ensures value { result ≡ decoded_after [] code.now }
    ensures exact { IsDecoded code.now result }
{
    decode_after(ArrayVec::new(), code)
}

/// Decodes the instruction at the front of `code`, prefixes and all, for bytes that were read already, as those that
/// the trail holds.
pub fn decode_code(code: &[u8; LONGEST]) -> Decoding
    ensures value { result ≡ decoded_from code.now }
    ensures exact { IsDecoded code.now result }
{
    decode_prefixed(code)
}

/// Reads the prefixes at the front of `code`, seven at most, and decodes the instruction after them.
#[tactic(auto, unfolding(crate::specs::Decoding::decoded_from))]
fn decode_prefixed(code: &[u8; LONGEST]) -> Decoding
    ensures { result ≡ decoded_from code.now }
{
    let prefixes = prefixes_at(code);
    let count = prefixes.len();
    decode_after(prefixes, &code[count..])
}

/// The prefixes at the front of `code` in their order, at most seven; an eighth is taken for an opcode, which no row
/// has.
fn prefixes_at(code: &[u8; LONGEST]) -> ArrayVec<Prefix, 7>
    ensures { result.items ≡ prefixes_at 7 code.now }
{
    let mut prefixes = ArrayVec::new();
    for byte in &code[..7] {
        match prefix_of(*byte) {
            Some(prefix) => prefixes.push(prefix),
            None => return prefixes,
        }
    }
    prefixes
}

/// Decodes the instruction at the front of `code`, after these prefixes: finds the encoding table's row for it, or
/// answers `NoRow`.
#[tactic(auto, unfolding(crate::specs::Decoding::decoded_after))]
fn decode_after(prefixes: ArrayVec<Prefix, 7>, code: &[u8]) -> Decoding
    requires { 8 ≤ length code.now }
    ensures { result ≡ decoded_after prefixes.items code.now }
{
    match row_at(code[0], code[1]) {
        Some(row) => decode_row(prefixes, row, code),
        None => Decoding::NoRow,
    }
}

/// Takes the instruction of `row` at the front of `code`, after these prefixes, apart into its form and the numbers in
/// its fields.
#[tactic(auto, unfolding(isa::specs::Encoding::form_length))]
fn decode_row(prefixes: ArrayVec<Prefix, 7>, row: Row, code: &[u8]) -> Decoding
    requires { 8 ≤ length code.now }
    ensures { result ≡ found_or_none prefixes.items code.now (Some row) }
{
    let second = row.second_part();
    let form = form_at(row, second, code[0], code[1]);
    let values = values_at(form, second, code);
    let length = prefixes.len() as u8
        + 1
        + second.size()
        + form.place.displacement().size()
        + row.field().size();
    let instr = Instr {
        prefixes,
        form,
        values,
    };
    Decoding::Found(instr, length)
}

/// The form of an instruction of `row`, read from its opcode and the byte after it. `second` says what `row` has in
/// that byte.
#[tactic(auto, unfolding(crate::specs::Decoding::form_at))]
fn form_at(row: Row, second: Second, opcode: u8, next: u8) -> Form
    requires { second ≡ second_part row }
    ensures value { result ≡ form_at row opcode next }
    ensures row { result.row ≡ row }
{
    Form {
        row,
        code: code_of(row.code_part(), row.opcode(), opcode),
        reg: reg_at(second, next),
        place: place_at(second, next),
    }
}

/// The numbers in the fields of an instruction of this form, whose bytes `code` begins with after the prefixes.
/// `second` says what its row has after the opcode.
#[tactic(auto, unfolding(crate::specs::Decoding::values_at))]
fn values_at(form: Form, second: Second, code: &[u8]) -> Values
    requires second { second ≡ second_part form.row }
    requires long { 8 ≤ length code.now }
    ensures { result ≡ values_at form code.now }
{
    let displacement = form.place.displacement();
    let field = form.row.field();
    let tail = &code[1 + second.size() as usize..];
    let own = &tail[displacement.size() as usize..];
    Values {
        displacement: number_at(displacement, tail),
        number: number_at(field, own),
        segment: segment_at(field, own),
    }
}
