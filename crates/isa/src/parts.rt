//! The row that bytes begin with.
ghost use Rattle.std.specs.Prelude.{◌≡◌, IsTrue, find};
ghost use Rattle.isa.specs.OpcodeBytes.{begins, is_code, is_named, is_reg, is_second, is_segment_not_cs, row_at};
ghost use Rattle.isa.specs.RowSearch.{is_before};

use crate::layout::{CodePart, PlacePart, RegPart, Second};
use crate::row::Row;
use crate::table::table;

/// For each opcode the number of rows before the first that it begins.
static FIRST: [u8; 256] = [
    37, 45, 53, 61, 0, 13, 69, 70, 38, 46, 54, 62, 1, 14, 69, 236, 39, 47, 55, 63, 2, 15, 69, 70,
    40, 48, 56, 64, 3, 16, 69, 70, 41, 49, 57, 65, 4, 17, 236, 71, 42, 50, 58, 66, 5, 18, 236, 72,
    43, 51, 59, 67, 6, 19, 236, 73, 44, 52, 60, 68, 7, 20, 236, 74, 75, 75, 75, 75, 75, 75, 75, 75,
    76, 76, 76, 76, 76, 76, 76, 76, 77, 77, 77, 77, 77, 77, 77, 77, 78, 78, 78, 78, 78, 78, 78, 78,
    236, 236, 236, 236, 236, 236, 236, 236, 236, 236, 236, 236, 236, 236, 236, 236, 79, 80, 81, 82,
    83, 84, 85, 86, 87, 88, 89, 90, 91, 92, 93, 94, 21, 29, 225, 8, 95, 96, 98, 99, 106, 107, 108,
    109, 112, 114, 113, 118, 97, 97, 97, 97, 97, 97, 97, 97, 119, 120, 195, 121, 122, 123, 124,
    125, 100, 101, 102, 103, 126, 127, 128, 129, 136, 137, 130, 131, 132, 133, 134, 135, 104, 104,
    104, 104, 104, 104, 104, 104, 105, 105, 105, 105, 105, 105, 105, 105, 236, 236, 140, 141, 115,
    116, 110, 111, 236, 236, 142, 143, 144, 145, 146, 147, 148, 155, 162, 169, 176, 177, 236, 178,
    179, 179, 179, 179, 179, 179, 179, 179, 180, 181, 182, 183, 184, 185, 188, 189, 192, 193, 196,
    194, 186, 187, 190, 191, 236, 236, 236, 236, 197, 198, 138, 139, 199, 200, 201, 202, 203, 204,
    217, 117,
];

/// How many rows come before the first that the opcode begins; `row_at` starts its search there, to save time.
fn rows_before(opcode: u8) -> usize
    ensures { IsTrue (is_before opcode result) }
{
    usize::from(FIRST[usize::from(opcode)])
}

/// The only row of the table that fits an opcode and the byte after it, for the decoder; `None` if these bytes begin no
/// instruction.
#[tactic(auto, unfolding(crate::specs::OpcodeBytes::row_at))]
pub fn row_at(opcode: u8, next: u8) -> Option<Row>
    ensures { result ≡ row_at opcode next }
{
    first_of(&table()[rows_before(opcode)..], opcode, next)
}

/// The first of some of the table's rows that fits an opcode and the byte after it; `None` if none does.
fn first_of(rows: &[Row], opcode: u8, next: u8) -> Option<Row>
    ensures { result ≡ find (λ r. begins r opcode next) rows.now }
{
    rows.iter().copied().find(|row| row.begins(opcode, next))
}

impl Row {
    /// Whether an opcode, and the byte after it, are this row's; how the decoder finds an instruction's row.
    pub fn begins(self, opcode: u8, next: u8) -> bool
        ensures { result ≡ begins self opcode next }
    {
        self.code_part().is_in(self.opcode, opcode) && self.second_part().is_in(next)
    }
}

impl CodePart {
    /// Whether `byte` is an opcode byte of a row whose opcode is `opcode`, as far as a register's number is added to
    /// it.
    fn is_in(self, opcode: u8, byte: u8) -> bool
        ensures { result ≡ is_code self opcode byte }
    {
        match self {
            CodePart::Fixed => byte == opcode,
            CodePart::Register => opcode <= byte && byte - opcode < 8,
            CodePart::Segment => {
                opcode <= byte && byte % 8 == opcode % 8 && (byte - opcode) / 8 < 4
            }
            CodePart::SegmentNotCs => {
                opcode <= byte && byte % 8 == opcode % 8 && is_segment_not_cs((byte - opcode) / 8)
            }
        }
    }
}

/// Whether a number is that of ES, SS or DS, the segment registers that MOV and POP may change.
fn is_segment_not_cs(number: u8) -> bool
    ensures { result ≡ is_segment_not_cs number }
{
    number < 4 && number != 1
}

impl RegPart {
    /// Whether a row allows the number `reg` in its addressing byte: its own digit, any register, or a segment
    /// register.
    fn is_in(self, reg: u8) -> bool
        ensures { result ≡ is_reg self reg }
    {
        match self {
            RegPart::Digit(digit) => reg == digit,
            RegPart::Register => true,
            RegPart::Segment => reg < 4,
            RegPart::SegmentNotCs => is_segment_not_cs(reg),
        }
    }
}

impl PlacePart {
    /// Whether a row allows this mod: LEA, LES and LDS don't allow a register, which is mod 3.
    fn is_in(self, mode: u8) -> bool
        ensures { result ≡ is_named self mode }
    {
        match self {
            PlacePart::Any => true,
            PlacePart::Memory => mode < 3,
        }
    }
}

impl Second {
    /// Whether `byte`, the one after the opcode, is one that the row allows there; any is if the row has no second
    /// byte.
    fn is_in(self, byte: u8) -> bool
        ensures { result ≡ is_second self byte }
    {
        match self {
            Second::Absent => true,
            Second::Exactly(wanted) => byte == wanted,
            Second::Addressing(part, named) => part.is_in(byte / 8 % 8) && named.is_in(byte / 64),
        }
    }
}
