//! Instructions whose texts are assembled again.
use crate::code::Code;
use crate::trip::{reads_back_alike, text_of};
use anyhow::{Context, Result, ensure};
use isa::form::Instr;
use isa::layout::Second;
use std::alloc::Global;

/// How many values are tried of the byte after an opcode, if it is a number.
const NUMBERS: u8 = 16;

/// What stands before and after an opcode and its addressing byte.
#[derive(Clone, Copy)]
struct Setting {
    prefix: Option<u8>,
    /// The four bytes after the addressing byte.
    tail: [u8; 4],
    /// Each addressing byte that is a multiple of this is tried.
    step: u8,
}

impl Setting {
    /// Reads the setting in `back PREFIX TAIL STEP`; `None` if it can't be read.
    fn read(text: &str) -> Option<Setting> {
        let (prefix, rest) = text.strip_prefix("back ")?.split_once(' ')?;
        let (tail, step) = rest.split_once(' ')?;
        Some(Setting {
            prefix: match prefix {
                "none" => None,
                digits => Some(u8::from_str_radix(digits, 16).ok()?),
            },
            tail: u32::from_str_radix(tail, 16).ok()?.to_be_bytes(),
            step: step.parse::<u8>().ok()?,
        })
    }

    /// The instruction of these two bytes in the setting, if they give one that is tried: the second must be an
    /// addressing byte, or a number below 16.
    fn instruction(self, opcode: u8, second: u8) -> Option<Instr> {
        let instr = Code::new(self.prefix, opcode, second, self.tail).instruction()?;
        (second < NUMBERS || has_addressing(&instr)).then_some(instr)
    }

    /// Counts the instructions of the setting, and fails with the text of the first that, assembled again, doesn't come
    /// back as the same text.
    fn count(self, alloc: Global) -> Result<u64> {
        let mut count = 0u64;
        for opcode in 0..=255u8 {
            for second in 0..=255u8 {
                if second.checked_rem(self.step) == Some(0)
                    && let Some(instr) = self.instruction(opcode, second)
                {
                    let text = text_of(alloc, &instr)?;
                    ensure!(reads_back_alike(alloc, &text)?, "{text}");
                    count = count.saturating_add(1);
                }
            }
        }
        Ok(count)
    }
}

/// Whether the byte after the instruction's opcode is an addressing byte, of which values up to FFh are tried, not only
/// numbers below 16.
fn has_addressing(instr: &Instr) -> bool {
    matches!(instr.form.row.second_part(), Second::Addressing(_, _))
}

/// The answer to a `back` case: how many instructions of its setting come back from text to bytes with the same text.
/// Fails with the first that doesn't.
pub fn answer_to(alloc: Global, text: &str) -> Result<String> {
    let setting = Setting::read(text).context("no setting")?;
    let count = setting.count(alloc)?;
    Ok(format!(in alloc; "same {count}")?)
}
