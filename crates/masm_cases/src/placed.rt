//! Lines within a program.
use crate::answers::part_answer;
use anyhow::Result;
use std::alloc::Global;

/// What stands before a line of MASM: 14 lines.
const FRONT: &str =
    "d SEGMENT|b DB 5|w DW 6|dd1 DD 7|tab DW 10 DUP(?)|text DB 'abc'|five EQU 5|d ENDS|e SEGMENT|x DW 1|e ENDS|\
                     c SEGMENT|ASSUME CS:c,DS:d,ES:e|here:|";

/// What stands after a line of MASM.
const BACK: &str = "|fore:|v DW 2|c ENDS|END here";

/// The answer to a `line:` case.
pub fn masm_answer(alloc: Global, text: &str) -> Result<String> {
    let source = format!(in alloc; "{FRONT}{text}{BACK}")?;
    part_answer(alloc, source.as_str(), 15, last_line(text, 15))
}

/// The answer to an `emu:` case.
pub fn emu_answer(alloc: Global, text: &str) -> Result<String> {
    let source = format!(in alloc; "org 100h|{text}|v dw 2|l:")?;
    part_answer(alloc, source.as_str(), 2, last_line(text, 2))
}

/// The number of the last line of a text, of which `first` is the first.
fn last_line(text: &str, first: u32) -> u32 {
    let mut last = first;
    for byte in text.as_bytes() {
        if *byte == b'|' {
            last = last.saturating_add(1);
        }
    }
    last
}
