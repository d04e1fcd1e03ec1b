//! The words of a line: registers, bytes and port accesses. All are hexadecimal.

use crate::ram::Access;
use anyhow::{Context, Result, bail};
use board_types::regs::{Flags, Regs};
use std::alloc::Global;

/// The names of the words of a list of registers, in order.
pub const NAMES: [&str; 14] = [
    "AX",
    "CX",
    "DX",
    "BX",
    "SP",
    "BP",
    "SI",
    "DI",
    "ES",
    "CS",
    "SS",
    "DS",
    "IP",
    "the flags",
];

/// Reads the 14 hexadecimal words of a case's registers, in the order of `NAMES`; refused if there are more or fewer.
pub fn read_words(text: &str) -> Result<[u16; 14]> {
    let mut words = [0u16; 14];
    let mut count = 0usize;
    for word in text.split_whitespace() {
        match words.get_mut(count) {
            Some(register) => *register = u16::from_str_radix(word, 16)?,
            None => bail!("more than 14 words"),
        }
        count = count.saturating_add(1);
    }
    if count < 14 {
        bail!("fewer than 14 words");
    }
    Ok(words)
}

/// The processor's registers and flags word in the order of a case, to be compared with its words.
pub fn words_of(regs: Regs) -> [u16; 14] {
    [
        regs.ax,
        regs.cx,
        regs.dx,
        regs.bx,
        regs.sp,
        regs.bp,
        regs.si,
        regs.di,
        regs.es,
        regs.cs,
        regs.ss,
        regs.ds,
        regs.ip,
        regs.flags.word(),
    ]
}

/// Reads the registers and the flags word with which a case's processor begins.
pub fn read_regs(text: &str) -> Result<Regs> {
    let words = read_words(text)?;
    Ok(Regs {
        ax: words[0],
        cx: words[1],
        dx: words[2],
        bx: words[3],
        sp: words[4],
        bp: words[5],
        si: words[6],
        di: words[7],
        es: words[8],
        cs: words[9],
        ss: words[10],
        ds: words[11],
        ip: words[12],
        flags: read_flags(words[13]),
    })
}

/// The flags of a case's flags word, by their bits as the 8086 has them.
fn read_flags(word: u16) -> Flags {
    Flags {
        carry: word % 2 == 1,
        parity: word / 4 % 2 == 1,
        auxiliary_carry: word / 16 % 2 == 1,
        zero: word / 64 % 2 == 1,
        sign: word / 128 % 2 == 1,
        trap: word / 256 % 2 == 1,
        interrupt_enable: word / 512 % 2 == 1,
        direction: word / 1024 % 2 == 1,
        overflow: word / 2048 % 2 == 1,
    }
}

/// The words of a case's list, such as the bytes written or the port accesses; an empty list is `-`.
pub fn words_in(alloc: Global, list: &str) -> Result<Vec<&str>> {
    let list = list.trim();
    if list == "-" {
        return Ok(Vec::new(alloc));
    }
    Ok(list.split_whitespace().collect(alloc)?)
}

/// Reads bytes of two hexadecimal digits each, as of a case's code; `-` stands for none. Fails if half a byte is left.
pub fn read_bytes(alloc: Global, digits: &str) -> Result<Vec<u8>> {
    let digits = digits.trim();
    let mut bytes = Vec::new(alloc);
    if digits == "-" {
        return Ok(bytes);
    }
    if digits.len() % 2 != 0 {
        bail!("half a byte");
    }
    for i in 0..digits.len() / 2 {
        let pair = digits.get(2 * i..2 * i + 2).context("no digits")?;
        bytes.push(u8::from_str_radix(pair, 16)?)?;
    }
    Ok(bytes)
}

/// The address and the byte in `AAAAA=VV`, a word of a case's list of memory found or written; `None` if it is no such
/// word.
pub fn cell_in(word: &str) -> Option<(u32, u8)> {
    let (address, byte) = word.split_once('=')?;
    let address = u32::from_str_radix(address, 16).ok()?;
    Some((address, u8::from_str_radix(byte, 16).ok()?))
}

/// The port access in `I0040=C3` (a read) or `O0040=C3` (a write), a word of a case's list PORTS; `None` if it is no
/// such word.
pub fn access_in(word: &str) -> Option<Access> {
    let (place, byte) = word.split_once('=')?;
    let (kind, port) = place.split_at_checked(1)?;
    let port = u16::from_str_radix(port, 16).ok()?;
    let byte = u8::from_str_radix(byte, 16).ok()?;
    match kind {
        "I" => Some(Access::Read(port, byte)),
        "O" => Some(Access::Write(port, byte)),
        _ => None,
    }
}
