//! Memory with a cache of its instructions, which each write passes.
ghost use Rattle.std.specs.Prelude.{◌<◌, ◌^◌};

use crate::judge::{judge, judge_found};
use crate::memory::Memory;
use anyhow::{Context, Result, ensure};
use board_types::address::ADDRESS_COUNT;
use cases::Judged;
use decode::decode::{decode_code, decoding_at};
use decode::decoded::Decoded;
use decode::decoding::Decoding;
use decode_cache::cache::Cache;
use std::alloc::{AllocError, Global};
use std::marker::Model;

/// A memory, and a cache that agrees with it.
#[derive(Drop)]
pub struct CachedMemory {
    memory: Memory,
    cache: Cache,
}

impl Model for CachedMemory {
    ghost use Rattle.std.specs.Prelude.{ℕ, List, slice_index};
    ghost use Rattle.decode_cache.specs.Cache.{Agrees};

    ghost Value = { List ℕ };

    ghost view = { λ c. c.memory };

    ghost invariant = { λ c. Agrees c.cache (slice_index c.memory) };
}

impl CachedMemory {
    /// A clear memory, and an empty cache of its instructions, with which the program begins.
    pub fn new(alloc: Global) -> Result<CachedMemory, AllocError> {
        Ok(CachedMemory {
            memory: Memory::new(alloc)?,
            cache: Cache::new(alloc)?,
        })
    }

    /// Does what a line of the cases says: sets up memory, or judges a case of the cache or of a single instruction.
    /// Fails with what differs, or with why the line can't be read.
    pub fn follow_line(&mut self, alloc: Global, line: &str) -> Result<Judged> {
        let words: Vec<&str> = line.split_whitespace().collect(alloc)?;
        self.follow(alloc, line, &words)
    }

    /// Clears memory (`new`) or writes it (`set`), which are settings for the lines after them, or else judges a case.
    fn follow(&mut self, alloc: Global, line: &str, words: &[&str]) -> Result<Judged> {
        match *words {
            ["new", ..] => self.clear(alloc)?,
            ["set", start, digits] => self.set(start, digits)?,
            _ => {
                self.judge(alloc, line, words)?;
                return Ok(Judged::Case);
            }
        }
        Ok(Judged::Setting)
    }

    /// Judges a case of the decode cache over this memory (`fetch`, `rounds`), or one of an instruction by itself.
    fn judge(&mut self, alloc: Global, line: &str, words: &[&str]) -> Result<()> {
        match *words {
            ["fetch", cs, ip, length, ..] => {
                let text = line.splitn(5, ' ').nth(4).unwrap_or("");
                self.judge_fetch(alloc, cs, ip, length, text)
            }
            ["rounds", rounds, most, cs, ref offsets @ ..] => {
                self.judge_reads(rounds.parse()?, most.parse()?, cs, offsets)
            }
            _ => judge(alloc, line, words),
        }
    }

    /// Clears the memory, and empties the cache, as the line `new` says.
    fn clear(&mut self, alloc: Global) -> Result<()> {
        let cache = Cache::new(alloc)?;
        self.memory.clear();
        self.cache = cache;
        Ok(())
    }

    /// Writes the byte at `addr`, below 100000h, and tells the cache of it, as the machine does, so that it forgets
    /// instructions with that byte.
    fn write(&mut self, addr: u32, byte: u8)
        requires { addr < 2 ^ 20 }
    {
        self.memory.put(addr, byte);
        self.cache.wrote(addr);
    }

    /// Decodes what stands at CS:IP through the cache, for a case to judge.
    fn fetch(&mut self, cs: u16, ip: u16) -> Decoded {
        self.cache.fetch(&self.memory, cs, ip)
    }

    /// What stands at CS:IP: by the bytes that its slot has, if the cache keeps one, else by those of memory.
    fn found(&self, cs: u16, ip: u16) -> Decoding {
        match self.cache.slot(&self.memory, cs, ip) {
            Some(slot) => decode_code(&kept_bytes(slot.code)),
            None => decoding_at(&self.memory, cs, ip),
        }
    }

    /// Writes the bytes of a `set` line's digits, two for each, from an address on.
    fn set(&mut self, start: &str, digits: &str) -> Result<()> {
        let mut addr = u32::from_str_radix(start, 16)?;
        for i in 0..digits.len() / 2 {
            let pair = digits.get(2 * i..2 * i + 2).context("no digits")?;
            let byte = u8::from_str_radix(pair, 16)?;
            self.write(addr % ADDRESS_COUNT, byte);
            addr = addr.wrapping_add(1);
        }
        Ok(())
    }

    /// Judges a `fetch` line: fails unless what stands at CS:IP has this length and text, or is no row of the encoding
    /// table if the length is `none`. Fetches twice, so that what the cache keeps is judged, too.
    fn judge_fetch(
        &mut self,
        alloc: Global,
        cs: &str,
        ip: &str,
        length: &str,
        text: &str,
    ) -> Result<()> {
        let cs = u16::from_str_radix(cs, 16)?;
        let ip = u16::from_str_radix(ip, 16)?;
        for _ in 0..2 {
            let slot = self.fetch(cs, ip);
            let found = self.found(cs, ip);
            ensure!(slot.length == size_of(&found), "another length in the slot");
            judge_found(alloc, &found, ip, length, Some(text))?;
        }
        Ok(())
    }

    /// Judges a `rounds` line: fails if `rounds` rounds of fetches at these offsets read more than `most` bytes of
    /// memory, since the cache should mostly answer.
    fn judge_reads(&mut self, rounds: u32, most: u64, cs: &str, offsets: &[&str]) -> Result<()> {
        let cs = u16::from_str_radix(cs, 16)?;
        let before = self.memory.reads();
        for _ in 0..rounds {
            self.fetch_each(cs, offsets).context("no offset")?;
        }
        let reads = self.memory.reads().saturating_sub(before);
        ensure!(reads <= most, "{reads} bytes read");
        Ok(())
    }

    /// Fetches the instruction at each offset as one round of a `rounds` line, which counts how often the cache reads
    /// bytes, not what it answers; `None` if an offset isn't a hexadecimal word.
    fn fetch_each(&mut self, cs: u16, offsets: &[&str]) -> Option<()> {
        for offset in offsets {
            let _ = self.fetch(cs, u16::from_str_radix(offset, 16).ok()?);
        }
        Some(())
    }
}

/// The bytes that a slot has, the first one lowest, and zeros after them.
fn kept_bytes(code: u64) -> [u8; 15] {
    let own = code.to_le_bytes();
    [
        own[0], own[1], own[2], own[3], own[4], own[5], own[6], own[7], 0, 0, 0, 0, 0, 0, 0,
    ]
}

/// How many bytes an instruction has that was found; 0 if no row fits.
fn size_of(found: &Decoding) -> u8 {
    match found {
        Decoding::Found(_, size) => *size,
        Decoding::NoRow => 0,
    }
}
