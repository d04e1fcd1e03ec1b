//! A processor over memory that lines of a case set up and bring forward.

use crate::judge::{Wanted, judge, judge_kept, judge_registers};
use crate::ram::Ram;
use crate::words::{cell_in, read_bytes, read_regs, words_in};
use anyhow::{Context, Result, bail, ensure};
use arrayvec::ArrayVec;
use board_types::address::physical;
use board_types::choice::ClockTable;
use board_types::regs::Regs;
use cases::Judged;
use decode::decode::decode;
use execute::cpu::Cpu;
use execute::port_writes::port_writes;
use execute::step::{again, enter, step};
use execute_meaning::boundary::{Boundary, Cause};
use std::alloc::{AllocError, Global};

/// The type of the interrupt that a single step enters.
const SINGLE_STEP: u8 = 1;

/// What was done at a boundary: the clocks that it took, and the port writes that `port_writes` predicted.
#[derive(Drop)]
pub struct Done {
    pub clocks: u16,
    pub told: ArrayVec<(u16, u8), 2>,
}

/// A processor and the memory that it reaches.
#[derive(Drop)]
pub struct Bench {
    pub cpu: Cpu,
    pub ram: Ram,
    /// The table by which clocks count.
    table: ClockTable,
}

impl Bench {
    /// A bench whose registers and memory are all 0 and whose clocks count by table C1, with which the program begins.
    pub fn new(alloc: Global) -> Result<Bench, AllocError> {
        Ok(Bench {
            cpu: Cpu::new(Regs::default()),
            ram: Ram::new(alloc)?,
            table: ClockTable::C1,
        })
    }

    /// Does what a line of the cases says: sets up the processor, its memory or the table of clocks, or judges a case.
    /// Fails with what differs, or with why the line can't be read.
    pub fn follow_line(&mut self, alloc: Global, line: &str) -> Result<Judged> {
        let (name, rest) = line.split_once(' ').context("no such line")?;
        match name {
            "begin" => self.begin_at(rest)?,
            "table" => self.table = table_named(rest.trim()).context("no such table")?,
            "memory" => self.fill(alloc, rest)?,
            _ => {
                self.follow_case(alloc, name, rest)?;
                return Ok(Judged::Case);
            }
        }
        Ok(Judged::Setting)
    }

    /// Judges a line that is a case, by its name: a boundary, the kept operands, calls of the bus, or a single step.
    fn follow_case(&mut self, alloc: Global, name: &str, rest: &str) -> Result<()> {
        let fields: Vec<&str> = rest.split('|').collect(alloc)?;
        match name {
            "at" => self.pass_boundary(alloc, &fields),
            "kept" => self.keep(alloc, &fields),
            "calls" => self.count_calls(alloc, &fields),
            _ => self.make_step(alloc, name, &fields),
        }
    }

    /// Makes a new processor over clear memory, with the registers of a `begin` line, and fails if it keeps operands: a
    /// new one keeps none.
    fn begin_at(&mut self, text: &str) -> Result<()> {
        self.begin(read_regs(text)?);
        judge_kept(self, "none")
    }

    /// Makes a new processor with these registers, and clears memory, before a case's first step or boundary.
    fn begin(&mut self, regs: Regs) {
        self.cpu = Cpu::new(regs);
        self.ram.clear();
    }

    /// Puts bytes into memory, from an address on, as a line `memory AAAAA BYTES` says, for the boundaries after it.
    fn fill(&mut self, alloc: Global, text: &str) -> Result<()> {
        let (start, digits) = text.split_once(' ').context("no bytes")?;
        let mut addr = u32::from_str_radix(start, 16)?;
        for &byte in &read_bytes(alloc, digits)? {
            self.ram.put(addr, byte)?;
            addr = addr.wrapping_add(1);
        }
        Ok(())
    }

    /// Judges a line `at R TYPE | TAKEN | ..`: whether the processor takes at its next boundary what the line says,
    /// with or without a requested interrupt, and what comes of it.
    fn pass_boundary(&mut self, alloc: Global, fields: &[&str]) -> Result<()> {
        let [place, taken, rest @ ..] = fields else {
            bail!("no such line");
        };
        let (requested, kind) = request_in(place).context("no request")?;
        let boundary = self.cpu.may_take(requested);
        let name = boundary_name(boundary);
        ensure!(name == taken.trim(), "takes {name}");
        let kind = match boundary {
            Boundary::Request => u8::from_str_radix(kind, 16)?,
            _ => SINGLE_STEP,
        };
        self.make_and_judge(alloc, boundary, kind, rest)
    }

    /// Judges a line `OP REGS | CODE | READ | ..`: sets up a processor and memory, makes one step or interrupt entry,
    /// and compares what comes of it with the other fields.
    fn make_step(&mut self, alloc: Global, name: &str, fields: &[&str]) -> Result<()> {
        let [regs, code, read, rest @ ..] = fields else {
            bail!("no such line");
        };
        let boundary = boundary_named(name).context("no such line")?;
        let kind = self.set_up(alloc, boundary, read_regs(regs)?, code)?;
        self.put_cells(alloc, read)?;
        self.make_and_judge(alloc, boundary, kind, rest)
    }

    /// Sets up a new processor with these registers, unless an iteration is next, and puts an instruction's code at
    /// CS:IP. Returns the code's first byte, which is an interrupt's type if it enters one.
    fn set_up(&mut self, alloc: Global, boundary: Boundary, regs: Regs, code: &str) -> Result<u8> {
        if boundary != Boundary::Iteration {
            self.begin(regs);
        }
        self.put_next(alloc, boundary, code)
    }

    /// Puts an instruction's code at CS:IP, if an instruction is next. Returns the code's first byte, an interrupt's
    /// type if one is entered next (1, a single step's, if there is no code).
    fn put_next(&mut self, alloc: Global, boundary: Boundary, code: &str) -> Result<u8> {
        let code = read_bytes(alloc, code)?;
        if boundary == Boundary::Instruction {
            self.put_code(&code)?;
        }
        Ok(code.first().copied().unwrap_or(SINGLE_STEP))
    }

    /// Does what is due at a boundary, and fails if what came of it isn't what a line's fields from REGS AFTER on say;
    /// `kind` is the type of an interrupt that is entered.
    fn make_and_judge(
        &mut self,
        alloc: Global,
        boundary: Boundary,
        kind: u8,
        fields: &[&str],
    ) -> Result<()> {
        let wanted = Wanted::read(fields)?;
        let done = self.make(boundary, kind);
        judge(alloc, self, &done, &wanted)
    }

    /// Judges a line `calls REGS | CODE | READ | WORDS BYTES`: a step must read and write so many words and bytes, and
    /// take 4 clocks more by table C2 than by C1 for each of the words.
    fn count_calls(&mut self, alloc: Global, fields: &[&str]) -> Result<()> {
        let [regs, code, read, wanted, ..] = *fields else {
            bail!("no such line");
        };
        let (words, bytes) = calls_in(wanted).context("no calls")?;
        let calls = words.saturating_mul(2).saturating_add(bytes);
        let few = self.clocks_by(alloc, ClockTable::C1, [regs, code, read], calls)?;
        let many = self.clocks_by(alloc, ClockTable::C2, [regs, code, read], calls)?;
        let more = usize::from(many.saturating_sub(few));
        ensure!(more == words.saturating_mul(4), "{more} clocks more");
        Ok(())
    }

    /// The clocks of a `calls` line's step by this table, which must read and write memory by this number of calls of
    /// the bus. Leaves the bench's own table as it was.
    fn clocks_by(
        &mut self,
        alloc: Global,
        table: ClockTable,
        fields: [&str; 3],
        calls: usize,
    ) -> Result<u16> {
        let kept = self.table;
        self.table = table;
        let clocks = self.clocks_of(alloc, fields);
        self.table = kept;
        let clocks = clocks?;
        let found = self.ram.calls();
        ensure!(found == calls, "{found} calls");
        Ok(clocks)
    }

    /// The clocks of a step of a new processor with a `calls` line's registers, code and memory, by the bench's table.
    fn clocks_of(&mut self, alloc: Global, fields: [&str; 3]) -> Result<u16> {
        let [regs, code, read] = fields;
        self.set_up(alloc, Boundary::Instruction, read_regs(regs)?, code)?;
        self.put_cells(alloc, read)?;
        Ok(self.make(Boundary::Instruction, SINGLE_STEP).clocks)
    }

    /// Judges a line `kept OP CODE | KEPT | ..`: makes a step, an iteration or an entry of the processor as it stands,
    /// and compares the registers, and the operands and the result that it keeps for its flags.
    fn keep(&mut self, alloc: Global, fields: &[&str]) -> Result<()> {
        let [done, kept, after, ..] = *fields else {
            bail!("no such line");
        };
        let (name, code) = done.trim().split_once(' ').context("no code")?;
        let boundary = boundary_named(name).context("no such line")?;
        let kind = self.put_next(alloc, boundary, code)?;
        let _done = self.make(boundary, kind);
        judge_registers(self, after)?;
        judge_kept(self, kept)
    }

    /// Puts the bytes of a list `AAAAA=VV ..`, a case's field READ, into memory, where its step finds them.
    fn put_cells(&mut self, alloc: Global, list: &str) -> Result<()> {
        for word in &words_in(alloc, list)? {
            let (addr, byte) = cell_in(word).context("no byte")?;
            self.ram.put(addr, byte)?;
        }
        Ok(())
    }

    /// Puts an instruction's bytes at CS:IP, where the next step decodes them; the offset wraps within the segment.
    fn put_code(&mut self, code: &[u8]) -> Result<()> {
        let cs = self.cpu.cs();
        let mut offset = self.cpu.ip();
        for &byte in code {
            self.ram.put(physical(cs, offset), byte)?;
            offset = offset.wrapping_add(1);
        }
        Ok(())
    }

    /// Does what is due at a boundary and notes in the bench's memory what it writes and which ports it reaches; `kind`
    /// is an interrupt's type. Returns its clocks and, of an instruction, the port writes predicted before it.
    fn make(&mut self, boundary: Boundary, kind: u8) -> Done {
        self.ram.begin_step();
        let mut told = ArrayVec::new();
        let clocks = match boundary {
            Boundary::Request => enter(
                &mut self.cpu,
                &mut self.ram,
                kind,
                Cause::Request,
                self.table,
            )
            .0,
            Boundary::SingleStep => enter(
                &mut self.cpu,
                &mut self.ram,
                kind,
                Cause::SingleStep,
                self.table,
            )
            .0,
            Boundary::Iteration => again(&mut self.cpu, &mut self.ram, self.table).0,
            Boundary::Instruction => {
                let decoded = decode(&self.ram, self.cpu.cs(), self.cpu.ip());
                told = port_writes(&self.cpu, &decoded);
                step(&mut self.cpu, &mut self.ram, &decoded, self.table).0
            }
            Boundary::Nothing => 0,
        };
        Done { clocks, told }
    }
}

/// The table of clocks of this name in a `table` line, if there is one.
fn table_named(name: &str) -> Option<ClockTable> {
    match name {
        "C1" => Some(ClockTable::C1),
        "C2" => Some(ClockTable::C2),
        _ => None,
    }
}

/// Whether an `at` line's boundary has a requested interrupt, and its type as text, from `R TYPE`.
fn request_in(place: &str) -> Option<(bool, &str)> {
    let (request, kind) = place.split_once(' ')?;
    match request {
        "0" => Some((false, kind.trim())),
        "1" => Some((true, kind.trim())),
        _ => None,
    }
}

/// How many words and bytes a `calls` line's step must read and write, from `WORDS BYTES`.
fn calls_in(text: &str) -> Option<(usize, usize)> {
    let (words, bytes) = text.trim().split_once(' ')?;
    Some((words.parse().ok()?, bytes.parse().ok()?))
}

/// The boundary at which a line's OP (`step`, `again`, `request` or `single`) is done; `None` for another name.
fn boundary_named(name: &str) -> Option<Boundary> {
    match name {
        "step" => Some(Boundary::Instruction),
        "again" => Some(Boundary::Iteration),
        "request" => Some(Boundary::Request),
        "single" => Some(Boundary::SingleStep),
        _ => None,
    }
}

/// The name of a boundary, as the fields TAKEN and DUE of a case have it and errors say it.
pub fn boundary_name(boundary: Boundary) -> &'static str {
    match boundary {
        Boundary::Request => "request",
        Boundary::SingleStep => "single",
        Boundary::Nothing => "nothing",
        Boundary::Iteration => "iteration",
        Boundary::Instruction => "instruction",
    }
}
