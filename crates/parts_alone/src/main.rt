//! Eight parts of the board, each used alone: the interrupt controller, the timer, the parallel port, the keyboard, the
//! text adapter, the memory, the assembler and the board itself. Each has a module of its own, written to be copied;
//! docs/parts.md goes with them.
#![tactic(auto)]

mod controller;
mod keys;
mod machine;
mod parallel_port;
mod ram_and_rom;
mod screen;
mod source;
mod timer;

use anyhow::Result;
use assembler::assembly::assemble;
use board::board::Board;
use board_types::clock::Clock;
use board_types::keys::{KeyFault, Keys};
use board_types::regs::Regs;
use std::alloc::Global;
use std::str;

/// Prints what each of the examples of a part used alone gives, one after another.
fn main(rt: HostRuntime) -> Result<()> {
    print_vectors(&rt)?;
    print_changes(&rt)?;
    print_port(&rt)?;
    print_codes(&rt)?;
    print_cell(&rt)?;
    print_bytes(&rt)?;
    print_hex(&rt)?;
    print_fault(&rt)?;
    print_machine(&rt)
}

/// Prints the interrupt controller's example: the vectors of lines 4 and 1, which rise at a base of 8.
fn print_vectors(rt: &HostRuntime) -> Result<()> {
    let (first, second) = controller::vectors_of(8, 1, 4);
    println!(rt; "vectors {first:02X} {second:02X}")?;
    Ok(())
}

/// Prints the timer's example: at which of twenty ticks OUT2 changes in a square wave of 7.
fn print_changes(rt: &HostRuntime) -> Result<()> {
    print!(rt; "OUT2 changes at ticks")?;
    for tick in timer::square_changes(rt.alloc(), 7, 20)?.as_slice() {
        print!(rt; " {tick}")?;
    }
    println!(rt; "")?;
    Ok(())
}

/// Prints the parallel port's example: switches SW1 6Dh and SW2 1Ah as a program reads them, and port C.
fn print_port(rt: &HostRuntime) -> Result<()> {
    let (sw1, sw2) = parallel_port::switches_of(0x6D, 0x1A);
    let port_c = parallel_port::port_c();
    println!(rt; "switches {sw1:02X} {sw2:02X}, port C {port_c:02X}")?;
    Ok(())
}

/// Prints the keyboard's example: the codes of the key A, down and up, and no third code.
fn print_codes(rt: &HostRuntime) -> Result<()> {
    let (first, second, third) = keys::codes_of(rt.alloc(), 0x1E, 0x9E)?;
    println!(rt; "codes {first:02X} {second:02X} {third:02X}")?;
    Ok(())
}

/// Prints the text adapter's example: a cell to which an A is written, and the status twice.
fn print_cell(rt: &HostRuntime) -> Result<()> {
    let (character, before, after) = screen::shown(rt.alloc())?;
    println!(rt; "cell {character:02X}, status {before:02X} {after:02X}")?;
    Ok(())
}

/// Prints the memory's example: what is read from RAM, from the ROM, and from an address at which nothing answers.
fn print_bytes(rt: &HostRuntime) -> Result<()> {
    let (ram, rom, nothing) = ram_and_rom::bytes_read(rt.alloc())?;
    println!(rt; "bytes {ram:02X} {rom:02X} {nothing:02X}")?;
    Ok(())
}

/// Prints the assembler's example: the HEX text of a source of four bytes.
fn print_hex(rt: &HostRuntime) -> Result<()> {
    let text = source::hex_of(rt.alloc(), source::GOOD)?;
    print!(rt; "{}", str::from_utf8(text.as_slice())?)?;
    Ok(())
}

/// Prints the assembler's example of a fault: the number, name and text for the source of `print_hex` with a name
/// mistyped.
fn print_fault(rt: &HostRuntime) -> Result<()> {
    if let Err(fault) = source::hex_of(rt.alloc(), source::MISTYPED) {
        println!(rt; "fault {} {}: {fault}", fault.number(), fault.name())?;
    }
    Ok(())
}

/// Prints the board's example: the program of `machine`, assembled and run with the key A until it halts.
fn print_machine(rt: &HostRuntime) -> Result<()> {
    let alloc = rt.alloc();
    let listing = assemble(alloc, machine::program())?;
    let (board, _) = machine::run_to_halt(alloc, listing.image(), key_a(alloc)?, 1000)?;
    print_board(rt, &board)
}

/// The key A for the board's example, which goes down at clock 200 and up at clock 260.
fn key_a(alloc: Global) -> Result<Keys, KeyFault> {
    let mut keys = Keys::new(alloc);
    keys.push(Clock::new(200).unwrap(), 0x1E)?;
    keys.push(Clock::new(260).unwrap(), 0x9E)?;
    Ok(keys)
}

/// Prints how the board's example ends: the processor's state and clock, its registers, and the screen's first line.
fn print_board(rt: &HostRuntime, board: &Board) -> Result<()> {
    println!(rt; "{:?} at clock {}", board.state(), board.clock().get())?;
    print_registers(rt, &board.regs())?;
    println!(rt;
        "screen {}",
        board.screen()?.lines().next().unwrap_or("").trim()
    )?;
    Ok(())
}

/// Prints the registers that the board's example uses, and the flags word.
fn print_registers(rt: &HostRuntime, regs: &Regs) -> Result<()> {
    println!(rt;
        "AX={:04X} BX={:04X} DX={:04X} DI={:04X}",
        regs.ax, regs.bx, regs.dx, regs.di
    )?;
    println!(rt;
        "CS={:04X} ES={:04X} IP={:04X} FL={:04X}",
        regs.cs,
        regs.es,
        regs.ip,
        regs.flags.word()
    )?;
    Ok(())
}
