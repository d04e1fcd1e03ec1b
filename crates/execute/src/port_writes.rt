//! The port writes of a step, before it is made.
ghost use Rattle.std.specs.Prelude.{◌≡◌};
ghost use Rattle.decode.specs.DecodedSlots.{IsSlotAt};
ghost use Rattle.decode.specs.declared.decoding.Decoding.{Decoding};
ghost use Rattle.execute_meaning.specs.PortWrites.{port_writes_of};

use crate::cpu::Cpu;
use arrayvec::ArrayVec;
use decode::decoded::Decoded;
use digest::slot::Deed;
use execute_transfer::ports::outputs;

/// Lists the port writes that a step would make, in order, each a port and a byte: from them the board foresees, before
/// the step, how the speaker's level changes. OUT alone writes to ports.
#[tactic(auto, using(execute_meaning::proofs::Writes::writes_of))]
pub fn port_writes(cpu: &Cpu, decoded: &Decoded) -> ArrayVec<(u16, u8), 2>
    ensures { (d : Decoding) → IsSlotAt decoded.now d → result.items ≡ port_writes_of cpu.now d }
{
    let registers = &cpu.parts.registers;
    let (ax, dx, number) = (registers.ax(), registers.dx(), decoded.number);
    match decoded.deed {
        Deed::OutB => outputs(ax, number, false),
        Deed::OutW => outputs(ax, number, true),
        Deed::OutBD => outputs(ax, dx, false),
        Deed::OutWD => outputs(ax, dx, true),
        _ => ArrayVec::new(),
    }
}
