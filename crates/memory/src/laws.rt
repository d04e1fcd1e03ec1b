//! What holds of every memory map. Each is an empty function whose contract states it.
ghost use Rattle.memory.specs.MemoryLaws.{WriteChangesRamAlone, RamIsWritable, PowerOnBytes};

/// A byte that is written to RAM reads back; a write elsewhere, in the ROM as well, changes nothing; and every other
/// byte stays as it is.
pub fn write_changes_ram_alone()
    ensures { WriteChangesRamAlone }
{}

/// Each address below the RAM's size is one that a write changes, so that a program has all RAM that it asks for.
pub fn ram_is_writable()
    ensures { RamIsWritable }
{}

/// At power-on each address has the byte of its region: RAM 0, ROM FFh, and FFh if nothing answers, but for the image's
/// bytes.
pub fn power_on_bytes()
    ensures { PowerOnBytes }
{}
