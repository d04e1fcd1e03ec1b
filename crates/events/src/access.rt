//! What the processor does over its bus.

/// An access of the processor over its bus, as event lists and stops on writes and ports look at it. Reads of memory
/// are left out.
#[derive(Clone, Copy, Debug, PartialEq, Eq)]
pub enum Access {
    /// A byte is written to a physical address, even if the address takes none.
    Write(u32, u8),
    /// A port is read, and gives this byte.
    In(u16, u8),
    /// A byte is written to a port.
    Out(u16, u8),
}

impl Default for Access {
    /// Returns what stands at the places of an `ArrayVec` that hold no access yet: a write of 0 to address 0.
    fn default() -> Access {
        Access::Write(0, 0)
    }
}
