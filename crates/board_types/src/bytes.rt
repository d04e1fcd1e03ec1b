//! The bytes that stand at the addresses of the memory map.
ghost use Rattle.std.specs.Prelude.{◌≡◌, ◌<◌, ◌^◌, ℕ};

/// What holds a byte for each of the 1,048,576 physical addresses.
pub trait Bytes {
    // the byte at an address
    ghost byte_at: { Self → ℕ → ℕ };

    /// The byte at the physical address `addr`, below 100000h, for the decoder, which takes instructions from it.
    fn byte(&self, addr: u32) -> u8
        requires { addr < 2 ^ 20 }
        ensures { result ≡ byte_at self.now addr };
}
