//! The buffers of callers.
ghost use Rattle.std.specs.Prelude.{◌≡◌, length};
ghost use Rattle.zebludor_program.specs.Buffers.{buffer_after, status_for};

/// The text is written.
pub const WRITTEN: u8 = 0;

/// The text is longer than the buffer.
pub const TOO_LONG: u8 = 2;

/// Writes a text into the caller's buffer if it has room, and gives the status `WRITTEN` or `TOO_LONG`.
pub(crate) fn put(text: &[u8], out: &mut [u8]) -> u8
    ensures status { result ≡ status_for text.now (length out.old) }
    ensures buffer { out.new ≡ buffer_after text.now out.old }
{
    if text.len() > out.len() {
        return TOO_LONG;
    }
    let (front, _) = out.split_at_mut(text.len());
    front.copy_from_slice(text);
    WRITTEN
}

/// Puts a text into the caller's buffer if that has room, and gives its length, by which the caller sees whether it had.
pub(crate) fn hand_text(text: Vec<u8>, out: &mut [u8]) -> u64
    ensures length { result ≡ length text.items }
    ensures buffer { out.new ≡ buffer_after text.items out.old }
{
    put(text.as_slice(), out);
    text.len() as u64
}
