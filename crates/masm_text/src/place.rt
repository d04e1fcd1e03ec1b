//! The user's texts and their lines.
ghost use Rattle.std.specs.Prelude.{◌≡◌, slice_get};
ghost use Rattle.masm_text.specs.UserLines.{bytes_of};

/// A text: a source, or one that it includes by this name.
#[derive(Clone, Copy)]
pub struct Text<'a> {
    pub name: &'a [u8],
    pub bytes: &'a [u8],
}

/// A line of one of the user's texts.
#[derive(Clone, Copy, PartialEq, Eq, PartialOrd, Ord)]
pub struct Place {
    /// 0 for the source, 1 for the first included text, and so on.
    pub text: u32,
    /// From 1.
    pub line: u32,
}

/// A line of the translation, and the user's line that it comes from.
#[derive(Drop)]
pub struct Line {
    pub place: Place,
    pub text: Vec<u8>,
}

/// The bytes of the text of this number; none if there is no such text.
pub fn bytes_at<'a>(texts: &'a [Text<'a>], number: u32) -> &'a [u8]
    ensures { result.now ≡ bytes_of (slice_get texts.now number) }
{
    match texts.get(number as usize) {
        Some(text) => text.bytes,
        None => &[],
    }
}
