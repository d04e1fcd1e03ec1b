//! What the last mark found in text memory, so that cells that can't have changed are passed over.
ghost use Rattle.std.specs.Prelude.{ℕ, ◌≡◌, ◌≤◌, ◌<◌, ◌+◌, false, length};
ghost use Rattle.mda_text.specs.Marks.{is_changed};
ghost use Rattle.mda_text.specs.Screen.{characters};
ghost use Rattle.mda_text.specs.Snapshot.{IsCopied, SameWord};

use crate::difference::first_difference;
use crate::mda::{CELL_COUNT, Mda, WORD_COUNT};

/// How many bytes of text memory a section has: a write marks a whole section as written.
pub(crate) const SECTION_BYTES: usize = 32;

/// How many words a section has, a code and an attribute each.
const SECTION_WORDS: usize = SECTION_BYTES / 2;

/// What the last mark found: a copy of text memory, and which sections of it were written since.
#[derive(Drop)]
pub struct Snapshot {
    pub(crate) bytes: Vec<u8>,
    pub(crate) start: u16,
    pub(crate) video: bool,
    /// The sections of text memory that were written since the last mark.
    pub(crate) written: [bool; 128],
    /// Whether there is a snapshot: not before the first mark.
    pub(crate) taken: bool,
}

impl Mda {
    /// Copies text memory, start address and video enable for a mark, so that `unchanged_from` can pass over cells
    /// later; the characters that the mark keeps must be those that they show.
    pub(crate) fn take_snapshot(&mut self)
        requires { self.old.kept ≡ characters self.old }
        ensures { self.new ≡ self.old }
    {
        self.snapshot.bytes.copy_from_slice(&self.bytes);
        self.snapshot.start = self.start;
        self.snapshot.video = self.video;
        self.snapshot.written = [false; 128];
        self.snapshot.taken = true;
    }

    /// How many cells from the `n`-th on, below 2,000, the walk over changed cells can pass over, since they surely
    /// show what they did at `mark`; 0 if that isn't known. It looks no further than a section of text memory.
    pub(crate) fn unchanged_from(&self, mark: u64, n: u16) -> u16
        requires { n < 2000 }
        ensures within { n + result ≤ 2000 }
        ensures unchanged { (k : ℕ) → n ≤ k → k < n + result → is_changed self.now mark k ≡ false }
    {
        let snapshot = &self.snapshot;
        if !snapshot.taken || snapshot.start != self.start || snapshot.video != self.video {
            return 0;
        }
        if mark != self.last_mark || mark == 0 {
            return 0;
        }
        let word = (u32::from(self.start) + u32::from(n)) % WORD_COUNT;
        let same = same_words(&self.bytes, snapshot, word as usize) as u16;
        same.min(CELL_COUNT - n)
    }
}

/// How many words of text memory from `word` on, below 2,048, up to the end of its section, have the bytes that the
/// mark found: at once all of them if the section wasn't written since.
fn same_words(bytes: &[u8], snapshot: &Snapshot, word: usize) -> usize
    requires below { word < 2048 }
    requires bytes { length bytes.now ≡ 4096 }
    requires copy { length snapshot.now.bytes.items ≡ 4096 }
    requires unwritten { IsCopied bytes.now snapshot.now.bytes.items snapshot.now.written }
    ensures within { word + result ≤ 2048 }
    ensures same { (k : ℕ) → word ≤ k → k < word + result → SameWord bytes.now snapshot.now.bytes.items k }
{
    let section = word / SECTION_WORDS;
    let end = (section + 1) * SECTION_WORDS;
    if !snapshot.written[section] {
        return end - word;
    }
    let (from, to) = (2 * word, 2 * end);
    // if the code differs, as it mostly does in a word that has changed, the rest isn't compared
    if bytes[from] != snapshot.bytes[from] {
        return 0;
    }
    match first_difference(&bytes[from..to], &snapshot.bytes[from..to]) {
        Some(at) => at / 2,
        None => end - word,
    }
}
