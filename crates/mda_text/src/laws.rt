//! What holds of every text adapter, over the definitions alone.
ghost use Rattle.std.specs.Prelude.{ℕ, List};
ghost use Rattle.mda_text.specs.Mda.{MdaState, power_on};
ghost use Rattle.mda_text.specs.MdaLaws.{Event, StartsAt, ShowsOnce, ShowsAlike, Scrolls, ChangesOneCell, IsMemory, IsBlank, TellsBeam, TellsChanges, NumbersMarks};

/// A start address that a program writes to the MC6845 is the word of the first cell, and the cell `80 r + c` further
/// on shows the word as much further on, round the 2,048 words.
pub fn starts_at()
    ensures { (m : MdaState) (start : ℕ) → StartsAt m start }
{}

/// No word of text memory is shown by two cells, so a write changes at most one.
pub fn shows_once()
    ensures { (m : MdaState) → ShowsOnce m }
{}

/// What the cells show depends on text memory, the start address and the video enable alone: no clock, cursor or read
/// changes the screen.
pub fn shows_alike()
    ensures { (m other : MdaState) → ShowsAlike m other }
{}

/// A start address 80 words on, written to the MC6845, moves the screen up by a row: so a program scrolls without
/// moving bytes.
pub fn scrolls()
    ensures { (m : MdaState) (start : ℕ) → Scrolls m start }
{}

/// A byte written to text memory changes no cell but the one, if there is one, that shows its word, so a display need
/// draw no other.
pub fn changes_one_cell()
    ensures { (m : MdaState) (offset byte : ℕ) → ChangesOneCell m offset byte }
{}

/// A byte that a program writes to text memory reads back, and every other byte stays; no port, clock or mark changes
/// one.
pub fn is_memory()
    ensures { (m : MdaState) → IsMemory m }
{}

/// At power-on text memory has 4,096 bytes, all 0, so the screen is blank.
pub fn is_blank()
    ensures { IsBlank power_on }
{}

/// What the status port gives after any number of clocks: bit 0 is 1 while the beam goes back, for which programs
/// wait.
pub fn tells_beam()
    ensures { (m : MdaState) → TellsBeam m }
{}

/// After a mark and whatever happens then, the cells that are named by its number, in reading order, are those that
/// show another character than at the mark; by any other number all are. So a display that draws them misses none.
pub fn tells_changes()
    ensures { (m : MdaState) (es : List Event) → TellsChanges m es }
{}

/// Marks are numbered from 1 up to the greatest `u64`, and after it 0, so no two that a display can ask for have one
/// number.
pub fn numbers_marks()
    ensures { (n : ℕ) → NumbersMarks n }
{}
