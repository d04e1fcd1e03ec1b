//! The cells that have changed since a mark, one after another.
ghost use Rattle.std.specs.Prelude.{◌≡◌};
ghost use Rattle.mda_text.specs.Marks.{changed_cells};

use crate::mda::{CELL_COUNT, COLUMNS, Mda};
use std::marker::Model;

/// Walks over cells, by row and column in reading order, and takes no memory. Contracts see it as the list of cells
/// that are still to come.
#[derive(Drop)]
pub struct ChangedCells<'a> {
    mda: &'a Mda,
    mark: u64,
    next: u16,
}

impl<'a> Model for ChangedCells<'a> {
    ghost use Rattle.std.specs.Prelude.{ℕ, ◌-◌, ◌≤◌, List};
    ghost use Rattle.mda_text.specs.Mda.{cell_count};
    ghost use Rattle.mda_text.specs.Marks.{changed_among};

    ghost Value = { List (ℕ × ℕ) };

    ghost view = { λ c. changed_among c.mda.now c.mark c.next (cell_count - c.next) };
}

impl<'a> ChangedCells<'a> {
    /// Makes the walk that `changed_since` gives: over the cells that have changed since `mark`, from the first in
    /// reading order on.
    pub(crate) fn new(mda: &'a Mda, mark: u64) -> ChangedCells<'a>
        ensures { result ≡ changed_cells mda.now mark }
    {
        ChangedCells { mda, mark, next: 0 }
    }
}

impl<'a> Iterator for ChangedCells<'a> {
    ghost use Rattle.std.specs.Iterator.{YieldsFirst, item_count};

    type Item = (u8, u8);

    ghost next_gives = { YieldsFirst (λ cells. cells) };

    ghost remaining = { item_count (λ cells. cells) };

    /// The next changed cell, a row and a column; `None` after the last. Cells that can't have changed are passed over
    /// many at a time.
    #[tactic(auto, using(crate::proofs::Walk::walk_steps))]
    fn next(&mut self) -> Option<(u8, u8)> {
        while self.next < CELL_COUNT {
            let n = self.next;
            let unchanged = self.mda.unchanged_from(self.mark, n);
            if unchanged > 0 {
                self.next += unchanged;
                continue;
            }
            self.next += 1;
            if self.mda.is_changed(self.mark, n) {
                let columns = u16::from(COLUMNS);
                return Some(((n / columns) as u8, (n % columns) as u8));
            }
        }
        None
    }
}
