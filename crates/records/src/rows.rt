// A row of records as the cells of a setting.
ghost use Rattle.std.specs.Prelude.{false, length};
ghost use Rattle.records.specs.Rows.{record_at};

use setting::{Cell, Cells};

#[derive(Clone, Copy)]
pub struct Records<'a> {
    pub cells: &'a [Cell],
}

impl<'a> Cells for Records<'a> {
    ghost at = { λ s. record_at s.cells.now };

    ghost count = { λ s. length s.cells.now };

    ghost cut = { λ _. false };

    fn count(&self) -> usize {
        self.cells.len()
    }

    fn is_cut(&self) -> bool {
        false
    }

    fn cell(&self, k: usize) -> Cell {
        self.cells[k]
    }
}
