// Filling the work room.
ghost use Rattle.std.specs.Prelude.{◌≡◌, ◌++◌, ◌≤◌, length, drop};
ghost use Rattle.table.specs.Terms.{terms};
ghost use Rattle.table.specs.WellFormed.{WellFormed};
ghost use Rattle.setting.specs.Interpretation.{in_cells};
ghost use Rattle.evaluate.specs.Values.{numbers};

use crate::turns::{step, turn_at};
use setting::Cells;

// The front of work holds the terms' values.
pub fn fill<C: Cells>(table: &[u32], values: &[u32], cells: &C, work: &mut [u32])
    requires well_formed { WellFormed 80000 table.now }
    requires table_in_bounds { terms table.now ≤ length work.old }
    ensures { work.new
        ≡ numbers table.now (in_cells values.now (C.at cells.now) (C.count cells.now))
        (terms table.now) ++ drop (terms table.now) work.old }
{
    let terms = table::count(table);
    let count = cells.count();
    let mut turn = turn_at(table, values, count, terms, &work[..0], 0);
    while turn.pending {
        let answer = setting::look(cells, turn.count, turn.slot, turn.index, turn.other);
        turn = step(table, values, count, terms, work, turn, answer);
    }
}
