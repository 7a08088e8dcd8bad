// Filling the work room.
ghost use Rattle.std.specs.Prelude.{◌≡◌, ◌++◌, ◌*◌, ◌≤◌, length, drop};
ghost use Rattle.table.specs.Terms.{terms};
ghost use Rattle.table.specs.WellFormed.{WellFormed};
ghost use Rattle.setting.specs.Interpretation.{in_cells};
ghost use Rattle.evaluate.specs.Values.{numbers};
ghost use Rattle.sheets.specs.Code.Said.{marks_by};
ghost use Rattle.judge.specs.Conditions.{truths};

use crate::terms::step;
use crate::turns::first_turn;
use setting::Cells;

// Said is what the sheet says by slot. The front of work holds the terms' values, and after them the truths of their conditions.
pub fn fill<C: Cells>(table: &[u32], said: &[u32; 256], values: &[u32], cells: &C, work: &mut [u32])
    requires well_formed { WellFormed 80000 table.now }
    requires table_in_bounds { terms table.now * 2 ≤ length work.old }
    ensures { work.new
        ≡ numbers table.now (in_cells values.now (C.at cells.now) (C.count cells.now))
        (terms table.now) ++ truths table.now (marks_by said.now)
        (in_cells values.now (C.at cells.now) (C.count cells.now)) (terms table.now) ++ drop
        (terms table.now * 2) work.old }
{
    let terms = table::count(table);
    let count = cells.count();
    let mut turn = first_turn(table, values, count, terms);
    while turn.pending {
        let answer = setting::look(cells, turn.count, turn.slot, turn.index, turn.other);
        turn = step(table, said, values, count, terms, work, turn, answer);
    }
}
