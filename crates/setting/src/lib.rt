// Settings: a row of values by slot, and cells, three numbers each: slot, index, value (paper 01, "A setting"; 11 to
// 15).
#![tactic(auto)]

mod arrays; // the sort of each array slot
mod cells; // the cells: lookup, and 14 and 15
mod variables; // the values: 12 and 13

ghost use Rattle.std.specs.Prelude.{◌≡◌};
ghost use Rattle.table.specs.WellFormed.{WellFormed};
ghost use Rattle.setting.specs.Check.{check_by};

pub use arrays::{ENTRIES, fill_entries};
pub use cells::{Cell, Cells, Flat, cells_checked, look};
use table::{Refusal, refused};
pub use variables::variables_checked;

// Whether a setting is one to evaluate in, else its first refusal: 11, then the variables, then the cells.
pub fn check<C: Cells>(table: &[u32], values: &[u32], cells: &C) -> Result<(), Refusal>
    requires { WellFormed 80000 table.now }
    ensures { result
        ≡ check_by (C.cut cells.now) table.now values.now (C.at cells.now) (C.count cells.now) }
{
    if cells.is_cut() {
        return refused(11, 0);
    }
    variables_checked(table, values)?;
    cells_checked(table, cells)
}
