// The reasons for 11 to 15 and 23, of a setting.
ghost use Rattle.std.specs.Prelude.{◌≡◌, ◌&&◌, ◌<◌, eqb, get_or};
ghost use Rattle.table.specs.Terms.{terms};
ghost use Rattle.setting.specs.Cells.{cell_at};
ghost use Rattle.setting.specs.Arrays.{array_variable, slot_sort};
ghost use Rattle.diagnosis.specs.Telling.{tell};
ghost use Rattle.diagnosis.specs.Reasons.{row_lines, slot_lines, given_lines, array_lines, cell_lines, step_lines};
ghost use Rattle.diagnosis.specs.Reasons.{setting_reasons};

use crate::reason::{BOOLEAN, Reason, vector_sort};
use crate::terms::most;
use setting::Cell;
use table::{Sort, Term, is_variable, number_at, term_at};

// 11
fn row_told(cells: &[u32]) -> Option<Reason>
    ensures { result ≡ tell (row_lines cells.now) }
{
    let numbers = cells.len();
    if numbers % 3 != 0 {
        Some(Reason::UnevenCells { numbers })
    } else {
        None
    }
}

// 12
fn slot_told(values: &[u32], x: Term) -> Option<Reason>
    ensures { result ≡ tell (slot_lines values.now x) }
{
    if is_variable(x) && values.len() <= x.p as usize {
        Some(Reason::NoValue {
            slot: x.p,
            values: values.len(),
        })
    } else {
        None
    }
}

// 13
fn given_told(values: &[u32], x: Term) -> Option<Reason>
    ensures { result ≡ tell (given_lines values.now x) }
{
    let n = x.sort.n;
    let value = number_at(values, x.p);
    if is_variable(x) && !ops::fits(n, value) {
        Some(Reason::ValueTooLarge {
            slot: x.p,
            value,
            most: most(n),
            sort: vector_sort(n),
        })
    } else {
        None
    }
}

// A number of a row, 0 past its end.
fn entry(row: &[u32], at: usize) -> u32
    ensures { result ≡ get_or row.now at 0 }
{
    row.get(at).copied().unwrap_or(0)
}

// Cell `k` of a row.
fn cell_at(cells: &[u32], k: u32) -> Cell
    ensures { result ≡ cell_at cells.now k }
{
    let at = (k as usize) * 3;
    Cell {
        slot: entry(cells, at),
        index: entry(cells, at + 1),
        value: entry(cells, at + 2),
    }
}

// Whether a term is the array variable of a slot.
fn array_of(x: Term, slot: u32) -> bool
    ensures { result ≡ (array_variable x && eqb x.p slot) }
{
    is_variable(x) && table::array(x.sort) && x.p <= 255 && x.p == slot
}

// The sort of a slot's array variable, (0, 0) where it has none.
// A loop, since of `rev().find(..)` over the range the check proves no `returns` (`search` gives up).
fn slot_sort(table: &[u32], slot: u32) -> Sort
    requires { terms table.now < 4294967296 }
    ensures { result ≡ slot_sort table.now slot }
{
    for k in (0..table::count(table)).rev() {
        let x = term_at(table, k);
        if array_of(x, slot) {
            return x.sort;
        }
    }
    BOOLEAN
}

// 14
fn array_told(s: Sort, c: Cell) -> Option<Reason>
    ensures { result ≡ tell (array_lines s c) }
{
    if table::array(s) {
        None
    } else {
        Some(Reason::NotAnArray { slot: c.slot })
    }
}

// 15
fn cell_told(s: Sort, c: Cell) -> Option<Reason>
    ensures { result ≡ tell (cell_lines s c) }
{
    if !ops::fits(s.m, c.index) {
        Some(Reason::CellIndexTooLarge {
            index: c.index,
            most: most(s.m),
            sort: vector_sort(s.m),
        })
    } else if !ops::fits(s.n, c.value) {
        Some(Reason::CellValueTooLarge {
            value: c.value,
            most: most(s.n),
            sort: vector_sort(s.n),
        })
    } else {
        None
    }
}

// 23
fn steps_told(allowance: u64, needed: u32) -> Option<Reason>
    ensures { result ≡ tell (step_lines allowance needed) }
{
    if allowance < u64::from(needed) {
        Some(Reason::AllowanceTooSmall { allowance, needed })
    } else {
        None
    }
}

// Of a setting, by the number that refuses it: at term or cell `i`, or `i` steps are needed.
#[tactic(auto, unfolding(crate::specs::Reasons::setting_reasons))]
pub fn setting_told(
    table: &[u32],
    values: &[u32],
    cells: &[u32],
    allowance: u64,
    number: u32,
    i: u32,
) -> Option<Reason>
    requires { terms table.now < 4294967296 }
    ensures { result ≡ tell (setting_reasons table.now values.now cells.now
        allowance number i) }
{
    let c = cell_at(cells, i);
    match number {
        11 => row_told(cells),
        12 => slot_told(values, term_at(table, i)),
        13 => given_told(values, term_at(table, i)),
        14 => array_told(slot_sort(table, c.slot), c),
        15 => cell_told(slot_sort(table, c.slot), c),
        23 => steps_told(allowance, i),
        _ => None,
    }
}
