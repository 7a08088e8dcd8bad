// The cells: the value of the earliest with a slot and an index; and 14 and 15.
ghost use Rattle.std.specs.Prelude.{◌≡◌, ℕ, Bool, ◌<◌, ◌≤◌};
ghost use Rattle.table.specs.Answers.{accepted};
ghost use Rattle.table.specs.Terms.{terms};
ghost use Rattle.table.specs.Admission.{scan};
ghost use Rattle.table.specs.WellFormed.{WellFormed};
ghost use Rattle.setting.specs.Code.Entries.{Entries};
ghost use Rattle.setting.specs.declared.cells.Cell.{Cell};
ghost use Rattle.setting.specs.Cells.{cell_at, cell_count, is_cut, matches, look_from};
ghost use Rattle.setting.specs.Check.{cell_fault};

use crate::arrays::{fill_entries, slot_sort};
use table::{Refusal, refuse_unless};

#[repr(C)]
#[derive(Clone, Copy)]
pub struct Cell {
    pub slot: u32,
    pub index: u32,
    pub value: u32,
}

// The cells of a setting, in whichever form they are lent: cell `k`, how many there are, and whether the last is cut.
pub trait Cells {
    ghost at: { Self → ℕ → Cell };

    ghost count: { Self → ℕ };

    ghost cut: { Self → Bool };

    fn count(&self) -> usize
        ensures { result ≡ count self.now };

    fn is_cut(&self) -> bool
        ensures { result ≡ cut self.now };

    fn cell(&self, k: usize) -> Cell
        requires { k < count self.now }
        ensures { result ≡ at self.now k };
}

// A row of numbers, three a cell.
#[derive(Clone, Copy)]
pub struct Flat<'a> {
    pub numbers: &'a [u32],
}

impl<'a> Cells for Flat<'a> {
    ghost at = { λ s. cell_at s.numbers.now };

    ghost count = { λ s. cell_count s.numbers.now };

    ghost cut = { λ s. is_cut s.numbers.now };

    fn count(&self) -> usize {
        self.numbers.len() / 3
    }

    fn is_cut(&self) -> bool {
        self.numbers.len() % 3 != 0
    }

    fn cell(&self, k: usize) -> Cell {
        let at = k * 3;
        Cell {
            slot: self.numbers[at],
            index: self.numbers[at + 1],
            value: self.numbers[at + 2],
        }
    }
}

fn matches(c: Cell, slot: u32, index: u32) -> bool
    ensures { result ≡ matches c slot index }
{
    (c.slot == slot) & (c.index == index)
}

// The value of the earliest of `among` cells with this slot and index, else the other.
pub fn look<C: Cells>(cells: &C, among: usize, slot: u32, index: u32, other: u32) -> u32
    requires { among ≤ C.count cells.now }
    ensures { result ≡ look_from (C.at cells.now) among 0 slot index other }
{
    for k in 0..among {
        let c = cells.cell(k);
        if matches(c, slot, index) {
            return c.value;
        }
    }
    other
}

// The lower of 14 and 15 that refuses a cell, and 0 where none does.
fn cell_fault(table: &[u32], entries: &[u32; 256], c: Cell) -> u32
    requires { Entries table.now (terms table.now) entries.now }
    ensures { result ≡ cell_fault table.now c }
{
    let sort = slot_sort(table, entries, c.slot);
    let fitting = ops::fits(sort.m, c.index) & ops::fits(sort.n, c.value);
    refuse_unless(14, table::array(sort), refuse_unless(15, fitting, 0))
}

// The cells in order.
pub fn cells_checked<C: Cells>(table: &[u32], cells: &C) -> Result<(), Refusal>
    requires { WellFormed 80000 table.now }
    ensures { result ≡ scan (λ k. cell_fault table.now (C.at cells.now k))
        (C.count cells.now) 0 accepted }
{
    let listed = cells.count();
    if listed == 0 {
        return Ok(());
    }
    let mut entries = [0u32; 256];
    fill_entries(table, &mut entries);
    for k in 0..listed {
        let number = cell_fault(table, &entries, cells.cell(k));
        if number != 0 {
            return table::refused(number, k as u64);
        }
    }
    Ok(())
}
