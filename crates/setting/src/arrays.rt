// The sort of each array slot of a table, kept by slot.
ghost use Rattle.std.specs.Prelude.{◌≡◌, replicate};
ghost use Rattle.table.specs.Terms.{terms};
ghost use Rattle.table.specs.WellFormed.{WellFormed};
ghost use Rattle.setting.specs.Arrays.{array_variable, slot_sort};
ghost use Rattle.setting.specs.Code.Entries.{Entries};

use table::{Sort, Term};

// An entry for each slot.
pub const ENTRIES: usize = 256;

// An array variable of a slot up to 255. Most terms are no variables: they are passed over by one comparison.
fn array_variable(x: Term) -> bool
    ensures { result ≡ array_variable x }
{
    if !table::is_variable(x) {
        return false;
    }
    table::array(x.sort) & (x.p <= 255)
}

// Fills in, for each slot, the number of its latest array variable and one.
pub fn fill_entries(table: &[u32], entries: &mut [u32; 256])
    requires well_formed { WellFormed 80000 table.now }
    requires entries_value { entries.old ≡ replicate 256 0 }
    ensures { Entries table.now (terms table.now) entries.new }
{
    let terms = table::count(table);
    for i in 0..terms {
        let x = table::term_in(table, i);
        if !array_variable(x) {
            continue;
        }
        let slot = x.p as usize;
        entries[slot] = i + 1;
    }
}

// The sort of a slot's array variable, (0, 0) where it has none.
pub fn slot_sort(table: &[u32], entries: &[u32; 256], slot: u32) -> Sort
    requires { Entries table.now (terms table.now) entries.now }
    ensures { result ≡ slot_sort table.now slot }
{
    if slot < 256 {
        let entry = entries[slot as usize];
        if entry != 0 {
            return table::sort_at(table, entry - 1);
        }
    }
    Sort { m: 0, n: 0 }
}
