// A read along its array, a tree of stores and choices over variables.
ghost use Rattle.std.specs.Prelude.{◌≡◌};
ghost use Rattle.table.specs.WellFormed.{WellFormed};
ghost use Rattle.evaluate.specs.Code.Reads.{holder_at, found_at};

use table::number_at;

// The value that a store holds, or else the slot of the variable at the end.
#[derive(Clone, Copy)]
pub struct Found {
    pub stored: bool,
    pub number: u32,
}

// The store or the variable that holds what the array term `a` holds at index `j`, the outermost store first; where its
// index differs, the same question goes to the array beneath, and of a choice to the branch that the test picks: the
// array's number falls.
fn holder(table: &[u32], front: &[u32], a: u32, j: u32) -> u32
    requires { WellFormed 80000 table.now }
    ensures { result ≡ holder_at table.now front.now a j }
{
    let x = table::term_at(table, a);
    if table::is_store(x) {
        if number_at(front, x.q) == j {
            return a;
        }
        return holder(table, front, x.p, j);
    }
    if !table::is_choice(x) {
        return a;
    }
    let branch = ops::ite(number_at(front, x.p) == 1, x.q, x.r);
    holder(table, front, branch, j)
}

// What it holds there.
pub fn find(table: &[u32], front: &[u32], a: u32, j: u32) -> Found
    requires { WellFormed 80000 table.now }
    ensures { result ≡ found_at table.now front.now a j }
{
    let x = table::term_at(table, holder(table, front, a, j));
    let stored = table::is_store(x);
    let held = number_at(front, x.r);
    Found {
        stored,
        number: ops::ite(stored, held, x.p),
    }
}
