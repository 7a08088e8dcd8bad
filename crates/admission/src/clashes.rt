// Refusal 8: the first variable with an earlier one of its slot that has another sort or mark.
ghost use Rattle.std.specs.Prelude.{◌≡◌, ◌*◌, ◌≤◌, length};
ghost use Rattle.table.specs.Terms.{words};
ghost use Rattle.table.specs.Faults.{conflicts};
ghost use Rattle.table.specs.Code.Clashes.{claims, first_clash};

use table::{Term, is_variable, same_sort, term_in};

// One slot, and another sort or mark.
fn conflicts(a: Term, x: Term) -> bool
    ensures { result ≡ conflicts a x }
{
    (a.p == x.p) & !(same_sort(a.sort, x.sort) & (a.q == x.q))
}

// A variable of a slot up to 255.
fn claims(x: Term) -> bool
    ensures { result ≡ claims x }
{
    is_variable(x) & (x.p <= 255)
}

// The first variable that clashes with an earlier one, else the count of terms. Of the earlier variables the first of
// each slot is kept: those after it have its sort and mark, or the search would have ended. No two that are kept have
// one slot, so 256 places are enough.
pub fn first_clash(table: &[u32], terms: u32) -> u32
    requires { terms * words ≤ length table.now }
    ensures { result ≡ first_clash table.now terms }
{
    let mut earlier = [0u32; 256];
    let mut met = 0usize;
    let mut at = terms;
    'variables: for i in 0..terms {
        let x = term_in(table, i);
        if !claims(x) {
            continue;
        }
        for k in 0..met {
            let a = term_in(table, earlier[k]);
            if a.p == x.p {
                if conflicts(a, x) {
                    at = i;
                    break 'variables;
                }
                continue 'variables;
            }
        }
        earlier[met] = i;
        met += 1;
    }
    at
}
