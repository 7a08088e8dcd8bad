// Which tables the other routines take (paper 01, "Refused because of the input", 1 to 10).
#![tactic(auto)]

mod clashes; // refusal 8
mod faults; // refusals 3 to 9, term by term

ghost use Rattle.std.specs.Prelude.{◌≡◌, pred, ◌*◌, ◌≤◌, ◌<◌, length};
ghost use Rattle.table.specs.Terms.{words};
ghost use Rattle.table.specs.Admission.{scan, ended, admission_within, admission};
ghost use Rattle.table.specs.Faults.{fault};
ghost use Rattle.table.specs.Code.Clashes.{first_clash};

pub use faults::size;
use table::{Refusal, WORDS, boolean, refused, sort_at};

fn ended(table: &[u32], last: u32) -> Result<(), Refusal>
    ensures { result ≡ ended table.now last }
{
    if boolean(sort_at(table, last)) {
        Ok(())
    } else {
        refused(10, last as u64)
    }
}

// The terms in order, the first clash being known; then the last term's sort.
fn first_fault(table: &[u32], terms: u32, clash: u32) -> Result<(), Refusal>
    requires terms_nonzero { 0 < terms }
    requires words_in_bounds { terms * words ≤ length table.now }
    requires clash_value { clash ≡ first_clash table.now terms }
    ensures { result ≡ scan (fault table.now) terms 0 (ended table.now (pred terms)) }
{
    for i in 0..terms {
        let number = faults::fault(table, i, i == clash);
        if number != 0 {
            return refused(number, i as u64);
        }
    }
    ended(table, terms - 1)
}

// Acceptance with any limit on the count of terms.
pub fn admit_within(table: &[u32], limit: u32) -> Result<(), Refusal>
    ensures { result ≡ admission_within limit table.now }
{
    let len = table.len();
    if (len == 0) | (len % WORDS != 0) {
        return refused(1, 0);
    }
    let count = len / WORDS;
    if (limit as usize) < count {
        return refused(2, 0);
    }
    let terms = count as u32;
    first_fault(table, terms, clashes::first_clash(table, terms))
}

// Whether a table is one that the other routines take, else its first refusal.
pub fn admit(table: &[u32]) -> Result<(), Refusal>
    ensures { result ≡ admission table.now }
{
    admit_within(table, 512)
}
