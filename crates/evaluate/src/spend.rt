// What a run spends: the room's length, and steps of the allowance.
ghost use Rattle.std.specs.Prelude.{◌≡◌, ◌≤◌};
ghost use Rattle.table.specs.Terms.{terms};
ghost use Rattle.table.specs.WellFormed.{WellFormed};
ghost use Rattle.evaluate.specs.Steps.{steps_of, steps};
ghost use Rattle.evaluate.specs.Evaluation.{afford};

use crate::Spent;
use table::{Refusal, Term};

// The steps of a term: of a read the size of its whole array.
fn steps_of(table: &[u32], x: Term) -> u32
    ensures { result ≡ steps_of table.now x }
{
    if table::is_read(x) {
        admission::size(table, x.p)
    } else {
        0
    }
}

// The steps of a table: the sum over its reads.
fn steps(table: &[u32]) -> u64
    requires { WellFormed 80000 table.now }
    ensures { result ≡ steps table.now (terms table.now) }
{
    let terms = table::count(table);
    let mut sum = 0u64;
    for i in 0..terms {
        sum += steps_of(table, table::term_in(table, i)) as u64;
    }
    sum
}

// 22 and 23, else what is spent and left; the room holds each numbers a term.
pub fn afford(table: &[u32], each: u32, allowance: u64, room: usize) -> Result<Spent, Refusal>
    requires well_formed { WellFormed 80000 table.now }
    requires each_bound { each ≤ 8 }
    ensures { result ≡ afford table.now each allowance room }
{
    let needed = (table::count(table) as u64) * (each as u64);
    if (room as u64) < needed {
        return Err(Refusal {
            number: 22,
            place: needed,
        });
    }
    let spent = steps(table);
    if allowance < spent {
        return Err(Refusal {
            number: 23,
            place: spent,
        });
    }
    Ok(Spent {
        steps: spent,
        left: allowance - spent,
    })
}
