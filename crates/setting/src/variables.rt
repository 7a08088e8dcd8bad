// 12 and 13: each variable's slot is in the value row, and its value fits.
ghost use Rattle.std.specs.Prelude.{◌≡◌};
ghost use Rattle.table.specs.Terms.{terms, term_at};
ghost use Rattle.table.specs.Answers.{accepted};
ghost use Rattle.table.specs.Admission.{scan};
ghost use Rattle.table.specs.WellFormed.{WellFormed};
ghost use Rattle.setting.specs.Check.{variable_fault};

use table::{Refusal, Term, number_at, refuse_unless};

// The lower of 12 and 13 that refuses a term, and 0 where none does or it is no variable.
fn variable_fault(values: &[u32], x: Term) -> u32
    ensures { result ≡ variable_fault values.now x }
{
    if !table::is_variable(x) {
        return 0;
    }
    let inside = (x.p as usize) < values.len();
    let fitting = ops::fits(x.sort.n, number_at(values, x.p));
    refuse_unless(12, inside, refuse_unless(13, fitting, 0))
}

// The variables in order.
pub fn variables_checked(table: &[u32], values: &[u32]) -> Result<(), Refusal>
    requires { WellFormed 80000 table.now }
    ensures { result ≡ scan (λ k. variable_fault values.now (term_at table.now k))
        (terms table.now) 0 accepted }
{
    let terms = table::count(table);
    for i in 0..terms {
        let number = variable_fault(values, table::term_in(table, i));
        if number != 0 {
            return table::refused(number, i as u64);
        }
    }
    Ok(())
}
