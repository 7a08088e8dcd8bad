// How many terms the finished table has.
ghost use Rattle.std.specs.Prelude.{◌≡◌};
ghost use Rattle.table.specs.Terms.{terms};
ghost use Rattle.table.specs.WellFormed.{WellFormed};
ghost use Rattle.groups.specs.Sizes.{size_of, sizes};
ghost use Rattle.finish.specs.Finished.{finished};

use groups::{GroupKind, kind_of};
use table::Term;

// The terms of a term's group: none for a choice between arrays.
fn size_of(table: &[u32], x: Term) -> u32
    ensures { result ≡ size_of table.now x }
{
    if table::is_choice(x) {
        return 0;
    }
    match kind_of(x.op) {
        GroupKind::Literal => 0,
        GroupKind::Input => 0,
        GroupKind::Unary => 0,
        GroupKind::Strict => 1,
        GroupKind::Conjunction => 7,
        GroupKind::Disjunction => 5,
        GroupKind::Implication => 6,
        GroupKind::Zero => 8,
        GroupKind::Ones => 8,
        GroupKind::Bounds => 9,
        GroupKind::SignedBounds => 9,
        GroupKind::Fixed => 9,
        GroupKind::Shift => 6,
        GroupKind::Choice => 6,
        GroupKind::Read => 1 + 9 * admission::size(table, x.p),
        GroupKind::Write => 0,
    }
}

// Those of all groups.
fn sizes(table: &[u32]) -> u32
    requires { WellFormed 512 table.now }
    ensures { result ≡ sizes table.now (terms table.now) }
{
    let terms = table::count(table);
    let mut sum = 0u32;
    for i in 0..terms {
        sum += size_of(table, table::term_in(table, i));
    }
    sum
}

// The terms of the finished table: T, F and the last besides the table's own and the groups.
pub fn needed(table: &[u32]) -> u32
    requires { WellFormed 512 table.now }
    ensures { result ≡ terms (finished table.now) }
{
    table::count(table) + 3 + sizes(table)
}
