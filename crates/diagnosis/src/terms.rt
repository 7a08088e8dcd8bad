// The reasons for 3 to 10, of a term.
ghost use Rattle.std.specs.Prelude.{◌≡◌, ◌&&◌, ◌<◌};
ghost use Rattle.table.specs.Terms.{term_at};
ghost use Rattle.table.specs.Faults.{fields, is_variable, conflicts};
ghost use Rattle.table.specs.Folds.{first_from};
ghost use Rattle.diagnosis.specs.Telling.{tell};
ghost use Rattle.diagnosis.specs.Reasons.{op_lines, width_lines, uses, field_lines, most};
ghost use Rattle.diagnosis.specs.Reasons.{value_lines, clashing, clash_lines, first_clashing, size_lines, rule_lines};
ghost use Rattle.diagnosis.specs.Reasons.{term_reasons, field_line};

use crate::asking::sort_told;
use crate::reason::{Part, Reason};
use table::{Fields, Sort, Term, is_constant, is_variable, sort_at, term_at};

// What a field holds: a number of its own, an operand, nothing.
#[derive(Clone, Copy)]
pub enum Use {
    Number,
    Operand,
    Unused,
}

use Use::{Number, Operand, Unused};

// 3
fn op_told(x: Term) -> Option<Reason>
    ensures { result ≡ tell (op_lines x) }
{
    if ops::LAST_OP < x.op {
        Some(Reason::UnknownOp {
            op: x.op,
            last: ops::LAST_OP,
        })
    } else {
        None
    }
}

// 4
fn width_told(s: Sort) -> Option<Reason>
    ensures { result ≡ tell (width_lines s) }
{
    if 32 < s.m {
        Some(Reason::IndexTooWide { width: s.m })
    } else if 32 < s.n {
        Some(Reason::TooWide { width: s.n })
    } else if 0 < s.m && s.n == 0 {
        Some(Reason::NoElementWidth)
    } else {
        None
    }
}

// What the fields p, q and r of an operator hold.
fn uses_of(fields: Fields) -> (Use, Use, Use)
    ensures { result ≡ uses fields }
{
    match fields {
        Fields::Value => (Number, Unused, Unused),
        Fields::Slot => (Number, Number, Unused),
        Fields::One => (Operand, Unused, Unused),
        Fields::Two => (Operand, Operand, Unused),
        Fields::Three => (Operand, Operand, Operand),
    }
}

// What is told of a field that is wrong in term `i`.
fn field_told(held: Use, part: Part, i: u32, v: u32) -> Option<Reason>
    ensures { result ≡ tell (field_line held part i v) }
{
    match held {
        Operand if i <= v => Some(Reason::LateOperand {
            part,
            operand: v,
            term: i,
        }),
        Unused if v != 0 => Some(Reason::StrayField { part, number: v }),
        _ => None,
    }
}

// 5
#[tactic(auto, using(crate::proofs::Lines::tell_append))]
fn fields_told(i: u32, x: Term) -> Option<Reason>
    ensures { result ≡ tell (field_lines (uses (fields x)) i x) }
{
    let (p, q, r) = uses_of(table::fields_of(x.op));
    field_told(p, Part::P, i, x.p)
        .or(field_told(q, Part::Q, i, x.q))
        .or(field_told(r, Part::R, i, x.r))
}

// The most that fits a width of up to 32, which is 0 for a Boolean.
pub fn most(n: u32) -> u32
    ensures { result ≡ most n }
{
    match n {
        0 => 1,
        1..=31 => ops::ones(n),
        _ => u32::MAX,
    }
}

// 7
fn value_told(x: Term) -> Option<Reason>
    ensures { result ≡ tell (value_lines x) }
{
    let sort = x.sort;
    if is_constant(x) && !ops::fits(sort.n, x.p) {
        Some(Reason::ConstantTooLarge {
            value: x.p,
            most: most(sort.n),
            sort,
        })
    } else if is_variable(x) && 255 < x.p {
        Some(Reason::SlotTooLarge { slot: x.p })
    } else if is_variable(x) && 1 < x.q {
        Some(Reason::MarkTooLarge { mark: x.q })
    } else {
        None
    }
}

// Whether term `a` is a variable that clashes with `x`.
fn clashes(a: Term, x: Term) -> bool
    ensures { result ≡ (is_variable a && conflicts a x) }
{
    is_variable(a) && a.p == x.p && !(table::same_sort(a.sort, x.sort) && a.q == x.q)
}

// The first term before term `i`, `x`, that clashes with it, `i` where none does.
fn first_clashing(table: &[u32], i: u32, x: Term) -> u32
    ensures { result ≡ first_from (clashing table.now x) i 0 }
{
    (0..i).find(|k| clashes(term_at(table, *k), x)).unwrap_or(i)
}

// 8: of term `k`, `a`, and a later one, `x`.
fn clash_told(k: u32, a: Term, x: Term) -> Option<Reason>
    ensures { result ≡ tell (clash_lines k a x) }
{
    if !table::same_sort(a.sort, x.sort) {
        Some(Reason::OtherSort {
            term: k,
            slot: x.p,
            there: a.sort,
            here: x.sort,
        })
    } else if a.q != x.q {
        Some(Reason::OtherMark {
            term: k,
            slot: x.p,
            there: a.q,
            here: x.q,
        })
    } else {
        None
    }
}

// 8
fn clashing_told(table: &[u32], i: u32, x: Term) -> Option<Reason>
    requires { x ≡ term_at table.now i }
    ensures { result ≡ tell (clash_lines (first_clashing table.now i)
        (term_at table.now (first_clashing table.now i)) x) }
{
    let k = first_clashing(table, i, x);
    clash_told(k, term_at(table, k), x)
}

// 9
fn size_told(table: &[u32], i: u32) -> Option<Reason>
    ensures { result ≡ tell (size_lines table.now i) }
{
    let stores = admission::size(table, i);
    if 16 < stores {
        Some(Reason::TooManyStores { stores })
    } else {
        None
    }
}

// 10
fn rule_told(table: &[u32], i: u32) -> Option<Reason>
    ensures { result ≡ tell (rule_lines table.now i) }
{
    let sort = sort_at(table, i);
    if table::boolean(sort) {
        None
    } else {
        Some(Reason::RuleNotBool { sort })
    }
}

// Of term `i`, by the number that refuses it.
#[tactic(auto, unfolding(crate::specs::Reasons::term_reasons))]
pub fn term_told(table: &[u32], number: u32, i: u32) -> Option<Reason>
    ensures { result ≡ tell (term_reasons table.now number i) }
{
    let x = term_at(table, i);
    match number {
        3 => op_told(x),
        4 => width_told(x.sort),
        5 => fields_told(i, x),
        6 => sort_told(table, i, x),
        7 => value_told(x),
        8 => clashing_told(table, i, x),
        9 => size_told(table, i),
        _ => rule_told(table, i),
    }
}
