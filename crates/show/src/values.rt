// Sorts and values.
ghost use Rattle.std.specs.Prelude.{◌≡◌, ◌<◌, Some, None, cond, eqb, ◌||◌};
ghost use Rattle.show.specs.declared.values.Value.TheVariants.{Truth, Number};
ghost use Rattle.table.specs.Faults.{is_store, is_choice};

use std::fmt;
use std::fmt::{Display, Formatter};
use table::{Sort, Term};

// A sort in words: Bool, BitVec n, Array m n.
#[derive(Clone, Copy)]
pub struct SortWords(pub Sort);

// A sort as SMT-LIB writes it.
#[derive(Clone, Copy)]
pub struct SmtSort(pub Sort);

// A value; of a Boolean false or true.
#[derive(Clone, Copy)]
pub enum Value {
    Truth(bool),
    Number(u32),
}

// A value, or a dash where there is none.
#[derive(Clone, Copy)]
pub struct OrDash(pub Option<Value>);

// A value, or JSON's word where there is none.
#[derive(Clone, Copy)]
pub struct OrNull(pub Option<Value>);

impl Value {
    // A value of a width, which is 0 of a Boolean.
    pub fn of_width(width: u32, n: u32) -> Value
        ensures boolean { width ≡ 0 → result ≡ Truth (eqb n 1) }
        ensures number { 0 < width → result ≡ Number n }
    {
        if width == 0 {
            Value::Truth(n == 1)
        } else {
            Value::Number(n)
        }
    }

    // A value of a sort; an array has none.
    pub fn of_sort(sort: Sort, n: u32) -> Option<Value>
        ensures boolean { sort.m ≡ 0 → sort.n ≡ 0 → result ≡ Some (Truth (eqb n 1)) }
        ensures number { sort.m ≡ 0 → 0 < sort.n → result ≡ Some (Number n) }
        ensures array { 0 < sort.m → result ≡ None }
    {
        if sort.m == 0 {
            Some(Value::of_width(sort.n, n))
        } else {
            None
        }
    }
}

// Whether a term is a store or a choice between arrays, which have no condition.
pub fn is_bare(x: Term) -> bool
    ensures { result ≡ (is_store x || is_choice x) }
{
    table::is_store(x) | table::is_choice(x)
}

// Whether a term is free; none of one that has no condition.
pub fn condition(x: Term, free: bool) -> Option<Value>
    ensures { result ≡ cond (is_store x || is_choice x) None (Some (Truth free)) }
{
    if is_bare(x) {
        None
    } else {
        Some(Value::Truth(free))
    }
}

impl Display for SortWords {
    fn fmt<W: fmt::Write>(&self, f: &mut Formatter<W>) -> fmt::Result {
        match self.0 {
            Sort { m: 0, n: 0 } => f.write_str("Bool"),
            Sort { m: 0, n } => write!(f, "BitVec {n}"),
            Sort { m, n } => write!(f, "Array {m} {n}"),
        }
    }
}

impl Display for SmtSort {
    fn fmt<W: fmt::Write>(&self, f: &mut Formatter<W>) -> fmt::Result {
        match self.0 {
            Sort { m: 0, n: 0 } => f.write_str("Bool"),
            Sort { m: 0, n } => write!(f, "(_ BitVec {n})"),
            Sort { m, n } => write!(f, "(Array (_ BitVec {m}) (_ BitVec {n}))"),
        }
    }
}

impl Display for Value {
    fn fmt<W: fmt::Write>(&self, f: &mut Formatter<W>) -> fmt::Result {
        match self {
            Value::Truth(truth) => truth.fmt(f),
            Value::Number(n) => n.fmt(f),
        }
    }
}

impl Display for OrDash {
    fn fmt<W: fmt::Write>(&self, f: &mut Formatter<W>) -> fmt::Result {
        match self.0 {
            Some(value) => value.fmt(f),
            None => f.pad("-"),
        }
    }
}

impl Display for OrNull {
    fn fmt<W: fmt::Write>(&self, f: &mut Formatter<W>) -> fmt::Result {
        match self.0 {
            Some(value) => value.fmt(f),
            None => f.pad("null"),
        }
    }
}
