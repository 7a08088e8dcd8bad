// What a term's value comes from in a setting.
ghost use Rattle.std.specs.Prelude.{◌≡◌, slice_get};
ghost use Rattle.explain.specs.Sources.{stacked, branched, past, picked, goes, next};
ghost use Rattle.explain.specs.Sources.{index, stored, test, here, along, shape_of, support};
ghost use Rattle.table.specs.Faults.{rank};

use crate::answers::{Held, Shape, Source};
use table::{Rank, Term, number_at};

// Whether term `a`, `x`, is a store over an earlier term.
pub fn stacked(x: Term, a: u32) -> bool
    ensures { result ≡ stacked x a }
{
    table::is_store(x) && x.p < a
}

// Whether term `a`, `x`, is a choice between two arrays, both earlier terms.
pub fn branched(x: Term, a: u32) -> bool
    ensures { result ≡ branched x a }
{
    table::is_choice(x) && x.q < a && x.r < a
}

// Whether a read at index `j` goes past term `a`: a store at another index.
pub fn past(table: &[u32], values: &[u32], a: u32, j: u32) -> bool
    ensures { result ≡ past table.now values.now a j }
{
    let x = table::term_at(table, a);
    stacked(x, a) && number_at(values, x.q) != j
}

// The branch that a choice's test picks by its value.
pub fn picked(values: &[u32], x: Term) -> u32
    ensures { result ≡ picked values.now x }
{
    let test = number_at(values, x.p) == 1;
    if test { x.q } else { x.r }
}

// Whether a read at index `j` goes on from term `a`: past such a store, or into a branch of a choice.
fn goes(table: &[u32], values: &[u32], a: u32, j: u32) -> bool
    ensures { result ≡ goes table.now values.now a j }
{
    past(table, values, a, j) || branched(table::term_at(table, a), a)
}

// Where to: the store's array, or the branch picked.
pub fn next(table: &[u32], values: &[u32], a: u32) -> u32
    ensures { result ≡ next table.now values.now a }
{
    let x = table::term_at(table, a);
    if table::is_store(x) {
        x.p
    } else {
        picked(values, x)
    }
}

// Of term `a`, `x`: a store's index, a store's value, a choice's test.
pub fn index(x: Term, a: u32) -> Source
    ensures { result ≡ index x a }
{
    Source::Index(Held {
        store: a,
        term: x.q,
    })
}

pub fn stored(x: Term, a: u32) -> Source
    ensures { result ≡ stored x a }
{
    Source::Stored(Held {
        store: a,
        term: x.r,
    })
}

pub fn test(x: Term, a: u32) -> Source
    ensures { result ≡ test x a }
{
    Source::Test(Held {
        store: a,
        term: x.p,
    })
}

// Number `i` of what a read at index `j` comes from at term `a` alone.
fn here(table: &[u32], values: &[u32], a: u32, j: u32, i: usize) -> Option<Source>
    ensures { result ≡ slice_get (here table.now values.now a j) i }
{
    let x = table::term_at(table, a);
    match i {
        0 if stacked(x, a) => Some(index(x, a)),
        0 if branched(x, a) => Some(test(x, a)),
        0 => Some(Source::Array(a)),
        1 if stacked(x, a) && number_at(values, x.q) == j => Some(stored(x, a)),
        _ => None,
    }
}

// Number `i` of what a read of array term `a` at index `j` comes from, the outermost first.
fn along(table: &[u32], values: &[u32], a: u32, j: u32, i: usize) -> Option<Source>
    ensures { result ≡ slice_get (along table.now values.now a j) i }
{
    let mut at = a;
    let mut left = i;
    while 0 < left && goes(table, values, at, j) {
        at = next(table, values, at);
        left -= 1;
    }
    here(table, values, at, j, left)
}

// A term by its operands: none, one, two; a choice; a read.
pub fn shape_of(x: Term) -> Shape
    ensures { result ≡ shape_of (rank x) }
{
    match table::rank_of(x.op) {
        Rank::Literal | Rank::Input | Rank::Write | Rank::Other => Shape::Leaf,
        Rank::BoolUnary | Rank::BvUnary => Shape::Unary,
        Rank::BoolBinary | Rank::Equality | Rank::BvBinary | Rank::BvCompare => Shape::Binary,
        Rank::Choice => Shape::Branches,
        Rank::Read => Shape::Cell,
    }
}

// Number `i`, from 0, of what the value of term `x` comes from in a setting; nothing past the last.
#[tactic(auto, unfolding(crate::specs::Sources::support), using(crate::proofs::Alongs::nth_rest))]
pub fn source_at(table: &[u32], values: &[u32], x: Term, i: usize) -> Option<Source>
    ensures { result ≡ slice_get (support table.now values.now x) i }
{
    match (shape_of(x), i) {
        (Shape::Leaf, _) => None,
        (Shape::Cell, 0) => Some(Source::Operand(x.q)),
        (Shape::Cell, _) => along(table, values, x.p, number_at(values, x.q), i - 1),
        (_, 0) => Some(Source::Operand(x.p)),
        (Shape::Binary, 1) => Some(Source::Operand(x.q)),
        (Shape::Branches, 1) => Some(Source::Operand(picked(values, x))),
        _ => None,
    }
}
