// Refusals 5 to 7: operands below the term and unused fields 0; the sorts; a constant, a slot and a mark that fit.
ghost use Rattle.std.specs.Prelude.{◌≡◌, true};
ghost use Rattle.table.specs.Terms.{HasTerm, sort_at};
ghost use Rattle.table.specs.Ranks.{fields_of};
ghost use Rattle.table.specs.Faults.{placed_as, typed_as, valued_as, refuse_unless, rank_fault};

use crate::ranks::{Fields, Rank};
use crate::sorts::{array, boolean, scalar, vector, vector_of};
use crate::words::{Term, sort_in};

// number unless `ok`, else rest.
pub fn refuse_unless(number: u32, ok: bool, rest: u32) -> u32
    ensures { result ≡ refuse_unless number ok rest }
{
    if ok { rest } else { number }
}

// 5: operands below term `i`, and no other field.
#[inline(always)]
fn placed(fields: Fields, i: u32, x: Term) -> bool
    ensures { result ≡ placed_as fields i x }
{
    match fields {
        Fields::Value => (x.q == 0) & (x.r == 0),
        Fields::Slot => x.r == 0,
        Fields::One => (x.p < i) & (x.q == 0) & (x.r == 0),
        Fields::Two => (x.p < i) & (x.q < i) & (x.r == 0),
        Fields::Three => (x.p < i) & (x.q < i) & (x.r < i),
    }
}

// 6: the sorts that a rank asks of term `i`, `x`, and of its operands. These are below the term, which is in place: so the table has
// their sorts, and they are read without a look at its length.
#[inline(always)]
fn typed(table: &[u32], rank: Rank, i: u32, x: Term) -> bool
    requires has_term { HasTerm table.now i }
    requires in_place { placed_as (fields_of rank) i x ≡ true }
    ensures { result ≡ typed_as rank x.sort (sort_at table.now x.p) (sort_at table.now x.q) (sort_at table.now x.r) }
{
    let s = x.sort;
    match rank {
        Rank::Literal => scalar(s),
        Rank::Input | Rank::Other => true,
        Rank::BoolUnary => boolean(s) & boolean(sort_in(table, x.p)),
        Rank::BoolBinary => {
            let (a, b) = (sort_in(table, x.p), sort_in(table, x.q));
            boolean(s) & boolean(a) & boolean(b)
        }
        Rank::Equality => {
            let (a, b) = (sort_in(table, x.p), sort_in(table, x.q));
            boolean(s) & scalar(a) & (a == b)
        }
        Rank::Choice => {
            let (a, b, c) = (
                sort_in(table, x.p),
                sort_in(table, x.q),
                sort_in(table, x.r),
            );
            boolean(a) & (b == s) & (c == s)
        }
        Rank::BvUnary => vector(s) & (sort_in(table, x.p) == s),
        Rank::BvBinary => {
            let (a, b) = (sort_in(table, x.p), sort_in(table, x.q));
            vector(s) & (a == s) & (b == s)
        }
        Rank::BvCompare => {
            let (a, b) = (sort_in(table, x.p), sort_in(table, x.q));
            boolean(s) & vector(a) & (a == b)
        }
        Rank::Read => {
            let (a, b) = (sort_in(table, x.p), sort_in(table, x.q));
            array(a) & vector_of(a.m, b) & vector_of(a.n, s)
        }
        Rank::Write => {
            let (a, b, c) = (
                sort_in(table, x.p),
                sort_in(table, x.q),
                sort_in(table, x.r),
            );
            array(s) & (a == s) & vector_of(s.m, b) & vector_of(s.n, c)
        }
    }
}

// 7: a constant, a slot and a mark that fit.
#[inline(always)]
fn valued(fields: Fields, x: Term) -> bool
    ensures { result ≡ valued_as fields x }
{
    match fields {
        Fields::Value => ops::fits(x.sort.n, x.p),
        Fields::Slot => (x.p <= 255) & (x.q <= 1),
        Fields::One | Fields::Two | Fields::Three => true,
    }
}

// The lowest of 5 to 7 that refuses term `i`, `x`, of this rank, and 0 where none does. The sorts are looked at where the
// operands are below the term.
#[inline(always)]
fn lowest(table: &[u32], rank: Rank, i: u32, x: Term) -> u32
    requires { HasTerm table.now i }
    ensures { result ≡ rank_fault table.now rank i x }
{
    let fields = rank.fields();
    if !placed(fields, i, x) {
        return 5;
    }
    refuse_unless(
        6,
        typed(table, rank, i, x),
        refuse_unless(7, valued(fields, x), 0),
    )
}

// The same by one jump: in each arm the rank is known to the compiler, which leaves there what this rank asks and no more.
pub fn rank_fault(table: &[u32], rank: Rank, i: u32, x: Term) -> u32
    requires { HasTerm table.now i }
    ensures { result ≡ rank_fault table.now rank i x }
{
    match rank {
        Rank::Literal => lowest(table, Rank::Literal, i, x),
        Rank::Input => lowest(table, Rank::Input, i, x),
        Rank::BoolUnary => lowest(table, Rank::BoolUnary, i, x),
        Rank::BoolBinary => lowest(table, Rank::BoolBinary, i, x),
        Rank::Equality => lowest(table, Rank::Equality, i, x),
        Rank::Choice => lowest(table, Rank::Choice, i, x),
        Rank::BvUnary => lowest(table, Rank::BvUnary, i, x),
        Rank::BvBinary => lowest(table, Rank::BvBinary, i, x),
        Rank::BvCompare => lowest(table, Rank::BvCompare, i, x),
        Rank::Read => lowest(table, Rank::Read, i, x),
        Rank::Write => lowest(table, Rank::Write, i, x),
        Rank::Other => lowest(table, Rank::Other, i, x),
    }
}
