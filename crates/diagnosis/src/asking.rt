// What each rank asks of the sorts, and the first that is not met (refusal 6).
ghost use Rattle.std.specs.Prelude.{◌≡◌, not};
ghost use Rattle.std.specs.List.{find};
ghost use Rattle.table.specs.Faults.{rank};
ghost use Rattle.table.specs.Terms.{sort_at};
ghost use Rattle.diagnosis.specs.Telling.{tell};
ghost use Rattle.diagnosis.specs.Asking.{asks, met, asked, of_part};
ghost use Rattle.diagnosis.specs.Reasons.{sort_line, sort_lines};

use crate::reason::Part::{self, P, Q, R, Whole};
use crate::reason::{Asked, BOOLEAN, Reason, vector_sort};
use table::{Rank, Sort, Term, sort_at};

// Of a part: one of the three sorts, or none of arrays; the sort of the term, or of p; a vector as wide as their
// indexes, or their elements.
#[derive(Clone, Copy)]
pub enum Asking {
    ABool,
    AVector,
    AnArray,
    AScalar,
    TermSort,
    FirstSort,
    TermIndex,
    TermElement,
    FirstIndex,
    FirstElement,
}

use Asking::{
    ABool, AScalar, AVector, AnArray, FirstElement, FirstIndex, FirstSort, TermElement, TermIndex,
    TermSort,
};

// What a rank asks of which part, in order.
fn asks_of(rank: Rank) -> &'static [(Part, Asking)]
    ensures { result.now ≡ asks rank }
{
    match rank {
        Rank::Literal => &[(Whole, AScalar)],
        Rank::Input | Rank::Other => &[],
        Rank::BoolUnary => &[(Whole, ABool), (P, ABool)],
        Rank::BoolBinary => &[(Whole, ABool), (P, ABool), (Q, ABool)],
        Rank::Equality => &[(Whole, ABool), (P, AScalar), (Q, FirstSort)],
        Rank::Choice => &[(P, ABool), (Q, TermSort), (R, TermSort)],
        Rank::BvUnary => &[(Whole, AVector), (P, TermSort)],
        Rank::BvBinary => &[(Whole, AVector), (P, TermSort), (Q, TermSort)],
        Rank::BvCompare => &[(Whole, ABool), (P, AVector), (Q, FirstSort)],
        Rank::Read => &[(P, AnArray), (Q, FirstIndex), (Whole, FirstElement)],
        Rank::Write => &[
            (Whole, AnArray),
            (P, TermSort),
            (Q, TermIndex),
            (R, TermElement),
        ],
    }
}

// Whether a part's sort `s` meets what is asked, where `x` is the term's sort and a that of p.
fn met(asking: Asking, x: Sort, a: Sort, s: Sort) -> bool
    ensures { result ≡ met asking x a s }
{
    match asking {
        ABool => table::boolean(s),
        AVector => table::vector(s),
        AnArray => table::array(s),
        AScalar => table::scalar(s),
        TermSort => table::same_sort(s, x),
        FirstSort => table::same_sort(a, s),
        TermIndex => table::vector_of(x.m, s),
        TermElement => table::vector_of(x.n, s),
        FirstIndex => table::vector_of(a.m, s),
        FirstElement => table::vector_of(a.n, s),
    }
}

// What is asked, as it is told.
fn asked(asking: Asking, x: Sort, a: Sort) -> Asked
    ensures { result ≡ asked asking x a }
{
    match asking {
        ABool => Asked::Exactly(BOOLEAN),
        AVector => Asked::AnyVector,
        AnArray => Asked::AnyArray,
        AScalar => Asked::NoArray,
        TermSort => Asked::Exactly(x),
        FirstSort => Asked::Exactly(a),
        TermIndex => Asked::Exactly(vector_sort(x.m)),
        TermElement => Asked::Exactly(vector_sort(x.n)),
        FirstIndex => Asked::Exactly(vector_sort(a.m)),
        FirstElement => Asked::Exactly(vector_sort(a.n)),
    }
}

// The number of the term that a part of term `i` stands for.
fn of_part(part: Part, i: u32, p: u32, q: u32, r: u32) -> u32
    ensures { result ≡ of_part part i p q r }
{
    match part {
        Whole => i,
        P => p,
        Q => q,
        R => r,
    }
}

// The sort of a part of a term.
fn sort_of(table: &[u32], x: Term, part: Part) -> Sort
    ensures { result ≡ of_part part x.sort (sort_at table.now x.p) (sort_at table.now x.q) (sort_at table.now x.r) }
{
    match part {
        Whole => x.sort,
        P => sort_at(table, x.p),
        Q => sort_at(table, x.q),
        R => sort_at(table, x.r),
    }
}

// Whether what is asked of a part of term `x` is met.
fn is_met(table: &[u32], x: Term, part: Part, asking: Asking) -> bool
    ensures { result ≡ (sort_line table.now 0 x part asking).ok }
{
    met(asking, x.sort, sort_at(table, x.p), sort_of(table, x, part))
}

// The first thing that is asked of term `x`, and is not met.
fn first_unmet(table: &[u32], x: Term) -> Option<(Part, Asking)>
    ensures { result ≡ find (λ ask. not (sort_line table.now 0 x ask.0 ask.1).ok) (asks (rank x)) }
{
    let asks = asks_of(table::rank_of(x.op));
    asks.iter()
        .copied()
        .find(|ask| !is_met(table, x, ask.0, ask.1))
}

// 6: the first thing that is asked of term `i`, `x`, and is not met.
#[tactic(auto, using(crate::proofs::Lines::none_unmet))]
pub fn sort_told(table: &[u32], i: u32, x: Term) -> Option<Reason>
    ensures { result ≡ tell (sort_lines (asks (rank x)) table.now i x) }
{
    let (part, asking) = first_unmet(table, x)?;
    Some(Reason::WrongSort {
        part,
        term: of_part(part, i, x.p, x.q, x.r),
        found: sort_of(table, x, part),
        asked: asked(asking, x.sort, sort_at(table, x.p)),
    })
}
