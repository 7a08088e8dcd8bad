// The kinds of terms that finishing adds.
ghost use Rattle.std.specs.Prelude.{◌≡◌};
ghost use Rattle.table.specs.Code.Writing.{placed};
ghost use Rattle.groups.specs.Added.{bool_term, vector_term, not_t, and_t, or_t, equal_t, choice_t, less_t, constant_t};
ghost use Rattle.groups.specs.Added.{read_t};

use table::{Sort, Term, put};

fn bool_term(op: u32, p: u32, q: u32, r: u32) -> Term
    ensures { result ≡ bool_term op p q r }
{
    Term {
        op: op,
        sort: Sort { m: 0, n: 0 },
        p: p,
        q: q,
        r: r,
    }
}

fn vector_term(op: u32, n: u32, p: u32, q: u32) -> Term
    ensures { result ≡ vector_term op n p q }
{
    Term {
        op: op,
        sort: Sort { m: 0, n: n },
        p: p,
        q: q,
        r: 0,
    }
}

pub fn not_term(p: u32) -> Term
    ensures { result ≡ not_t p }
{
    bool_term(2, p, 0, 0)
}

pub fn and_term(p: u32, q: u32) -> Term
    ensures { result ≡ and_t p q }
{
    bool_term(3, p, q, 0)
}

pub fn or_term(p: u32, q: u32) -> Term
    ensures { result ≡ or_t p q }
{
    bool_term(4, p, q, 0)
}

pub fn equal_term(p: u32, q: u32) -> Term
    ensures { result ≡ equal_t p q }
{
    bool_term(6, p, q, 0)
}

pub fn choice_term(p: u32, q: u32, r: u32) -> Term
    ensures { result ≡ choice_t p q r }
{
    bool_term(7, p, q, r)
}

pub fn less_term(p: u32, q: u32) -> Term
    ensures { result ≡ less_t p q }
{
    bool_term(14, p, q, 0)
}

// Of width `n`, which is 0 for a Boolean.
pub fn constant_term(n: u32, value: u32) -> Term
    ensures { result ≡ constant_t n value }
{
    vector_term(0, n, value, 0)
}

// Of width `n`: array `p` at index `q`.
pub fn read_term(n: u32, p: u32, q: u32) -> Term
    ensures { result ≡ read_t n p q }
{
    vector_term(15, n, p, q)
}

// Written as term `k`.
pub fn put_and(room: &mut [u32], k: u32, p: u32, q: u32)
    ensures { room.new ≡ placed room.old k (and_t p q) }
{
    put(room, k, and_term(p, q));
}

pub fn put_constant(room: &mut [u32], k: u32, n: u32, value: u32)
    ensures { room.new ≡ placed room.old k (constant_t n value) }
{
    put(room, k, constant_term(n, value));
}
