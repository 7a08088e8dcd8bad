// Writing each group of paper 01's "The condition of each term" into the room, from number b on.
ghost use Rattle.std.specs.Prelude.{◌≡◌, ◌≤◌, ◌<◌, length};
ghost use Rattle.groups.specs.Code.Writing.{placed_all, after};
ghost use Rattle.groups.specs.Groups.{strict_group, and_group, or_group, implies_group, absorbing_group, bounds_group};
ghost use Rattle.groups.specs.Groups.{shift_group, choice_group, store_group, array_choice_group};

use crate::added::{
    and_term, choice_term, constant_term, equal_term, less_term, not_term, or_term, read_term,
};
use table::{Term, put};

// The number of a term's condition, and that of the next group's first term.
#[derive(Clone, Copy)]
pub struct Written {
    pub condition: u32,
    pub next: u32,
}

// Writes the terms of a group as terms `b`, `b` + 1, ..: its last is the condition.
fn lay(room: &mut [u32], b: u32, group: &[Term]) -> Written
    requires b_bound { b ≤ 80000 }
    requires size { (0 < length group.now) × (length group.now ≤ 9) }
    ensures value { result ≡ after b group.now }
    ensures room_after { room.new ≡ placed_all room.old b group.now }
{
    let mut at = b;
    for x in group {
        put(room, at, *x);
        at += 1;
    }
    Written {
        condition: at - 1,
        next: at,
    }
}

// Equal, sum; and the read of a variable.
pub fn strict(room: &mut [u32], b: u32, cp: u32, cq: u32) -> Written
    requires { b ≤ 80000 }
    ensures value { result ≡ after b (strict_group cp cq) }
    ensures room_after { room.new ≡ placed_all room.old b (strict_group cp cq) }
{
    let group = [and_term(cp, cq)];
    lay(room, b, &group)
}

pub fn conjunction(room: &mut [u32], b: u32, p: u32, q: u32, cp: u32, cq: u32) -> Written
    requires { b ≤ 80000 }
    ensures value { result ≡ after b (and_group b p q cp cq) }
    ensures room_after { room.new ≡ placed_all room.old b (and_group b p q cp cq) }
{
    let group = [
        not_term(p),
        and_term(cp, b),
        not_term(q),
        and_term(cq, b + 2),
        or_term(b + 1, b + 3),
        and_term(cp, cq),
        or_term(b + 4, b + 5),
    ];
    lay(room, b, &group)
}

pub fn disjunction(room: &mut [u32], b: u32, p: u32, q: u32, cp: u32, cq: u32) -> Written
    requires { b ≤ 80000 }
    ensures value { result ≡ after b (or_group b p q cp cq) }
    ensures room_after { room.new ≡ placed_all room.old b (or_group b p q cp cq) }
{
    let group = [
        and_term(cp, p),
        and_term(cq, q),
        or_term(b, b + 1),
        and_term(cp, cq),
        or_term(b + 2, b + 3),
    ];
    lay(room, b, &group)
}

pub fn implication(room: &mut [u32], b: u32, p: u32, q: u32, cp: u32, cq: u32) -> Written
    requires { b ≤ 80000 }
    ensures value { result ≡ after b (implies_group b p q cp cq) }
    ensures room_after { room.new ≡ placed_all room.old b (implies_group b p q cp cq) }
{
    let group = [
        not_term(p),
        and_term(cp, b),
        and_term(cq, q),
        or_term(b + 1, b + 2),
        and_term(cp, cq),
        or_term(b + 3, b + 4),
    ];
    lay(room, b, &group)
}

// Vector and, product, vector or: value is the constant of width `n` that settles.
pub fn absorbing(
    room: &mut [u32],
    b: u32,
    n: u32,
    value: u32,
    p: u32,
    q: u32,
    cp: u32,
    cq: u32,
) -> Written
    requires { b ≤ 80000 }
    ensures value { result ≡ after b (absorbing_group b n value p q cp cq) }
    ensures room_after { room.new ≡ placed_all room.old b (absorbing_group b n value p q cp cq) }
{
    let group = [
        constant_term(n, value),
        equal_term(p, b),
        and_term(cp, b + 1),
        equal_term(q, b),
        and_term(cq, b + 3),
        or_term(b + 2, b + 4),
        and_term(cp, cq),
        or_term(b + 5, b + 6),
    ];
    lay(room, b, &group)
}

// Less: `u` and `v` are the constants of width `n` that settle, as `p` and as `s`.
pub fn bounds(
    room: &mut [u32],
    b: u32,
    n: u32,
    u: u32,
    v: u32,
    p: u32,
    s: u32,
    cp: u32,
    cs: u32,
    cq: u32,
) -> Written
    requires { b ≤ 80000 }
    ensures value { result ≡ after b (bounds_group b n u v p s cp cs cq) }
    ensures room_after { room.new ≡ placed_all room.old b (bounds_group b n u v p s cp cs cq) }
{
    let group = [
        constant_term(n, u),
        equal_term(p, b),
        and_term(cp, b + 1),
        constant_term(n, v),
        equal_term(s, b + 3),
        and_term(cs, b + 4),
        or_term(b + 2, b + 5),
        and_term(cp, cq),
        or_term(b + 6, b + 7),
    ];
    lay(room, b, &group)
}

pub fn shift(room: &mut [u32], b: u32, n: u32, q: u32, cp: u32, cq: u32) -> Written
    requires { b ≤ 80000 }
    ensures value { result ≡ after b (shift_group b n q cp cq) }
    ensures room_after { room.new ≡ placed_all room.old b (shift_group b n q cp cq) }
{
    let group = [
        constant_term(n, n),
        less_term(q, b),
        not_term(b + 1),
        and_term(cq, b + 2),
        and_term(cp, cq),
        or_term(b + 3, b + 4),
    ];
    lay(room, b, &group)
}

pub fn choice(
    room: &mut [u32],
    b: u32,
    p: u32,
    q: u32,
    r: u32,
    cp: u32,
    cq: u32,
    cr: u32,
) -> Written
    requires { b ≤ 80000 }
    ensures value { result ≡ after b (choice_group b p q r cp cq cr) }
    ensures room_after { room.new ≡ placed_all room.old b (choice_group b p q r cp cq cr) }
{
    let group = [
        choice_term(p, cq, cr),
        and_term(cp, b),
        and_term(cq, cr),
        equal_term(q, r),
        and_term(b + 2, b + 3),
        or_term(b + 1, b + 4),
    ];
    lay(room, b, &group)
}

// A store of `e` at `i` over array `a`, of width `n`, read at `j`; `d` is the D beneath it.
pub fn store(
    room: &mut [u32],
    b: u32,
    n: u32,
    a: u32,
    i: u32,
    e: u32,
    j: u32,
    ci: u32,
    ce: u32,
    cj: u32,
    d: u32,
) -> Written
    requires { b ≤ 80000 }
    ensures value { result ≡ after b (store_group b n a i e j ci ce cj d) }
    ensures room_after { room.new ≡ placed_all room.old b (store_group b n a i e j ci ce cj d) }
{
    let group = [
        read_term(n, a, j),
        equal_term(i, j),
        choice_term(b + 1, ce, d),
        and_term(ci, cj),
        and_term(b + 3, b + 2),
        equal_term(e, b),
        and_term(ce, d),
        and_term(b + 6, b + 5),
        or_term(b + 4, b + 7),
    ];
    lay(room, b, &group)
}

// A choice by `c` between arrays `a` and `e`, of width `n`, read at `j`; `dq` and `dr` are the Ds of their reads.
pub fn array_choice(
    room: &mut [u32],
    b: u32,
    n: u32,
    c: u32,
    a: u32,
    e: u32,
    j: u32,
    cc: u32,
    dq: u32,
    dr: u32,
) -> Written
    requires { b ≤ 80000 }
    ensures value { result ≡ after b (array_choice_group b n c a e j cc dq dr) }
    ensures room_after { room.new ≡ placed_all room.old b (array_choice_group b n c a e j cc dq dr) }
{
    let group = [
        read_term(n, a, j),
        read_term(n, e, j),
        choice_term(c, dq, dr),
        and_term(cc, b + 2),
        and_term(dq, dr),
        equal_term(b, b + 1),
        and_term(b + 4, b + 5),
        or_term(b + 3, b + 6),
    ];
    lay(room, b, &group)
}
