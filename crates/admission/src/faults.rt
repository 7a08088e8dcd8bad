// Refusals 3 to 9: what is wrong with one term.
ghost use Rattle.std.specs.Prelude.{◌≡◌, ◌≤◌, leb};
ghost use Rattle.table.specs.Terms.{HasTerm, term_at};
ghost use Rattle.table.specs.Faults.{known, size_within, size, fault_if};

use table::{
    Term, is_choice, is_store, rank_fault, rank_of, refuse_unless, sorted, term_at, term_in,
};

// The size of term `k`, counted through at most `left` terms in a row, which fall at each call.
fn size_within(table: &[u32], k: u32, left: u32) -> u32
    requires { left ≤ 17 }
    ensures { result ≡ size_within left table.now k }
{
    if left == 0 {
        return 0;
    }
    let x = term_at(table, k);
    if is_store(x) {
        return size_within(table, x.p, left - 1) + 1;
    }
    if !is_choice(x) {
        return 0;
    }
    let q = size_within(table, x.q, left - 1);
    let r = size_within(table, x.r, left - 1);
    q + r + 1
}

// The size of array term `k`: its stores and choices. Of any other term it is 0. The stores are counted in a loop,
// which ends at a variable; from a choice on `size_within` counts.
pub fn size(table: &[u32], k: u32) -> u32
    ensures { result ≡ size table.now k }
{
    let mut at = k;
    let mut count = 0u32;
    while count < 17 {
        let x = term_at(table, at);
        if !is_store(x) {
            if !is_choice(x) {
                return count;
            }
            break;
        }
        at = x.p;
        count += 1;
    }
    count + size_within(table, at, 17 - count)
}

// 3: an op up to the last.
fn known(x: Term) -> bool
    ensures { result ≡ known x }
{
    x.op <= ops::LAST_OP
}

// 9: a size of at most 16, of term `i`, `x`. Only a store and a choice have any.
fn short(table: &[u32], i: u32, x: Term) -> bool
    requires { x ≡ term_at table.now i }
    ensures { result ≡ leb (size table.now i) 16 }
{
    if !is_store(x) & !is_choice(x) {
        return true;
    }
    size(table, i) <= 16
}

// The lowest number, 3 to 9, that refuses term `i`, and 0 where none does; whether it clashes is known.
pub fn fault(table: &[u32], i: u32, clashing: bool) -> u32
    requires { HasTerm table.now i }
    ensures { result ≡ fault_if table.now i clashing }
{
    let x = term_in(table, i);
    if !known(x) {
        return 3;
    }
    if !sorted(x.sort) {
        return 4;
    }
    let number = rank_fault(table, rank_of(x.op), i, x);
    if number != 0 {
        return number;
    }
    refuse_unless(8, !clashing, refuse_unless(9, short(table, i, x), 0))
}
