// One term of a run: what it asks, and its value from the answer.
ghost use Rattle.std.specs.Prelude.{◌≡◌, ◌+◌, ◌≤◌, ◌<◌, length, take};
ghost use Rattle.table.specs.Terms as tables;
ghost use Rattle.table.specs.WellFormed.{WellFormed};
ghost use Rattle.evaluate.specs.Code.Turns.{told, turn_of, Next, Behind, variable_number, operated_number};
ghost use Rattle.evaluate.specs.Code.Turns.{number_of, next_read, onward, numbered};

use crate::reads::find;
use table::{Term, number_at};

// Whether there is a term at, and the cell that it asks for: among count cells, by slot and index, else the other.
#[derive(Clone, Copy)]
pub struct Turn {
    pub pending: bool,
    pub at: u32,
    pub count: usize,
    pub slot: u32,
    pub index: u32,
    pub other: u32,
}

// A turn that asks among no cells: the other is the answer.
fn told(pending: bool, at: u32, other: u32) -> Turn
    ensures { result ≡ told pending at other }
{
    Turn {
        pending,
        at,
        count: 0,
        slot: 0,
        index: 0,
        other,
    }
}

// What term `at` asks: of a read its value, which only a variable's cell is sought for.
pub fn turn_at(
    table: &[u32],
    values: &[u32],
    count: usize,
    terms: u32,
    front: &[u32],
    at: u32,
) -> Turn
    requires { WellFormed 80000 table.now }
    ensures { result ≡ turn_of table.now values.now count terms front.now at }
{
    let x = table::term_at(table, at);
    let pending = at < terms;
    if !table::is_read(x) {
        return told(pending, at, 0);
    }
    let index = number_at(front, x.q);
    let found = find(table, front, x.p, index);
    if found.stored {
        return told(pending, at, found.number);
    }
    Turn {
        pending,
        at,
        count,
        slot: found.number,
        index,
        other: number_at(values, found.number),
    }
}

pub fn variable_number(values: &[u32], x: Term) -> u32
    ensures { result ≡ variable_number values.now x }
{
    if table::scalar(x.sort) {
        number_at(values, x.p)
    } else {
        0
    }
}

fn operated_number(table: &[u32], front: &[u32], x: Term) -> u32
    requires well_formed { WellFormed 80000 table.now }
    requires front_len_bound { (length front.now < tables.terms table.now) × Behind front.now x }
    ensures { result ≡ operated_number table.now front.now x }
{
    let first = table::sort_in(table, x.p);
    let p = x.p as usize;
    let q = x.q as usize;
    let r = x.r as usize;
    ops::apply_number(x.op, first.n, front[p], front[q], front[r])
}

// The value of a term, 0 for an array; that of a read is the answer.
pub fn number(table: &[u32], values: &[u32], front: &[u32], x: Term, answer: u32) -> u32
    requires well_formed { WellFormed 80000 table.now }
    requires next { Next table.now front.now x }
    ensures { result ≡ number_of table.now values.now front.now x answer }
{
    if table::is_read(x) {
        return answer;
    }
    if table::is_constant(x) {
        return x.p;
    }
    if table::is_variable(x) {
        return variable_number(values, x);
    }
    operated_number(table, front, x)
}

// Writes the values of the terms from at on, up to the next read, and answers what that asks.
pub fn advance(
    table: &[u32],
    values: &[u32],
    count: usize,
    terms: u32,
    work: &mut [u32],
    at: u32,
) -> Turn
    requires well_formed { WellFormed 80000 table.now }
    requires terms_value { terms ≡ tables.terms table.now }
    requires at_le_terms { (at ≤ terms) × (terms ≤ length work.old) }
    ensures value { result ≡ turn_of table.now values.now count terms
        (take (next_read table.now terms at) work.new)
        (next_read table.now terms at) }
    ensures work_after { work.new
        ≡ onward table.now (numbered table.now values.now 0) terms
        work.old at }
{
    let mut i = at;
    while i < terms {
        let x = table::term_at(table, i);
        if table::is_read(x) {
            break;
        }
        let k = i as usize;
        let value = number(table, values, &work[..k], x, 0);
        work[k] = value;
        i += 1;
    }
    let end = i as usize;
    turn_at(table, values, count, terms, &work[..end], i)
}

// Writes the value of a turn's read, and goes on.
pub fn step(
    table: &[u32],
    values: &[u32],
    count: usize,
    terms: u32,
    work: &mut [u32],
    turn: Turn,
    answer: u32,
) -> Turn
    requires well_formed { WellFormed 80000 table.now }
    requires terms_value { terms ≡ tables.terms table.now }
    requires at_lt_terms { (turn.at < terms) × (terms ≤ length work.old) }
    ensures value { result ≡ turn_of table.now values.now count terms
        (take (next_read table.now terms (turn.at + 1)) work.new)
        (next_read table.now terms (turn.at + 1)) }
    ensures work_after { work.new
        ≡ onward table.now (numbered table.now values.now 0) terms (numbered
        table.now values.now answer work.old turn.at) (turn.at + 1) }
{
    let i = turn.at;
    let at = i as usize;
    let value = number(table, values, &work[..at], table::term_at(table, i), answer);
    work[at] = value;
    advance(table, values, count, terms, work, i + 1)
}
