// What a term of a judgement asks, one cell at a turn.
ghost use Rattle.std.specs.Prelude.{◌≡◌, ◌+◌, ◌≤◌, ◌<◌, length};
ghost use Rattle.table.specs.WellFormed.{WellFormed};
ghost use Rattle.judge.specs.Code.Turns as turns;
ghost use Rattle.judge.specs.Code.Turns.{asks_for, asks_first, asks_more, turn_here, first_turn};

use crate::leaves::leaves;
use crate::reads::{picked, reach, truth_at};
use table::number_at;

// Whether there is a term at, and the cell that it asks for: among count cells, by slot and index, else the other. Of a
// read at a free index: the array that it reaches, how many variables that has, how many of their cells are had, and
// whether it will ask for more after this one. Of the variables' numbers in cells those had are their cells, the others
// their slots.
#[derive(Clone, Copy)]
pub struct Turn {
    pub pending: bool,
    pub at: u32,
    pub count: usize,
    pub slot: u32,
    pub index: u32,
    pub other: u32,
    pub met: u32,
    pub more: bool,
    pub array: u32,
    pub leaves: u32,
    pub cells: [u32; 17],
}

// A term that asks once, as in evaluating.
fn alone(t: evaluate::Turn) -> Turn
    ensures { result ≡ turns.alone t }
{
    Turn {
        pending: t.pending,
        at: t.at,
        count: t.count,
        slot: t.slot,
        index: t.index,
        other: t.other,
        met: 0,
        more: false,
        array: 0,
        leaves: 0,
        cells: [0u32; 17],
    }
}

// A read that a store answers: it asks for nothing.
fn held(pending: bool, at: u32, array: u32) -> Turn
    ensures { result ≡ turns.held pending at array }
{
    Turn {
        pending,
        at,
        count: 0,
        slot: 0,
        index: 0,
        other: 0,
        met: 0,
        more: false,
        array,
        leaves: 0,
        cells: [0u32; 17],
    }
}

// A read that asks for the cell of its array's variable of number `met`.
fn asks_for(
    values: &[u32],
    pending: bool,
    at: u32,
    count: usize,
    index: u32,
    met: u32,
    array: u32,
    leaves: u32,
    cells: [u32; 17],
) -> Turn
    requires { met ≤ 17 }
    ensures { result ≡ asks_for values.now pending at count index met array leaves cells }
{
    let slot = number_at(&cells[..], met);
    Turn {
        pending,
        at,
        count,
        slot,
        index,
        other: number_at(values, slot),
        met,
        more: met + 1 < leaves,
        array,
        leaves,
        cells,
    }
}

// The next cell that a read asks for, after an answer.
pub fn asks_more(values: &[u32], turn: Turn, answer: u32) -> Turn
    requires { turn.met < 17 }
    ensures { result ≡ asks_more values.now turn answer }
{
    let mut cells = turn.cells;
    let k = turn.met as usize;
    cells[k] = answer;
    asks_for(
        values,
        turn.pending,
        turn.at,
        turn.count,
        turn.index,
        turn.met + 1,
        turn.array,
        turn.leaves,
        cells,
    )
}

// A read whose index is free asks for the cells of the variables of the array that it reaches, unless a store answers;
// any other term asks as in evaluating.
fn turn_at(
    table: &[u32],
    values: &[u32],
    count: usize,
    terms: u32,
    front: &[u32],
    truths: &[u32],
    at: u32,
) -> Turn
    requires { WellFormed 80000 table.now }
    ensures { result ≡ asks_first table.now values.now count terms front.now
        truths.now at }
{
    let x = table::term_at(table, at);
    if !(table::is_read(x) & truth_at(truths, x.q)) {
        return alone(evaluate::turn_at(table, values, count, terms, front, at));
    }
    let pending = at < terms;
    let index = number_at(front, x.q);
    let array = reach(table, front, truths, x.p, index);
    let y = table::term_at(table, array);
    if table::is_store(y) & picked(front, truths, y, index, true) {
        return held(pending, at, array);
    }
    let mut slots = [0u32; 17];
    let met = leaves(table, array, &mut slots[..]);
    asks_for(values, pending, at, count, index, 0, array, met, slots)
}

// The same at a place of the room: the numbers stand at its front, the truths from number terms on.
pub fn turn_here(
    table: &[u32],
    values: &[u32],
    count: usize,
    terms: u32,
    room: &[u32],
    at: u32,
) -> Turn
    requires well_formed { WellFormed 80000 table.now }
    requires at_le_terms { (at ≤ terms) × (terms + at ≤ length room.now) }
    ensures { result ≡ turn_here table.now values.now count terms room.now at }
{
    let end = at as usize;
    let start = terms as usize;
    let last = start + end;
    turn_at(
        table,
        values,
        count,
        terms,
        &room[..end],
        &room[start..last],
        at,
    )
}

// The first of all, before which the room has nothing and no index is free.
pub fn first_turn(table: &[u32], values: &[u32], count: usize, terms: u32) -> Turn
    requires { WellFormed 80000 table.now }
    ensures { result ≡ first_turn table.now values.now count terms }
{
    alone(evaluate::turn_at(table, values, count, terms, &table[..0], 0))
}
