// One term of a judgement: its value and its truth.
ghost use Rattle.std.specs.Prelude.{◌≡◌, false, cond, ◌+◌, ◌≤◌, ◌<◌, length};
ghost use Rattle.table.specs.Terms as tables;
ghost use Rattle.table.specs.WellFormed.{WellFormed};
ghost use Rattle.table.specs.Faults.{is_read};
ghost use Rattle.evaluate.specs.Code.Turns.{is_read_at, next_read, onward, Next, Behind};
ghost use Rattle.sheets.specs.Code.Said.{marks_by};
ghost use Rattle.judge.specs.Code.Labelled.{operated_labelled, read_labelled, plain_labelled};
ghost use Rattle.judge.specs.Code.Labelled.{read_here, plain_here, entered_as, entered, plain_noted};
ghost use Rattle.judge.specs.Code.Turns.{note_on, gathered, next_room, next_turn};

use crate::reads::{Labelled, read, truth_at};
use crate::turns::{Turn, asks_more, turn_here};
use table::{Term, number_at};

// Value and truth of an operator. A choice of arrays is not free.
fn operated(table: &[u32], front: &[u32], truths: &[u32], x: Term) -> Labelled
    requires well_formed { WellFormed 80000 table.now }
    requires front_len_bound { (length front.now < tables.terms table.now) × Behind front.now x }
    requires truths_len { length truths.now ≡ length front.now }
    ensures { result ≡ operated_labelled table.now front.now truths.now x }
{
    let n = table::sort_in(table, x.p).n;
    let p = x.p as usize;
    let q = x.q as usize;
    let r = x.r as usize;
    let outcome = ops::outcome_number(
        x.op,
        n,
        front[p],
        front[q],
        front[r],
        truths[p] == 1,
        truths[q] == 1,
        truths[r] == 1,
    );
    Labelled {
        value: outcome.value,
        free: !table::is_choice(x) & outcome.free,
    }
}

// Value and truth of a term that is no read; said is what the sheet says by slot.
fn plain(
    table: &[u32],
    said: &[u32; 256],
    values: &[u32],
    front: &[u32],
    truths: &[u32],
    x: Term,
) -> Labelled
    requires well_formed { WellFormed 80000 table.now }
    requires next { Next table.now front.now x × (is_read x ≡ false) }
    requires truths_len { length truths.now ≡ length front.now }
    ensures { result
        ≡ plain_labelled table.now (marks_by said.now) values.now
        front.now truths.now x }
{
    if table::is_constant(x) {
        return Labelled {
            value: x.p,
            free: true,
        };
    }
    if table::is_variable(x) {
        return Labelled {
            value: evaluate::variable_number(values, x),
            free: !sheets::marked(said, x),
        };
    }
    let r = operated(table, front, truths, x);
    Labelled {
        value: r.value,
        free: r.free,
    }
}

// The same at a place of the room: the numbers stand at its front, the truths from number terms on.
fn plain_here(
    table: &[u32],
    said: &[u32; 256],
    values: &[u32],
    terms: u32,
    room: &[u32],
    at: u32,
) -> Labelled
    requires well_formed { WellFormed 80000 table.now }
    requires terms_value { (terms ≡ tables.terms table.now) × (is_read_at table.now at ≡ false) }
    requires at_lt_terms { (at < terms) × (terms + at ≤ length room.now) }
    ensures { result
        ≡ plain_here table.now (marks_by said.now) values.now terms
        room.now at }
{
    let end = at as usize;
    let start = terms as usize;
    let last = start + end;
    let x = table::term_at(table, at);
    plain(table, said, values, &room[..end], &room[start..last], x)
}

// Value and truth of a read, from the array that it reaches and the cells that it asked for. Where its index is not
// free, it asked for its value.
fn labelled_read(
    table: &[u32],
    front: &[u32],
    truths: &[u32],
    x: Term,
    array: u32,
    cells: &[u32],
) -> Labelled
    requires { WellFormed 80000 table.now }
    ensures { result ≡ read_labelled table.now front.now truths.now x array
        cells.now }
{
    let free = truth_at(truths, x.q);
    if !free {
        return Labelled {
            value: number_at(cells, 0),
            free: false,
        };
    }
    let index = number_at(front, x.q);
    let r = read(table, front, truths, cells, array, index, free, 0);
    Labelled {
        value: r.value,
        free: r.free,
    }
}

// The same at a place of the room.
fn read_here(
    table: &[u32],
    terms: u32,
    room: &[u32],
    at: u32,
    array: u32,
    cells: &[u32],
) -> Labelled
    requires well_formed { WellFormed 80000 table.now }
    requires at_lt_terms { (at < terms) × (terms + at ≤ length room.now) }
    ensures { result
        ≡ read_here table.now terms room.now at array cells.now }
{
    let end = at as usize;
    let start = terms as usize;
    let last = start + end;
    let x = table::term_at(table, at);
    labelled_read(table, &room[..end], &room[start..last], x, array, cells)
}

// Writes value and truth of term `at`.
fn note(work: &mut [u32], terms: u32, at: u32, value: u32, free: bool)
    requires { (at < terms) × (terms + terms ≤ length work.old) }
    ensures { work.new ≡ entered_as value free terms work.old at }
{
    let truth = u32::from(free);
    let first = at as usize;
    let middle = (terms as usize) + first;
    work[first] = value;
    work[middle] = truth;
}

// Writes value and truth of a turn's term where it is a read, and answers which term is next.
fn note_read(table: &[u32], terms: u32, work: &mut [u32], at: u32, array: u32, cells: &[u32]) -> u32
    requires well_formed { WellFormed 80000 table.now }
    requires at_lt_terms { (at < terms) × (terms + terms ≤ length work.old) }
    ensures value { result ≡ cond (is_read_at table.now at) (at + 1) at }
    ensures work_after { work.new ≡ cond (is_read_at table.now at)
        (entered (read_here table.now terms work.old at array cells.now) terms
        work.old at) work.old }
{
    if !table::is_read(table::term_at(table, at)) {
        return at;
    }
    let r = read_here(table, terms, &work[..], at, array, cells);
    note(work, terms, at, r.value, r.free);
    at + 1
}

// Writes value and truth of the terms from at on, up to the next read, and answers which that is.
fn advance(
    table: &[u32],
    said: &[u32; 256],
    values: &[u32],
    terms: u32,
    work: &mut [u32],
    at: u32,
) -> u32
    requires well_formed { WellFormed 80000 table.now }
    requires terms_value { terms ≡ tables.terms table.now }
    requires at_le_terms { (at ≤ terms) × (terms + terms ≤ length work.old) }
    ensures value { result ≡ next_read table.now terms at }
    ensures work_after { work.new
        ≡ onward table.now (plain_noted table.now (marks_by said.now)
        values.now terms) terms work.old at }
{
    let mut i = at;
    while i < terms {
        if table::is_read(table::term_at(table, i)) {
            break;
        }
        let r = plain_here(table, said, values, terms, &work[..], i);
        note(work, terms, i, r.value, r.free);
        i += 1;
    }
    i
}

// Writes value and truth of a turn's term and of those after it, up to the next read, and answers which that is.
fn run(
    table: &[u32],
    said: &[u32; 256],
    values: &[u32],
    terms: u32,
    work: &mut [u32],
    turn: Turn,
    answer: u32,
) -> u32
    requires well_formed { WellFormed 80000 table.now }
    requires terms_value { terms ≡ tables.terms table.now }
    requires at_lt_terms { (turn.at < terms) × (terms + terms ≤ length work.old) }
    requires met_bound { turn.met < 17 }
    ensures value { result ≡ next_read table.now terms (turn.at + 1) }
    ensures work_after { work.new
        ≡ note_on table.now (marks_by said.now) values.now terms turn.array
        (gathered turn answer) work.old turn.at }
{
    let mut cells = turn.cells;
    let k = turn.met as usize;
    cells[k] = answer;
    let next = note_read(table, terms, work, turn.at, turn.array, &cells[..]);
    advance(table, said, values, terms, work, next)
}

// Takes the answer to a turn. Where the read asks for more cells, asks for the next one; else writes value and truth of
// the turn's term and of those after it, up to the next read, and answers what that asks.
pub fn step(
    table: &[u32],
    said: &[u32; 256],
    values: &[u32],
    count: usize,
    terms: u32,
    work: &mut [u32],
    turn: Turn,
    answer: u32,
) -> Turn
    requires well_formed { WellFormed 80000 table.now }
    requires terms_value { terms ≡ tables.terms table.now }
    requires at_lt_terms { (turn.at < terms) × (terms + terms ≤ length work.old) }
    requires met_bound { turn.met < 17 }
    ensures value { result ≡ next_turn table.now values.now count terms turn answer
        work.new }
    ensures work_after { work.new ≡ next_room table.now (marks_by said.now)
        values.now terms turn answer work.old }
{
    if turn.more {
        return asks_more(values, turn, answer);
    }
    let next = run(table, said, values, terms, work, turn, answer);
    turn_here(table, values, count, terms, &work[..], next)
}
