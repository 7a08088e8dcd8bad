// Expressions and their operands: two functions that call each other. All else that they do is in leaves.
ghost use Rattle.std.specs.Prelude.{◌≡◌};
ghost use Rattle.table.specs.Ranks.{operand_count};
ghost use Rattle.table.specs.Code.Writing.{placed};
ghost use Rattle.parser.specs.Expressions.{faulty_at, more_of, number, added, named, operator_in, too_few, head_in};
ghost use Rattle.parser.specs.Expressions.{head_of, begin_list, joined_to, sort_by, term_of, constant_term, too_deep};
ghost use Rattle.parser.specs.Expressions.{too_many, closed_in, closed_state, operands_of, operands_by, expression_of};

use crate::names::index_of;
use crate::reader::words_at;
use crate::states::{Fault, Head, Listed, State};
use crate::words::{Token, Word, Words};
use table::{Fields, Rank, Sort, Term};

pub fn faulty(s: State, fault: Fault, place: usize) -> State
    ensures { result ≡ faulty_at s fault place }
{
    State {
        at: place,
        fault: Some(fault),
        ..s
    }
}

// One term more: 513 stays.
pub fn more(count: u32) -> u32
    ensures { result ≡ more_of count }
{
    if count < 513 { count + 1 } else { count }
}

// No term has a number over 513.
pub fn number(i: usize) -> u32
    ensures { result ≡ number i }
{
    if i < 513 { i as u32 } else { 513 }
}

// A term of its own was added.
pub fn added(s: State, at: usize) -> State
    ensures { result ≡ added s at }
{
    State {
        at,
        count: more(s.count),
        root: s.count,
        fault: None,
    }
}

// A name is the term of its declaration.
fn named(text: &[u8], names: usize, s: State, t: Token) -> State
    ensures { result ≡ named text.now names s t }
{
    let i = index_of(text, names, t.from, t.next);
    if i < names {
        return State {
            at: t.next,
            root: number(i),
            fault: None,
            ..s
        };
    }
    faulty(s, Fault::Undeclared, t.from)
}

// The operator of a list, by the word that stands there.
fn operator_in(s: State, t: Token) -> Head
    ensures { result ≡ operator_in s t t.word }
{
    match t.word {
        Word::Operator(op) => Head::Call(op, t.next),
        _ => Head::Done(faulty(s, Fault::Unexpected, t.from)),
    }
}

// The fault of a closing parenthesis in an operand's place: inside a list there are too few operands.
fn too_few(levels: u32) -> Fault
    ensures { result ≡ too_few levels }
{
    if levels < 64 {
        Fault::Miscounted
    } else {
        Fault::Unexpected
    }
}

// How an expression begins, by its first word and, after a parenthesis, its second.
fn head_in(text: &[u8], names: usize, s: State, levels: u32, w: Words) -> Head
    ensures { result ≡ head_in text.now names s levels w.first w.second w.first.word }
{
    let t = w.first;
    match t.word {
        Word::Open => {
            if levels == 0 {
                return Head::Done(faulty(s, Fault::TooDeep, t.from));
            }
            operator_in(s, w.second)
        }
        Word::Close => Head::Done(faulty(s, too_few(levels), t.from)),
        Word::Literal(n, v) => Head::Constant(n, v, t.next),
        Word::Name(_) => Head::Done(named(text, names, s, t)),
        _ => Head::Done(faulty(s, Fault::Unexpected, t.from)),
    }
}

// How the expression at the state's place begins, with so many levels of parentheses left.
fn head_at(text: &[u8], names: usize, s: State, levels: u32) -> Head
    ensures { result ≡ head_of text.now names s levels }
{
    if s.fault.is_some() {
        return Head::Done(s);
    }
    head_in(text, names, s, levels, words_at(text, s.at))
}

fn begin_list(s: State, at: usize) -> Listed
    ensures { result ≡ begin_list s at }
{
    Listed {
        state: State { at, ..s },
        n: 0,
        p: 0,
        q: 0,
        r: 0,
    }
}

fn joined(l: Listed, s: State) -> Listed
    ensures { result ≡ joined_to l s }
{
    if l.n == 0 {
        return Listed {
            state: s,
            n: 1,
            p: s.root,
            q: 0,
            r: 0,
        };
    }
    if l.n == 1 {
        return Listed {
            state: s,
            n: 2,
            p: l.p,
            q: s.root,
            r: 0,
        };
    }
    Listed {
        state: s,
        n: 3,
        p: l.p,
        q: l.q,
        r: s.root,
    }
}

fn operand_count(fields: Fields) -> u32
    ensures { result ≡ operand_count fields }
{
    match fields {
        Fields::Value | Fields::Slot => 0,
        Fields::One => 1,
        Fields::Two => 2,
        Fields::Three => 3,
    }
}

// How many operands an operator has.
pub fn operands_of(op: u32) -> u32
    ensures { result ≡ operands_of op }
{
    operand_count(table::fields_of(op))
}

// The sort of a list: Boolean, the second operand's, that of an array's elements, or the first operand's.
fn sort_by(rank: Rank, a: Sort, b: Sort) -> Sort
    ensures { result ≡ sort_by rank a b }
{
    match rank {
        Rank::Choice => b,
        Rank::Read => Sort { m: 0, n: a.n },
        Rank::BvUnary | Rank::BvBinary | Rank::Write | Rank::Other => a,
        Rank::Literal
        | Rank::Input
        | Rank::BoolUnary
        | Rank::BoolBinary
        | Rank::Equality
        | Rank::BvCompare => Sort { m: 0, n: 0 },
    }
}

fn term_of(room: &[u32], op: u32, l: Listed) -> Term
    ensures { result ≡ term_of room.now op l }
{
    Term {
        op,
        sort: sort_by(
            table::rank_of(op),
            table::sort_at(room, l.p),
            table::sort_at(room, l.q),
        ),
        p: l.p,
        q: l.q,
        r: l.r,
    }
}

// Writes the term of a list after those of its operands.
fn write_list(room: &mut [u32], op: u32, l: Listed)
    ensures { room.new
        ≡ placed room.old l.state.count (term_of room.old op l) }
{
    let x = term_of(room, op, l);
    table::put(room, l.state.count, x);
}

// Writes the term of a constant of a width and a value.
fn write_constant(room: &mut [u32], s: State, n: u32, v: u32)
    ensures { room.new ≡ placed room.old s.count (constant_term n v) }
{
    let x = Term {
        op: 0,
        sort: Sort { m: 0, n },
        p: v,
        q: 0,
        r: 0,
    };
    table::put(room, s.count, x);
}

// The fault of a parenthesis that begins an operand too many.
fn too_deep(levels: u32) -> Fault
    ensures { result ≡ too_deep levels }
{
    if levels == 0 {
        Fault::TooDeep
    } else {
        Fault::Miscounted
    }
}

// The fault of a name that is an operand too many.
fn too_many(text: &[u8], names: usize, t: Token) -> Fault
    ensures { result ≡ too_many text.now names t }
{
    let i = index_of(text, names, t.from, t.next);
    if i < names {
        Fault::Miscounted
    } else {
        Fault::Undeclared
    }
}

// The state after a list's operands, by the word that follows them.
fn closed_in(text: &[u8], names: usize, s: State, levels: u32, w: Words) -> State
    ensures { result ≡ closed_in text.now names s levels w.first w.first.word }
{
    let t = w.first;
    match t.word {
        Word::Open => faulty(s, too_deep(levels), t.from),
        Word::Close => added(s, t.next),
        Word::Literal(_, _) => faulty(s, Fault::Miscounted, t.from),
        Word::Name(_) => faulty(s, too_many(text, names, t), t.from),
        _ => faulty(s, Fault::Unexpected, t.from),
    }
}

fn closed(text: &[u8], names: usize, levels: u32, l: Listed) -> State
    ensures { result ≡ closed_state text.now names levels l }
{
    let s = l.state;
    if s.fault.is_some() {
        return s;
    }
    closed_in(text, names, s, levels, words_at(text, s.at))
}

// The expression at the state's place, with so many levels of parentheses left.
#[cycle(expression_operands)]
pub fn expression(text: &[u8], names: usize, s: State, levels: u32, room: &mut [u32]) -> State
    ensures { (result ≡ (expression_of levels text.now names s room.old).state)
        × (room.new ≡ (expression_of levels text.now names s room.old).room) }
{
    match head_at(text, names, s, levels) {
        Head::Done(v) => v,
        Head::Constant(n, v, next) => {
            write_constant(room, s, n, v);
            added(s, next)
        }
        Head::Call(op, next) => {
            let l = operands(
                text,
                names,
                begin_list(s, next),
                levels - 1,
                operands_of(op),
                room,
            );
            write_list(room, op, l);
            closed(text, names, levels - 1, l)
        }
    }
}

// The operands of a list that are left. A fault ends the list.
#[cycle(expression_operands)]
pub fn operands(
    text: &[u8],
    names: usize,
    l: Listed,
    levels: u32,
    left: u32,
    room: &mut [u32],
) -> Listed
    ensures { (result ≡ (operands_by (expression_of levels text.now names) left l room.old).listed)
        × (room.new
        ≡ (operands_by (expression_of levels text.now names) left l room.old).room) }
{
    if left == 0 {
        return l;
    }
    let s = l.state;
    let e = expression(text, names, s, levels, room);
    if e.fault.is_some() {
        return joined(l, e);
    }
    operands(text, names, joined(l, e), levels, left - 1, room)
}
