// Rules: declarations, asserts, check-sat. A function that is given a room answers how far the rule is read.
ghost use Rattle.std.specs.Prelude.{◌≡◌, ◌+◌, length};
ghost use Rattle.smtlib.specs.Bytes.{part};
ghost use Rattle.parser.specs.Words.{marked};
ghost use Rattle.parser.specs.Expressions.{faulty_at};
ghost use Rattle.parser.specs.declared.states.Fault.TheVariants as fault_kind;
ghost use Rattle.parser.specs.Rules.{is_name, new_name, variable_term, one_more, with_state, declaration_of};
ghost use Rattle.parser.specs.Rules.{and_term, joined_rule, assert_of, ended_rule, check_of, command_by, command_of};
ghost use Rattle.parser.specs.Rules.{halted, commands_of, start};

use crate::expressions::{added, expression, faulty, number};
use crate::names::index_of;
use crate::reader::words_at;
use crate::sorts::{expected, moved, sort};
use crate::states::{Fault, Progress, State};
use crate::words::{Keyword, Token, Word, marked, part};
use table::{Sort, Term, put};

fn is_name(t: Token) -> bool
    ensures { result ≡ is_name t.word }
{
    matches!(t.word, Word::Name(_))
}

// A new name: 31 where the word is none, 32 where it was declared before.
fn new_name(text: &[u8], names: usize, s: State) -> State
    ensures { result ≡ new_name text.now names s }
{
    let t = words_at(text, s.at).first;
    let known = index_of(text, names, t.from, t.next) < names;
    if s.fault.is_some() {
        s
    } else if !is_name(t) {
        faulty(s, Fault::Unexpected, t.from)
    } else if known {
        faulty(s, Fault::Undeclared, t.from)
    } else {
        moved(s, t.next)
    }
}

// The bytes from `from` to `to` are a marked name. Places past the text's end are its end.
fn marked_at(text: &[u8], from: usize, to: usize) -> bool
    ensures { result ≡ marked (part text.now from to) }
{
    marked(part(text, from, to))
}

// The variable of a declaration: its sort, its slot, its mark.
fn variable(sort: Sort, slot: u32, mark: bool) -> Term
    ensures { result ≡ variable_term sort.m sort.n slot mark }
{
    Term {
        op: 1,
        sort,
        p: slot,
        q: u32::from(mark),
        r: 0,
    }
}

fn conjunction(p: u32, q: u32) -> Term
    ensures { result ≡ and_term p q }
{
    Term {
        op: 3,
        sort: Sort { m: 0, n: 0 },
        p,
        q,
        r: 0,
    }
}

// One name more: so many there are not.
fn one_more(names: usize) -> usize
    ensures { result ≡ one_more names }
{
    if names < 4611686018427387904 {
        names + 1
    } else {
        names
    }
}

fn with_state(p: Progress, s: State) -> Progress
    ensures { result ≡ with_state p s }
{
    Progress { state: s, ..p }
}

// A declaration from its name on: the name, the sort, the closing parenthesis; then its term.
fn declaration(text: &[u8], p: Progress, s: State, room: &mut [u32]) -> Progress
    ensures { (result ≡ (declaration_of text.now p s room.old).progress)
        × (room.new ≡ (declaration_of text.now p s room.old).room) }
{
    let t = words_at(text, s.at).first;
    let v = sort(text, new_name(text, p.names, s));
    let e = expected(text, v.state, Word::Close);
    if e.fault.is_some() {
        return with_state(p, e);
    }
    put(
        room,
        e.count,
        variable(v.sort, number(p.names), marked_at(text, t.from, t.next)),
    );
    Progress {
        state: added(e, e.at),
        names: one_more(p.names),
        ..p
    }
}

// The first assert is the rule so far; each other is joined to it.
fn joined(p: Progress, bare: bool, s: State, room: &mut [u32]) -> Progress
    ensures { (result ≡ (joined_rule p bare (record { state = s; room = room.old })).progress)
        × (room.new ≡ (joined_rule p bare (record { state = s; room = room.old })).room) }
{
    if s.fault.is_some() {
        return with_state(p, s);
    }
    if p.asserts == 0 {
        return Progress {
            state: s,
            asserts: 1,
            rule: s.root,
            bare,
            ended: false,
            ..p
        };
    }
    put(room, s.count, conjunction(p.rule, s.root));
    Progress {
        state: added(s, s.at),
        asserts: 2,
        rule: s.count,
        bare: false,
        ended: false,
        ..p
    }
}

// An assert from its expression on: the expression, the closing parenthesis.
fn assertion(text: &[u8], p: Progress, s: State, room: &mut [u32]) -> Progress
    ensures { (result ≡ (assert_of text.now p s room.old).progress)
        × (room.new ≡ (assert_of text.now p s room.old).room) }
{
    let t = words_at(text, s.at).first;
    let bare = is_name(t);
    let v = expression(text, p.names, s, 64, room);
    joined(p, bare, expected(text, v, Word::Close), room)
}

// A sole assert of a bare name is joined with itself.
fn ended(p: Progress, s: State, room: &mut [u32]) -> Progress
    ensures { (result ≡ (ended_rule p s room.old).progress)
        × (room.new ≡ (ended_rule p s room.old).room) }
{
    if s.fault.is_some() {
        return with_state(p, s);
    }
    if (p.asserts == 1) & p.bare {
        put(room, s.count, conjunction(p.rule, p.rule));
        return Progress {
            state: added(s, s.at),
            rule: s.count,
            ended: true,
            ..p
        };
    }
    Progress {
        state: s,
        ended: true,
        ..p
    }
}

// check-sat, the word `t`: 35 where there was no assert; then the closing parenthesis and the end.
fn check(text: &[u8], p: Progress, t: Token, room: &mut [u32]) -> Progress
    ensures { (result ≡ (check_of text.now p t room.old).progress)
        × (room.new ≡ (check_of text.now p t room.old).room) }
{
    let s = if p.asserts == 0 {
        faulty(p.state, Fault::Unasserted, t.from)
    } else {
        moved(p.state, t.next)
    };
    ended(
        p,
        expected(text, expected(text, s, Word::Close), Word::End),
        room,
    )
}

// Another word was expected than `t`.
fn unexpected(p: Progress, t: Token) -> Progress
    ensures { result ≡ with_state p (faulty_at p.state fault_kind.Unexpected t.from) }
{
    with_state(p, faulty(p.state, Fault::Unexpected, t.from))
}

// By the word after the parenthesis: declarations only before the first assert.
fn command_by(text: &[u8], p: Progress, t: Token, room: &mut [u32]) -> Progress
    ensures { (result ≡ (command_by text.now p t room.old).progress)
        × (room.new ≡ (command_by text.now p t room.old).room) }
{
    let Word::Keyword(keyword) = t.word else {
        return unexpected(p, t);
    };
    match keyword {
        Keyword::DeclareConst => {
            if p.asserts == 0 {
                declaration(text, p, moved(p.state, t.next), room)
            } else {
                unexpected(p, t)
            }
        }
        Keyword::Assert => assertion(text, p, moved(p.state, t.next), room),
        Keyword::CheckSat => check(text, p, t, room),
        Keyword::Underscore => unexpected(p, t),
    }
}

fn command(text: &[u8], p: Progress, room: &mut [u32]) -> Progress
    ensures { (result ≡ (command_of text.now p room.old).progress)
        × (room.new ≡ (command_of text.now p room.old).room) }
{
    let w = words_at(text, p.state.at);
    match w.first.word {
        Word::Open => command_by(text, p, w.second, room),
        _ => unexpected(p, w.first),
    }
}

fn halted(p: Progress) -> bool
    ensures { result ≡ halted p }
{
    p.ended | p.state.fault.is_some()
}

fn start() -> Progress
    ensures { result ≡ start }
{
    Progress {
        state: State {
            at: 0,
            count: 0,
            root: 0,
            fault: None,
        },
        names: 0,
        asserts: 0,
        rule: 0,
        bare: false,
        ended: false,
    }
}

// One command after the other: there are no more than there are bytes.
pub fn rule(text: &[u8], room: &mut [u32]) -> Progress
    ensures { (result ≡ (commands_of (length text.now + 1) text.now
        (record { progress = start; room = room.old })).progress)
        × (room.new ≡ (commands_of (length text.now + 1) text.now
        (record { progress = start; room = room.old })).room) }
{
    let mut p = command(text, start(), room);
    for _ in 0..text.len() {
        if halted(p) {
            return p;
        }
        p = command(text, p, room);
    }
    p
}
