// On which lines the words and numbers of a part stand.
ghost use Rattle.std.specs.Prelude.{◌≡◌, None, false, cond, ◌-◌, ◌≤◌, length, slice_get};
ghost use Rattle.cases.specs.Lines.{part_after, belongs, lines_within, odd, counted, closed, odd_after, few};
ghost use Rattle.cases.specs.Reading.{byte_limit};

use crate::lexer::{Lexer, Token, lexed, token_at, token_at_end};
use crate::part::{Part, number_or_none};
use crate::places::feed;

// A line of the table, and the count of its numbers.
#[derive(Clone, Copy, Debug, PartialEq, Eq)]
pub struct OddLine {
    pub line: u64,
    pub count: u32,
}

// The part that is being read after a token.
fn part_after(now: Option<Part>, token: Option<Token>) -> Option<Part>
    ensures { result ≡ part_after now token }
{
    match token {
        Some(Token::Heading(part)) => Some(part),
        _ => now,
    }
}

// Whether a token is a part's heading, or a number of it.
fn belongs(heading: bool, part: u32, now: Option<Part>, token: Option<Token>) -> bool
    ensures { result ≡ belongs heading part now token }
{
    match token {
        Some(Token::Number(_)) => !heading && number_or_none(now) == part,
        Some(Token::Heading(begun)) => heading && begun.number() == part,
        _ => false,
    }
}

// The line of heading or number `k` of a part.
pub fn line_within(text: &[u8], whole: bool, heading: bool, part: u32, k: usize) -> Option<u64>
    requires { length text.now ≤ byte_limit }
    ensures { result ≡ slice_get (lines_within heading part text.now whole) k }
{
    let mut l = Lexer::Blank;
    let mut now = None;
    let mut line = 1u64;
    let mut left = k;
    for b in text {
        let token = token_at(l, *b);
        let hit = belongs(heading, part, now, token);
        if hit & (left == 0) {
            return Some(line);
        }
        left = left.saturating_sub(usize::from(hit));
        now = part_after(now, token);
        line += feed(*b);
        l = lexed(l, *b);
    }
    let last = belongs(heading, part, now, token_at_end(l, whole));
    if last & (left == 0) { Some(line) } else { None }
}

// Whether a line is another than the one that was counted, whose count is no multiple of six.
fn odd(counted: Option<OddLine>, line: u64) -> bool
    ensures { result ≡ odd counted line }
{
    match counted {
        Some(last) => line != last.line && last.count % 6 != 0,
        None => false,
    }
}

// The count with one more, where there is a hit.
fn counted(before: Option<OddLine>, hit: bool, line: u64) -> Option<OddLine>
    requires { few before byte_limit }
    ensures { result ≡ cond hit (counted before line) before }
{
    match before {
        _ if !hit => before,
        Some(last) if line == last.line => Some(OddLine {
            line,
            count: last.count + 1,
        }),
        _ => Some(OddLine { line, count: 1 }),
    }
}

// The count at the end, where it is no multiple of six.
fn closed(counted: Option<OddLine>) -> Option<OddLine>
    ensures { result ≡ closed counted }
{
    counted.filter(|last| last.count % 6 != 0)
}

// The first line of the table whose count of numbers is no multiple of six.
pub fn odd_within(text: &[u8], whole: bool) -> Option<OddLine>
    requires { length text.now ≤ byte_limit }
    ensures { result ≡ odd_after None (lines_within false 1 text.now whole) }
{
    let mut l = Lexer::Blank;
    let mut now = None;
    let mut line = 1u64;
    let mut s = None;
    for b in text {
        let token = token_at(l, *b);
        let hit = belongs(false, 1, now, token);
        if hit & odd(s, line) {
            return s;
        }
        s = counted(s, hit, line);
        now = part_after(now, token);
        line += feed(*b);
        l = lexed(l, *b);
    }
    let last = belongs(false, 1, now, token_at_end(l, whole));
    if last & odd(s, line) {
        return s;
    }
    closed(counted(s, last, line))
}
