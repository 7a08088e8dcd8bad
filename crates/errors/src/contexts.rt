// What is expected at a place of a text, what stands there, and where a refusal stands.
ghost use Rattle.std.specs.Prelude.{◌≡◌};
ghost use Rattle.smtlib.specs.Bytes.{part};
ghost use Rattle.errors.specs.Contexts.{kind, checked, expected_by, found_by, reason_at, place_of};

use crate::choices::{expected, found, reason};
use crate::kinds::{Expected, Found, Reason};
use outline::Scan;
use parser::{Token, Word, token_at};

// The bytes from one place to another; places past the text's end are its end.
pub fn between(text: &[u8], from: usize, to: usize) -> &[u8]
    ensures { result.now ≡ part text.now from to }
{
    let end = to.min(text.len());
    &text[from.min(end)..end]
}

// A word by itself.
fn kind(word: Word) -> Found
    ensures { result ≡ kind word }
{
    found(word, 0, false)
}

// Whether the command before is check-sat.
fn checked(text: &[u8], s: Scan) -> bool
    ensures { result ≡ checked text.now s }
{
    let second = token_at(text, token_at(text, s.begun).next);
    (kind(s.previous) == Found::RightParenthesis) & (kind(second.word) == Found::CheckSat)
}

fn expected_by(text: &[u8], s: Scan) -> Expected
    ensures { result ≡ expected_by text.now s }
{
    let opened = kind(s.previous) == Found::LeftParenthesis;
    expected(s.command, s.depth, s.words, opened, checked(text, s))
}

fn found_by(text: &[u8], t: Token) -> Found
    ensures { result ≡ found_by text.now t }
{
    let symbolic = parser::all_symbolic(between(text, t.from, t.next));
    found(t.word, cases::byte_at(text, t.from), symbolic)
}

// The reason for a refusal at a byte of the text.
pub fn reason_at(text: &[u8], number: u32, at: usize) -> Reason
    ensures { result ≡ reason_at text.now number at }
{
    let e = expected_by(text, outline::context_at(text, at));
    let f = found_by(text, token_at(text, at));
    reason(number, e, f)
}

// The byte at which a refusal stands.
pub fn place_of(text: &[u8], number: u32, place: u64) -> usize
    ensures { result ≡ place_of text.now number place }
{
    if 31 <= number {
        return place as usize;
    }
    if number == 2 {
        return token_at(text, 0).from;
    }
    outline::span_of(text, (place % 4294967296) as u32).from
}
