// The bytes of a term as they were typed.
ghost use Rattle.std.specs.Prelude.{◌≡◌, ◌<◌};
ghost use Rattle.outline.specs.Spans.{back, enclosing, span_at, is_term, span_of};

use crate::scan::{Scan, Span, kind_of};
use crate::words::Words;
use parser::Token;

// The parentheses that are closed and not yet opened, going back over a byte.
fn back(b: u8, depth: usize) -> usize
    requires { depth < 18446744073709551615 }
    ensures { result ≡ back b depth }
{
    match b {
        b')' => depth + 1,
        b'(' => depth.saturating_sub(1),
        _ => depth,
    }
}

/// The innermost parenthesis that is open before a place; the text's length where there is none.
pub fn enclosing(text: &[u8], place: usize) -> usize
    ensures { result ≡ enclosing text.now place }
{
    let mut depth = 0;
    // By places, since one may lie past the text's end.
    for k in (0..place).rev() {
        let b = cases::byte_at(text, k);
        if b == b'(' && depth == 0 {
            return k;
        }
        depth = back(b, depth);
    }
    text.len()
}

impl Scan {
    // The bytes of the term that a word adds.
    fn span_at(self, text: &[u8], token: Token) -> Span
        ensures { result ≡ span_at text.now self token }
    {
        let kind = kind_of(token.word);
        let to = token.next;
        if self.lists(kind) {
            Span {
                from: enclosing(text, token.from),
                to,
            }
        } else if self.joins(kind) {
            Span {
                from: self.begun,
                to,
            }
        } else if self.doubles(kind) {
            self.last
        } else {
            Span {
                from: token.from,
                to,
            }
        }
    }

    // A word adds the term of a number.
    fn is_term(self, token: Token, term: u32) -> bool
        ensures { result ≡ is_term self token term }
    {
        self.adds(kind_of(token.word)) && self.terms == term
    }
}

/// The bytes of a term; where there is no such term both places are the text's length.
pub fn span_of(text: &[u8], term: u32) -> Span
    ensures { result ≡ span_of text.now term }
{
    let mut scan = Scan::start();
    for token in Words::new(text) {
        if scan.is_term(token, term) {
            return scan.span_at(text, token);
        }
        scan = scan.step(token);
    }
    Span {
        from: text.len(),
        to: text.len(),
    }
}
