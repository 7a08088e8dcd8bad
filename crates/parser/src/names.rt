// Names that are declared.
ghost use Rattle.std.specs.Prelude.{◌≡◌, ◌+◌, ◌<◌, ◌≤◌, length, drop};
ghost use Rattle.smtlib.specs.Bytes.{part};
ghost use Rattle.parser.specs.Names.{name_from, depth_after, closing, index_of};

use crate::words::{part, past_white, past_word};

// The first byte of the name of the declaration at a place.
fn name_from(text: &[u8], at: usize) -> usize
    requires { at ≤ length text.now }
    ensures { result ≡ name_from text.now at }
{
    let start = past_white(text, at);
    past_white(text, past_word(text, past_white(text, start + 1)))
}

// How many parentheses are open after a byte.
fn depth_after(depth: usize, b: u8) -> usize
    requires { (1 ≤ depth) × (depth < 18446744073709551615) }
    ensures { result ≡ depth_after depth b }
{
    match b {
        b'(' => depth + 1,
        b')' => depth - 1,
        _ => depth,
    }
}

// The place after the parenthesis that closes the one that is open at `at`.
fn closing(text: &[u8], at: usize) -> usize
    ensures { result ≡ at + closing 1 (drop at text.now) }
{
    let rest = &text[at.min(text.len())..];
    let mut depth = 1;
    for (n, b) in rest.iter().enumerate() {
        if (*b == b')') & (depth == 1) {
            return at + n + 1;
        }
        depth = depth_after(depth, *b);
    }
    at + rest.len()
}

// The place of the word from `from` to `to` among the names that are declared, their count where it is none of them.
pub fn index_of(text: &[u8], names: usize, from: usize, to: usize) -> usize
    ensures { result ≡ index_of text.now names (part text.now from to) }
{
    let word = part(text, from, to);
    let mut at = 0;
    for i in 0..names {
        let start = name_from(text, at);
        let end = past_word(text, start);
        if part(text, start, end) == word {
            return i;
        }
        at = closing(text, end).min(text.len());
    }
    names
}
