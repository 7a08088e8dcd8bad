// Where a byte stands: its line and column, and the first byte of a token.
ghost use Rattle.std.specs.Prelude.{◌≡◌, ◌≤◌, length, get_or};
ghost use Rattle.cases.specs.Places.{feed, line_at, stops, back_to, column_at};
ghost use Rattle.cases.specs.Reading.{byte_limit};

use crate::bytes::ends;

// A line feed counts 1, any other byte 0.
pub fn feed(b: u8) -> u64
    ensures { result ≡ feed b }
{
    u64::from(b == b'\n')
}

// The line of the byte `at`, which is 1 and the line feeds before it.
pub fn line_at(text: &[u8], at: usize) -> u64
    requires { length text.now ≤ byte_limit }
    ensures { result ≡ line_at text.now at }
{
    let end = at.min(text.len());
    let before = text[..end].iter().filter(|b| **b == b'\n').count();
    1 + before as u64
}

// A byte of a text, 0 past its end.
pub fn byte_at(text: &[u8], k: usize) -> u8
    ensures { result ≡ get_or text.now k 0 }
{
    text.get(k).copied().unwrap_or(0)
}

// What stops the way back to a line's first byte, or to a token's.
fn stops(lines: bool, b: u8) -> bool
    ensures { result ≡ stops lines b }
{
    if lines { b == b'\n' } else { ends(b) }
}

// Back to the place after the last byte before at that stops, to 0 where none does.
pub fn back_to(lines: bool, text: &[u8], at: usize) -> usize
    ensures { result ≡ back_to lines text.now at }
{
    for k in (0..at).rev() {
        if stops(lines, byte_at(text, k)) {
            return k + 1;
        }
    }
    0
}

// The column of the byte `at`, which is 1 and the bytes of its line before it.
pub fn column_at(text: &[u8], at: usize) -> u64
    requires { at ≤ byte_limit }
    ensures { result ≡ column_at text.now at }
{
    let start = back_to(true, text, at);
    (at - start) as u64 + 1
}
