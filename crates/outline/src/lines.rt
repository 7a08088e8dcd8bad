// Lines and columns of a text, and whether it is a typed rule.
ghost use Rattle.std.specs.Prelude.{◌≡◌};
ghost use Rattle.std.specs.List.{prefix_len};
ghost use Rattle.cases.specs.Places.{line_start};
ghost use Rattle.outline.specs.Lines.{line_of, column_of, unfed, line_end, noted, line_after, is_rule};

use cases::{BYTE_LIMIT, back_to, column_at, line_at, white};

/// The line of a place, from 1.
pub fn line_of(text: &[u8], place: usize) -> u64
    ensures { result ≡ line_of text.now place }
{
    line_at(&text[..BYTE_LIMIT.min(text.len())], place)
}

/// The column of a place, from 1.
pub fn column_of(text: &[u8], place: usize) -> u64
    ensures { result ≡ column_of text.now place }
{
    column_at(text, place.min(BYTE_LIMIT))
}

/// Where the line of a place begins.
pub fn line_start(text: &[u8], place: usize) -> usize
    ensures { result ≡ line_start text.now place }
{
    back_to(true, text, place)
}

// How many bytes stand before the first line feed, or the end.
fn line_length(text: &[u8]) -> usize
    ensures { result ≡ prefix_len unfed text.now }
{
    text.iter().take_while(|b| **b != b'\n').count()
}

/// The line feed that ends the line of a place; the end where there is none.
pub fn line_end(text: &[u8], place: usize) -> usize
    ensures { result ≡ line_end text.now place }
{
    place + line_length(&text[place.min(text.len())..])
}

// Where a byte stands in its line.
#[derive(Clone, Copy)]
enum Stand {
    Begin,
    Inside,
    // in a line that begins with a semicolon
    Note,
}

impl Stand {
    // The byte is in a line that begins with a semicolon.
    fn noted(self, b: u8) -> bool
        ensures { result ≡ noted self b }
    {
        match self {
            Stand::Begin => b == b';',
            Stand::Inside => false,
            Stand::Note => true,
        }
    }

    fn after(self, b: u8) -> Stand
        ensures { result ≡ line_after self b }
    {
        if b == b'\n' {
            Stand::Begin
        } else if self.noted(b) {
            Stand::Note
        } else {
            Stand::Inside
        }
    }
}

/// The first byte that is neither white space nor in a line that begins with a semicolon is a parenthesis.
pub fn is_rule(text: &[u8]) -> bool
    ensures { result ≡ is_rule text.now }
{
    let mut stand = Stand::Begin;
    for &b in text {
        if !white(b) && !stand.noted(b) {
            return b == b'(';
        }
        stand = stand.after(b);
    }
    false
}
