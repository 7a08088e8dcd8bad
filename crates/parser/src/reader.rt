// The text reader: the lent text and the place in it. `words_at`, with plain parameters, serves callers.
ghost use Rattle.std.specs.Prelude.{◌≡◌};
ghost use Rattle.parser.specs.Words.{token_at, words_at};

use crate::words::{Token, Words, token_at};

#[derive(Clone, Copy)]
pub struct Reader<'a> {
    pub text: &'a [u8],
    pub at: usize,
}

impl<'a> Reader<'a> {
    // The word at the reader's place.
    pub fn peek(self) -> Token
        ensures { result ≡ token_at self.entry.text.now self.entry.at }
    {
        token_at(self.text, self.at)
    }

    pub fn advance(self, at: usize) -> Reader<'a>
        ensures text { result.text ≡ self.entry.text }
        ensures at { result.at ≡ at }
    {
        Reader { at, ..self }
    }
}

// The word at a place and the one after it.
pub fn words_at(text: &[u8], at: usize) -> Words
    ensures { result ≡ words_at text.now at }
{
    let reader = Reader { text, at };
    let first = reader.peek();
    let second = reader.advance(first.next).peek();
    Words { first, second }
}
