// The words of a text in order.
ghost use Rattle.std.specs.Prelude.{◌≡◌};
ghost use Rattle.std.specs.Iterator.{YieldsFirst, item_count};
ghost use Rattle.outline.specs.Scanning.{words_left, all_words};

use parser::{Token, token_at};

/// The words of a text from a place on.
#[derive(Clone, Copy)]
pub struct Words<'a> {
    text: &'a [u8],
    at: usize,
}

impl<'a> Words<'a> {
    /// All of them.
    pub fn new(text: &'a [u8]) -> Self
        ensures { words_left result.text.now result.at ≡ all_words text.now }
    {
        Words { text, at: 0 }
    }
}

impl<'a> Iterator for Words<'a> {
    type Item = Token;

    ghost next_gives = { YieldsFirst (λ s. words_left s.text.now s.at) };

    ghost remaining = { item_count (λ s. words_left s.text.now s.at) };

    fn next(&mut self) -> Option<Token> {
        let token = token_at(self.text, self.at);
        if token.from < self.text.len() {
            self.at = token.next;
            Some(token)
        } else {
            None
        }
    }
}
