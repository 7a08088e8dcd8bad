// The tokens of a setting, and what each of them says.
ghost use Rattle.std.specs.Prelude.{◌≡◌, false, drop};
ghost use Rattle.std.specs.List.{prefix_len};
ghost use Rattle.std.specs.Iterator.{YieldsFirst, item_count};
ghost use Rattle.assignments.specs.Tokens.{skipped, comment_after, skipped_from, bracket, inside, token_at, tokens, tokens_left};
ghost use Rattle.assignments.specs.Tokens.{kind_of, assigns, decimal_from, literal, decimal_number, number_of, value_of};

use cases::{byte_at, digit, next_value, white};
use outline::Span;
use parser::{Word, word_of};
use smtlib::same_bytes;

/// What a token is to a setting.
#[derive(Clone, Copy, Debug, PartialEq, Eq)]
pub enum Kind {
    Equals,
    Open,
    Close,
    Allowance,
    Mark,
    Keep,
    Other,
}

/// A number as it is typed, with its value.
#[derive(Clone, Copy, Debug, PartialEq, Eq)]
pub enum Number {
    Decimal(u32),
    // #b and digits
    Binary(u32),
    // true or false
    Truth(u32),
    // a decimal number of 2^32 or more
    TooLarge,
}

fn skipped(comment: bool, b: u8) -> bool
    ensures { result ≡ skipped comment b }
{
    comment || white(b) || b == b';'
}

fn comment_after(comment: bool, b: u8) -> bool
    ensures { result ≡ comment_after comment b }
{
    b != b'\n' && (comment || b == b';')
}

// How many bytes in front are white space and comments.
fn skipped_length(text: &[u8]) -> usize
    ensures { result ≡ skipped_from false text.now }
{
    let mut comment = false;
    for (i, &b) in text.iter().enumerate() {
        if !skipped(comment, b) {
            return i;
        }
        comment = comment_after(comment, b);
    }
    text.len()
}

fn bracket(b: u8) -> bool
    ensures { result ≡ bracket b }
{
    matches!(b, b'[' | b']')
}

fn inside(b: u8) -> bool
    ensures { result ≡ inside b }
{
    !(white(b) || b == b';' || bracket(b))
}

fn inside_length(text: &[u8]) -> usize
    ensures { result ≡ prefix_len inside text.now }
{
    text.iter().take_while(|b| inside(**b)).count()
}

// The bytes of a text from a place on.
fn rest_of(text: &[u8], at: usize) -> &[u8]
    ensures { result.now ≡ drop at text.now }
{
    &text[at.min(text.len())..]
}

/// The token at a place, after white space and comments.
pub fn token_at(text: &[u8], at: usize) -> Span
    ensures { result ≡ token_at text.now at }
{
    let from = at + skipped_length(rest_of(text, at));
    if bracket(byte_at(text, from)) {
        return Span { from, to: from + 1 };
    }
    Span {
        from,
        to: from + inside_length(rest_of(text, from)),
    }
}

/// The tokens of a text from a place on.
#[derive(Clone, Copy)]
pub struct Tokens<'a> {
    text: &'a [u8],
    at: usize,
}

impl<'a> Tokens<'a> {
    /// All of them.
    pub fn new(text: &'a [u8]) -> Self
        ensures { tokens_left result.text.now result.at ≡ tokens text.now }
    {
        Tokens { text, at: 0 }
    }
}

impl<'a> Iterator for Tokens<'a> {
    type Item = Span;

    ghost next_gives = { YieldsFirst (λ s. tokens_left s.text.now s.at) };

    ghost remaining = { item_count (λ s. tokens_left s.text.now s.at) };

    fn next(&mut self) -> Option<Span> {
        let token = token_at(self.text, self.at);
        if token.from < self.text.len() {
            self.at = token.to;
            Some(token)
        } else {
            None
        }
    }
}

impl Kind {
    pub fn of(word: &[u8]) -> Kind
        ensures { result ≡ kind_of word.now }
    {
        if same_bytes(word, b"=") {
            Kind::Equals
        } else if same_bytes(word, b"[") {
            Kind::Open
        } else if same_bytes(word, b"]") {
            Kind::Close
        } else if same_bytes(word, b"allowance") {
            Kind::Allowance
        } else if same_bytes(word, b"mark") {
            Kind::Mark
        } else if same_bytes(word, b"keep") {
            Kind::Keep
        } else {
            Kind::Other
        }
    }

    /// = or [, which follow a name that is given a value.
    pub fn assigns(self) -> bool
        ensures { result ≡ assigns self }
    {
        matches!(self, Kind::Equals | Kind::Open)
    }
}

/// The number that digits say; none where another byte is among them.
pub fn decimal_of(word: &[u8]) -> Option<u64>
    ensures { result ≡ decimal_from 0 word.now }
{
    let mut value = 0;
    for &b in word {
        if !digit(b) {
            return None;
        }
        value = next_value(value, b);
    }
    Some(value)
}

fn literal(word: Word) -> Option<Number>
    ensures { result ≡ literal word }
{
    match word {
        Word::Literal(0, value) => Some(Number::Truth(value)),
        Word::Literal(_, value) => Some(Number::Binary(value)),
        _ => None,
    }
}

fn decimal_number(value: u64) -> Number
    ensures { result ≡ decimal_number value }
{
    match u32::try_from(value) {
        Ok(value) => Number::Decimal(value),
        Err(_) => Number::TooLarge,
    }
}

/// The number that a word is.
#[tactic(auto, unfolding(crate::specs::Tokens::number_of))]
pub fn number_of(word: &[u8]) -> Option<Number>
    ensures { result ≡ number_of word.now }
{
    match decimal_of(word) {
        Some(value) => Some(decimal_number(value)),
        None => literal(word_of(word)),
    }
}

impl Number {
    /// Its value; 0 where it is too large.
    pub fn value(self) -> u32
        ensures { result ≡ value_of self }
    {
        match self {
            Number::Decimal(value) => value,
            Number::Binary(value) => value,
            Number::Truth(value) => value,
            Number::TooLarge => 0,
        }
    }
}
