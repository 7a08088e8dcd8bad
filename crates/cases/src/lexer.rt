// The tokens of a text, byte by byte.
ghost use Rattle.std.specs.Prelude.{◌≡◌};
ghost use Rattle.cases.specs.Lexing.{next_value, next_word, inside, lexed, in_comment, heading, number_of};
ghost use Rattle.cases.specs.Lexing.{classified, token_at, token_at_end};

use crate::bytes::{digit, ends, letter, white};
use crate::part::Part;

// Between two bytes: outside comments and tokens, in a comment, or in a token. Of a token so far of digits alone its
// number (or one of 2^32 or more, where it is that large), of any other its letters as a number.
#[derive(Clone, Copy, Debug, PartialEq, Eq)]
pub enum Lexer {
    Blank,
    Comment,
    Digits(u64),
    Word(u64),
}

#[derive(Clone, Copy, Debug, PartialEq, Eq)]
pub enum Token {
    Number(u32),
    Heading(Part),
    Unknown,
    TooLarge,
}

// The letters of the headings, a 1 to z 26, as digits in base 32: the lexer sees a byte at a time and keeps no bytes,
// and next_word of specs/Lexing.antt says which words are told apart.
const TABLE: u64 = (((20 * 32 + 1) * 32 + 2) * 32 + 12) * 32 + 5; // t a b l e

const VALUES: u64 = ((((22 * 32 + 1) * 32 + 12) * 32 + 21) * 32 + 5) * 32 + 19; // v a l u e s

const CELLS: u64 = (((3 * 32 + 5) * 32 + 12) * 32 + 12) * 32 + 19; // c e l l s

const ALLOW: u64 = (((1 * 32 + 12) * 32 + 12) * 32 + 15) * 32 + 23; // a l l o w

const ALLOWANCE: u64 = (((ALLOW * 32 + 1) * 32 + 14) * 32 + 3) * 32 + 5; // and a n c e

const SHEET: u64 = (((19 * 32 + 8) * 32 + 5) * 32 + 5) * 32 + 20; // s h e e t

// Every word that has another byte than lower-case letters, or over twelve of them.
const OTHER: u64 = 1152921504606846976;

// The number with one digit more. At 2^32 or more it stays.
pub fn next_value(value: u64, b: u8) -> u64
    ensures { result ≡ next_value value b }
{
    if digit(b) && value < 4294967296 {
        value * 10 + u64::from(b - b'0')
    } else {
        value
    }
}

// The word with one letter more.
fn next_word(word: u64, b: u8) -> u64
    ensures { result ≡ next_word word b }
{
    if letter(b) && word < 36028797018963968 {
        word * 32 + u64::from(b - 96)
    } else {
        OTHER
    }
}

// A token with one byte more, or its first.
fn inside(l: Lexer, b: u8) -> Lexer
    ensures { result ≡ inside l b }
{
    match l {
        Lexer::Word(word) => Lexer::Word(next_word(word, b)),
        Lexer::Digits(value) if digit(b) => Lexer::Digits(next_value(value, b)),
        Lexer::Digits(_) => Lexer::Word(OTHER),
        _ if digit(b) => Lexer::Digits(next_value(0, b)),
        _ => Lexer::Word(next_word(0, b)),
    }
}

fn in_comment(l: Lexer) -> bool
    ensures { result ≡ in_comment l }
{
    matches!(l, Lexer::Comment)
}

// After one byte more.
pub fn lexed(l: Lexer, b: u8) -> Lexer
    ensures { result ≡ lexed l b }
{
    if b == b'\n' {
        return Lexer::Blank;
    }
    if in_comment(l) || b == b';' {
        return Lexer::Comment;
    }
    if white(b) {
        return Lexer::Blank;
    }
    inside(l, b)
}

// A word as a token.
fn heading(word: u64) -> Token
    ensures { result ≡ heading word }
{
    match word {
        TABLE => Token::Heading(Part::Table),
        VALUES => Token::Heading(Part::Values),
        CELLS => Token::Heading(Part::Cells),
        ALLOWANCE => Token::Heading(Part::Allowance),
        SHEET => Token::Heading(Part::Sheet),
        _ => Token::Unknown,
    }
}

fn number(value: u64) -> Token
    ensures { result ≡ number_of value }
{
    if value < 4294967296 {
        Token::Number(value as u32)
    } else {
        Token::TooLarge
    }
}

// The token whose bytes were read, if one was begun.
fn classified(l: Lexer) -> Option<Token>
    ensures { result ≡ classified l }
{
    match l {
        Lexer::Digits(value) => Some(number(value)),
        Lexer::Word(word) => Some(heading(word)),
        Lexer::Blank | Lexer::Comment => None,
    }
}

// The token that a byte ends.
pub fn token_at(l: Lexer, b: u8) -> Option<Token>
    ensures { result ≡ token_at l b }
{
    if ends(b) { classified(l) } else { None }
}

// The token that the end of a whole text ends.
pub fn token_at_end(l: Lexer, whole: bool) -> Option<Token>
    ensures { result ≡ token_at_end l whole }
{
    if whole { classified(l) } else { None }
}
