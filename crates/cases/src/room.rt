// Writing the numbers of a text.
ghost use Rattle.std.specs.Prelude.{◌≡◌, ◌++◌, ◌≤◌, length, drop};
ghost use Rattle.cases.specs.Lexing.{lex};
ghost use Rattle.cases.specs.declared.lexer.Lexer.TheVariants.{Blank};
ghost use Rattle.cases.specs.Numbers.{numbers_in, put, next};

use crate::lexer::{Lexer, Token, lexed, token_at, token_at_end};

// Writes a number at place `n`, where the room has it, and answers the next place.
fn put(numbers: &mut [u32], n: usize, token: Option<Token>) -> usize
    ensures value { result ≡ next (length numbers.old) n token }
    ensures numbers_after { numbers.new ≡ put numbers.old n token }
{
    match token {
        Some(Token::Number(value)) if n < numbers.len() => {
            numbers[n] = value;
            n + 1
        }
        _ => n,
    }
}

// The front of numbers holds the text's numbers.
pub fn write(text: &[u8], whole: bool, numbers: &mut [u32])
    requires { length (numbers_in (lex whole Blank text.now)) ≤ length numbers.old }
    ensures { numbers.new
        ≡ numbers_in (lex whole Blank text.now) ++ drop
        (length (numbers_in (lex whole Blank text.now))) numbers.old }
{
    let mut l = Lexer::Blank;
    let mut n = 0usize;
    for b in text {
        n = put(numbers, n, token_at(l, *b));
        l = lexed(l, *b);
    }
    put(numbers, n, token_at_end(l, whole));
}
