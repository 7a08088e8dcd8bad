// Which reason is told: by what is expected and what stands there.
ghost use Rattle.std.specs.Prelude.{◌≡◌};
ghost use Rattle.errors.specs.Reasons.{in_declaration, in_assert, expected, found_other, found, taken};
ghost use Rattle.errors.specs.Reasons.{for_name, for_operand, for_word, reason};

use crate::kinds::{Expected, Found, Reason};
use outline::Command;
use parser::{Keyword, Word};

// In a declaration.
fn in_declaration(depth: u32, words: u32) -> Expected
    ensures { result ≡ in_declaration depth words }
{
    match (depth, words) {
        (_, 2) => Expected::Symbol,
        (2, 6) | (3, 8 | 13) => Expected::Width,
        (1, 3) => Expected::Sort,
        (1, _) | (2, 7 | 15) | (3, 9 | 14) => Expected::DeclarationEnd,
        _ => Expected::Sort,
    }
}

// In an assert, after a parenthesis or another word.
fn in_assert(depth: u32, words: u32, opened: bool) -> Expected
    ensures { result ≡ in_assert depth words opened }
{
    match (depth, words) {
        (1, 2) => Expected::Expression,
        (1, _) => Expected::AssertEnd,
        _ if opened => Expected::Operator,
        _ => Expected::Operand,
    }
}

// In a command, or after the last.
pub fn expected(command: Command, depth: u32, words: u32, opened: bool, ended: bool) -> Expected
    ensures { result ≡ expected command depth words opened ended }
{
    match command {
        Command::Outside if ended => Expected::Nothing,
        Command::Outside => Expected::Opening,
        Command::Begun => Expected::Command,
        Command::DeclareConst => in_declaration(depth, words),
        Command::Assert => in_assert(depth, words, opened),
        Command::CheckSat => Expected::CheckSatEnd,
    }
}

// A word that is none of the language.
fn found_other(first: u8, symbolic: bool) -> Found
    ensures { result ≡ found_other first symbolic }
{
    match first {
        b';' => Found::Semicolon,
        b'#' | b'0'..=b'9' => Found::Numeric,
        _ if symbolic => Found::Reserved,
        _ => Found::Unknown,
    }
}

// What stands there, by its first byte and whether it has a symbol's bytes alone.
pub fn found(word: Word, first: u8, symbolic: bool) -> Found
    ensures { result ≡ found word first symbolic }
{
    match word {
        Word::Open => Found::LeftParenthesis,
        Word::Close => Found::RightParenthesis,
        Word::Keyword(Keyword::DeclareConst) => Found::DeclareConst,
        Word::Keyword(Keyword::CheckSat) => Found::CheckSat,
        Word::Keyword(Keyword::Assert | Keyword::Underscore) => Found::OtherKeyword,
        Word::Operator(_) => Found::OperatorName,
        Word::Literal(_, _) => Found::Constant,
        Word::Width(_) => Found::Numeric,
        Word::Name(_) => Found::Name,
        Word::Other => found_other(first, symbolic),
        Word::End => Found::TextEnd,
    }
}

// A keyword or a reserved word.
fn taken(f: Found) -> bool
    ensures { result ≡ taken f }
{
    matches!(
        f,
        Found::DeclareConst | Found::OtherKeyword | Found::Reserved | Found::CheckSat
    )
}

fn for_name(f: Found) -> Reason
    ensures { result ≡ for_name f }
{
    match f {
        Found::OperatorName => Reason::OperatorForName,
        Found::Constant => Reason::ConstantForName,
        _ if taken(f) => Reason::ReservedForName,
        _ => Reason::NotExpected(Expected::Symbol),
    }
}

fn for_operand(e: Expected, f: Found) -> Reason
    ensures { result ≡ for_operand e f }
{
    match f {
        Found::Numeric => Reason::BadConstant,
        Found::OperatorName => Reason::OperatorForOperand,
        _ if taken(f) => Reason::ReservedForOperand,
        _ => Reason::NotExpected(e),
    }
}

// 31
fn for_word(e: Expected, f: Found) -> Reason
    ensures { result ≡ for_word e f }
{
    match (e, f) {
        (_, Found::Semicolon) => Reason::Comment,
        (Expected::Nothing, _) => Reason::NotExpected(e),
        (_, Found::TextEnd) => Reason::EndsEarly(e),
        (Expected::Command, Found::DeclareConst) => Reason::LateDeclaration,
        (Expected::Symbol, _) => for_name(f),
        (Expected::Expression | Expected::Operand, _) => for_operand(e, f),
        (Expected::Operator, Found::Name) => Reason::NameForOperator,
        _ => Reason::NotExpected(e),
    }
}

// The reason for a refusal of the text, 31 to 35, or of its table: 2, or 7.
pub fn reason(number: u32, e: Expected, f: Found) -> Reason
    ensures { result ≡ reason number e f }
{
    match number {
        31 => for_word(e, f),
        32 if e == Expected::Symbol => Reason::DeclaredTwice,
        32 => Reason::NotDeclared,
        33 => Reason::TooDeep,
        34 if f == Found::RightParenthesis => Reason::TooFewOperands,
        34 => Reason::TooManyOperands,
        35 => Reason::NoAssert,
        2 => Reason::TooManyTerms,
        _ => Reason::TooManyNames,
    }
}
