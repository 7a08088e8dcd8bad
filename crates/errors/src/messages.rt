// The reasons in words.
use crate::contexts::{between, reason_at};
use crate::excerpts::Shown;
use crate::kinds::{Expected, Reason};
use page::Page;
use parser::{Token, Word, token_at};
use show::Operator;
use std::fmt;
use std::fmt::{Display, Formatter, Write as _};

// The whole sentence.
impl Display for Expected {
    fn fmt<W: fmt::Write>(&self, f: &mut Formatter<W>) -> fmt::Result {
        f.write_str(match self {
            Expected::Opening => "\"(\" is expected: a command begins with it",
            Expected::Command => "declare-const, assert or check-sat is expected",
            Expected::Symbol => "a name is expected: letters and digits, and no digit first",
            Expected::Sort => {
                "a sort is expected: Bool, (_ BitVec n) or (Array (_ BitVec m) (_ BitVec n))"
            }
            Expected::Width => "a width is 1 to 32, without leading zeros",
            Expected::DeclarationEnd => {
                "\")\" is expected: a declaration has one name and one sort"
            }
            Expected::Expression => {
                "an expression is expected: a name, a constant or (operator operand ...)"
            }
            Expected::AssertEnd => "\")\" is expected: assert takes one expression",
            Expected::Operator => "an operator is expected after \"(\"",
            Expected::Operand => {
                "an operand is expected: a name, a constant or (operator operand ...)"
            }
            Expected::CheckSatEnd => "\")\" is expected: check-sat stands alone",
            Expected::Nothing => "nothing may follow (check-sat)",
        })
    }
}

impl Expected {
    // What is expected where the text ends.
    fn words(self) -> &'static str {
        match self {
            Expected::Opening => "(check-sat)",
            Expected::Command => "declare-const, assert or check-sat",
            Expected::Symbol => "a name",
            Expected::Sort => "a sort",
            Expected::Width => "a width",
            Expected::DeclarationEnd | Expected::AssertEnd | Expected::CheckSatEnd => "\")\"",
            Expected::Expression => "an expression",
            Expected::Operator => "an operator",
            Expected::Operand => "an operand or \")\"",
            Expected::Nothing => "nothing",
        }
    }
}

// The operator of the list that is open before a place.
fn operator_before(text: &[u8], at: usize) -> Option<u32> {
    let open = token_at(text, outline::enclosing(text, at));
    match token_at(text, open.next).word {
        Word::Operator(op) => Some(op),
        _ => None,
    }
}

// Parentheses that are open, and operands that began outside of them.
#[derive(Clone, Copy)]
struct Listed {
    open: u64,
    operands: u64,
}

impl Listed {
    // After one word more.
    fn after(self, word: Word) -> Listed {
        let outside = u64::from(self.open == 0);
        match word {
            Word::Open => Listed {
                open: self.open.saturating_add(1),
                operands: self.operands.saturating_add(outside),
            },
            Word::Close => Listed {
                open: self.open.saturating_sub(1),
                operands: self.operands,
            },
            _ => Listed {
                open: self.open,
                operands: self.operands.saturating_add(outside),
            },
        }
    }
}

// How many operands a list has between its operator and a place. No index is counted: the turns only bound the walk from
// word to word.
fn given(text: &[u8], at: usize) -> u64 {
    let open = token_at(text, outline::enclosing(text, at));
    let mut next = token_at(text, open.next).next;
    let mut l = Listed {
        open: 0,
        operands: 0,
    };
    for _ in 0..text.len() {
        let t = token_at(text, next);
        if at <= t.from {
            break;
        }
        l = l.after(t.word);
        next = t.next;
    }
    l.operands
}

// "bvadd takes 2 operands", of the list that is open before a place.
fn put_taken(page: &mut Page, text: &[u8], at: usize) -> fmt::Result {
    let op = operator_before(text, at).unwrap_or(0);
    let count = parser::operands_of(op);
    let operands = if count == 1 { "operand" } else { "operands" };
    write!(page, "{} takes {count} {operands}", Operator(op))
}

// 34, where the list ends.
fn put_few(page: &mut Page, text: &[u8], at: usize) -> fmt::Result {
    let there = given(text, at);
    let are = if there == 1 { "is" } else { "are" };
    put_taken(page, text, at)?;
    write!(page, ", and {there} {are} given")
}

// 34, where it goes on.
fn put_many(page: &mut Page, text: &[u8], at: usize) -> fmt::Result {
    put_taken(page, text, at)?;
    write!(page, ", and this is one more")
}

// The line of the declaration that has the name of a word; the names before it are `names`.
fn declared_line(text: &[u8], t: Token) -> u64 {
    let names = outline::context_at(text, t.from).terms;
    let k = parser::index_of(text, names as usize, t.from, t.next);
    outline::line_of(text, outline::span_of(text, (k % 4294967296) as u32).from)
}

// A reason that speaks of the word at its place.
fn put_of_word(page: &mut Page, text: &[u8], reason: Reason, t: Token) -> fmt::Result {
    let word = Shown(between(text, t.from, t.next));
    match reason {
        Reason::ReservedForName => write!(page, "{word} is reserved: choose another name"),
        Reason::OperatorForName => {
            write!(
                page,
                "{word} is an operator, and an operator's name cannot be declared"
            )
        }
        Reason::ConstantForName => write!(page, "{word} is a constant, and a name is expected"),
        Reason::OperatorForOperand => {
            write!(
                page,
                "{word} is an operator, and an operator stands after \"(\""
            )
        }
        Reason::ReservedForOperand => {
            write!(
                page,
                "{word} is reserved: a name, a constant or \"(\" is expected"
            )
        }
        Reason::NameForOperator => {
            write!(
                page,
                "{word} is no operator, and an operator is expected after \"(\""
            )
        }
        Reason::NotDeclared => write!(page, "{word} is not declared"),
        Reason::DeclaredTwice => {
            write!(
                page,
                "{word} is declared before, in line {}",
                declared_line(text, t)
            )
        }
        _ => write!(page, "more than 256 names: {word} is one more"),
    }
}

// The reason for a refusal of the text, 31 to 35, or by 2 or 7, at a byte of it.
pub fn put_reason(page: &mut Page, text: &[u8], number: u32, place: usize) -> fmt::Result {
    let t = token_at(text, place);
    let reason = reason_at(text, number, place);
    match reason {
        Reason::NotExpected(e) => write!(page, "{e}"),
        Reason::Comment => write!(page, "there are no comments in a rule"),
        Reason::EndsEarly(e) => {
            write!(page, "the text ends here, and {} is expected", e.words())
        }
        Reason::LateDeclaration => write!(page, "declarations come before the first assert"),
        Reason::BadConstant => {
            write!(
                page,
                "a constant is true, false or #b and 1 to 32 binary digits"
            )
        }
        Reason::TooDeep => write!(page, "more than 64 parentheses are open"),
        Reason::TooFewOperands => put_few(page, text, t.from),
        Reason::TooManyOperands => put_many(page, text, t.from),
        Reason::NoAssert => write!(page, "there is no assert before check-sat"),
        Reason::TooManyTerms => write!(page, "the rule has more than 512 terms"),
        _ => put_of_word(page, text, reason, t),
    }
}

// The word after the parenthesis at a byte of the text: an operator, or assert.
pub fn put_head(page: &mut Page, text: &[u8], place: usize) -> fmt::Result {
    let t = token_at(text, token_at(text, place).next);
    write!(page, "{}: ", Shown(between(text, t.from, t.next)))
}
