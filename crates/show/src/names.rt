// Terms and slots by their names, and terms by their operators.
use crate::{Value, operands_of};
use page::{Ascii, Short};
use std::fmt;
use std::fmt::{Display, Formatter};
use table::Term;

// The names of a rule's slots and terms, a line each: line `k` is that of slot `k` and of term `k`. A case has none.
#[derive(Clone, Copy)]
pub struct Names<'a>(pub &'a [u8]);

// A name by which a term or a slot is shown, of a long one the front; without one its number after a prefix.
#[derive(Clone, Copy)]
pub struct Name<'a> {
    line: Option<&'a [u8]>,
    prefix: &'static str,
    number: u32,
}

// A term by its operator: "(bvadd t3 t2)", "(_ bv42 8)", "slot 1".
#[derive(Clone, Copy)]
pub struct Applied<'a> {
    names: Names<'a>,
    term: Term,
}

// An operator by its SMT-LIB name; constants and variables by those words.
#[derive(Clone, Copy)]
pub struct Operator(pub u32);

impl<'a> Names<'a> {
    pub fn is_empty(self) -> bool {
        self.0.is_empty()
    }

    // Line `k`.
    pub fn line(self, k: u32) -> Option<&'a [u8]> {
        let line = self.0.split_inclusive(|b| *b == b'\n').nth(k as usize)?;
        Some(line.strip_suffix(b"\n").unwrap_or(line))
    }

    // A term by its name, or as "t5".
    pub fn term(self, k: u32) -> Name<'a> {
        Name {
            line: self.line(k),
            prefix: "t",
            number: k,
        }
    }

    // A slot by its name, or as "slot 5".
    pub fn slot(self, k: u32) -> Name<'a> {
        Name {
            line: self.line(k),
            prefix: "slot ",
            number: k,
        }
    }

    pub fn applied(self, term: Term) -> Applied<'a> {
        Applied { names: self, term }
    }
}

impl Display for Name<'_> {
    fn fmt<W: fmt::Write>(&self, f: &mut Formatter<W>) -> fmt::Result {
        match self.line {
            Some(name) => Short(name).fmt(f),
            None => write!(f, "{}{}", self.prefix, self.number),
        }
    }
}

impl Display for Operator {
    fn fmt<W: fmt::Write>(&self, f: &mut Formatter<W>) -> fmt::Result {
        match self.0 {
            0 => f.write_str("constant"),
            1 => f.write_str("variable"),
            op => {
                let mut name = [0u8; 8];
                let end = smtlib::operator(&mut name, 0, op);
                Ascii(&name[..page::filled(&name, end)]).fmt(f)
            }
        }
    }
}

impl Display for Applied<'_> {
    fn fmt<W: fmt::Write>(&self, f: &mut Formatter<W>) -> fmt::Result {
        let Term { op, sort, p, .. } = self.term;
        match op {
            0 if sort.n == 0 => Value::Truth(p == 1).fmt(f),
            0 => write!(f, "(_ bv{p} {})", sort.n),
            1 => self.names.slot(p).fmt(f),
            _ => {
                write!(f, "({}", Operator(op))?;
                for k in operands_of(self.term) {
                    write!(f, " {}", self.names.term(k))?;
                }
                f.write_char(')')
            }
        }
    }
}
