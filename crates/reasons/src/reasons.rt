// Why a term is not free: what of that which its value comes from is not, and what would have settled it all the same.
use crate::settling::{settled, settling};
use explain::{Operand, Source};
use page::Page;
use show::{Judged, Names, Operator, OrDash, Value};
use std::fmt;
use std::fmt::{Display, Formatter, Write as _};
use table::{Rank, Term};

// The operands of a term that are not free, each once: "t1 and t2 are not free".
#[derive(Clone, Copy)]
pub struct Unfree<'a> {
    names: Names<'a>,
    p: Option<u32>,
    q: Option<u32>,
    r: Option<u32>,
}

impl<'a> Unfree<'a> {
    // Those of term `k`.
    pub fn of(judged: &Judged<'a>, k: u32) -> Unfree<'a> {
        let p = unfree_operand(judged, k, 0);
        let q = unfree_operand(judged, k, 1);
        let r = unfree_operand(judged, k, 2);
        Unfree {
            names: judged.names,
            p,
            q: if q == p { None } else { q },
            r: if r == p || r == q { None } else { r },
        }
    }
}

impl Display for Unfree<'_> {
    fn fmt<W: fmt::Write>(&self, f: &mut Formatter<W>) -> fmt::Result {
        let names = self.names;
        match (self.p, self.q, self.r) {
            (None, None, None) => Ok(()),
            (Some(a), None, None) | (None, Some(a), None) | (None, None, Some(a)) => {
                write!(f, "{} is not free", names.term(a))
            }
            (Some(a), Some(b), None) | (Some(a), None, Some(b)) | (None, Some(a), Some(b)) => {
                write!(f, "{} and {} are not free", names.term(a), names.term(b))
            }
            (Some(a), Some(b), Some(c)) => {
                let last = names.term(c);
                write!(
                    f,
                    "{}, {} and {last} are not free",
                    names.term(a),
                    names.term(b)
                )
            }
        }
    }
}

// Operand `i` of term `k`, where it is not free.
fn unfree_operand(judged: &Judged, k: u32, i: u32) -> Option<u32> {
    let source = explain::unfree_operand(judged.table, judged.truths, k, i)?;
    Some(source.term())
}

// A judgement as its parts are explained.
pub fn explained<'a>(judged: &Judged<'a>) -> explain::Judged<'a> {
    explain::Judged {
        table: judged.table,
        values: judged.values,
        truths: judged.truths,
    }
}

// All ones of a width, where there is such a number.
fn all_ones(width: u32) -> Option<u32> {
    if 0 < width && width <= 32 {
        Some(ops::ones(width))
    } else {
        None
    }
}

// The value that would have settled a term, and what is said after it: where all ones would too, that they would, as -1;
// where more would, that it is the least.
fn settling_words(op: u32, second: bool, width: u32) -> (Value, &'static str) {
    let f = ops::op_of(op);
    let least = settling(op, second, width);
    let settles = |v: u32| explain::would_settle(f, width, v, second);
    let more = if least == 0 && all_ones(width).is_some_and(settles) {
        " or -1"
    } else if settles(least.wrapping_add(1)) {
        " or more"
    } else {
        ""
    };
    (Value::of_width(width, least), more)
}

// What an operand of term `x` is, p or where second q, and what would have settled the term.
fn put_operand(page: &mut Page, judged: &Judged, x: Term, second: bool) -> fmt::Result {
    let width = table::sort_at(judged.table, x.p).n;
    let k = if second { x.q } else { x.p };
    let (least, more) = settling_words(x.op, second, width);
    let value = Value::of_width(width, judged.value(k));
    write!(page, "    {} is ", judged.names.term(k))?;
    match explained(judged).operand_state(x, second) {
        Operand::Settles => writeln!(page, "{value}."),
        Operand::Free => {
            write!(page, "free, but it is {value}: ")?;
            writeln!(page, "a free {least}{more} would have settled it.")
        }
        Operand::Unfree => {
            write!(page, "{value}, and not free: ")?;
            writeln!(page, "a free {least}{more} would have settled it.")
        }
        Operand::WouldSettle => {
            write!(page, "{value}, but not free: ")?;
            writeln!(page, "only a free {least}{more} settles it.")
        }
    }
}

// Whether the first operand is told of beside the second: one that is both is told once, but where its two sides
// settle by different values, as those of an implication do.
fn apart(x: Term, width: u32) -> bool {
    let twice = settling(x.op, false, width) != settling(x.op, true, width);
    settled(x.op, false, width) && (x.p != x.q || twice)
}

// An operator that an operand's value can settle: its operands.
fn put_operands(page: &mut Page, judged: &Judged, x: Term, width: u32) -> fmt::Result {
    if apart(x, width) {
        put_operand(page, judged, x, false)?;
    }
    if settled(x.op, true, width) {
        put_operand(page, judged, x, true)?;
    }
    Ok(())
}

// A function, term `k`.
fn put_function(page: &mut Page, judged: &Judged, k: u32, x: Term) -> fmt::Result {
    let width = table::sort_at(judged.table, x.p).n;
    writeln!(page, "{}.", Unfree::of(judged, k))?;
    if show::operands(x.op) == 1 {
        return writeln!(page, "    A free operand would have settled it.");
    }
    if settled(x.op, false, width) || settled(x.op, true, width) {
        return put_operands(page, judged, x, width);
    }
    write!(
        page,
        "    No value of one operand settles {}: ",
        Operator(x.op)
    )?;
    writeln!(page, "both must be free.")
}

// A branch of a choice, with its value.
fn put_branch(page: &mut Page, judged: &Judged, k: u32) -> fmt::Result {
    let value = OrDash(judged.shown_value(k));
    let free = if judged.is_free(k) {
        "free"
    } else {
        "not free"
    };
    write!(page, "{} is {value} and {free}", judged.names.term(k))
}

// The test of a choice, and its branches with their values.
fn put_test(page: &mut Page, judged: &Judged, x: Term) -> fmt::Result {
    writeln!(page, "{}, the test, is not free.", judged.names.term(x.p))?;
    write!(
        page,
        "    Branches free and equal would have settled it:\n    "
    )?;
    put_branch(page, judged, x.q)?;
    write!(page, ", ")?;
    put_branch(page, judged, x.r)?;
    writeln!(page, ".")
}

// A choice: its test, and the branch that it picks.
fn put_choice(page: &mut Page, judged: &Judged, x: Term) -> fmt::Result {
    let tested = judged.is_free(x.p);
    if !tested {
        put_test(page, judged, x)?;
    }
    let picked = explain::picked(judged.values, x);
    if judged.is_free(picked) {
        return Ok(());
    }
    let indent = if tested { "" } else { "    " };
    writeln!(
        page,
        "{indent}{}, which the test picks, is not free.",
        judged.names.term(picked)
    )
}

// A source that is not free.
fn put_source(page: &mut Page, judged: &Judged, source: Source) -> fmt::Result {
    let names = judged.names;
    match source {
        Source::Operand(k) => writeln!(page, "{}, the index, is not free.", names.term(k)),
        Source::Index(held) => {
            write!(page, "{}, the index of ", names.term(held.term))?;
            writeln!(page, "store {}, is not free.", names.term(held.store))
        }
        Source::Stored(held) => {
            write!(page, "{}, which store ", names.term(held.term))?;
            writeln!(page, "{} holds there, is not free.", names.term(held.store))
        }
        Source::Test(held) => {
            let picked = explain::picked(judged.values, judged.term(held.store));
            write!(page, "{}, the test of ", names.term(held.term))?;
            write!(page, "choice {}, is not free: ", names.term(held.store))?;
            writeln!(page, "it picks {}.", names.term(picked))
        }
        Source::Array(k) => writeln!(page, "{}, the array beneath, is marked.", names.term(k)),
    }
}

// A read: its sources that are not free, a line each. An array has at most 16 stores and choices, so a read comes from at
// most 18 things: an index or a test of each, what it ends at, and its own index.
fn put_read(page: &mut Page, judged: &Judged, x: Term) -> fmt::Result {
    let mut indent = "";
    for i in 0..18 {
        match explain::source_at(judged.table, judged.values, x, i) {
            Some(source) if !judged.is_free(source.term()) => {
                write!(page, "{indent}")?;
                put_source(page, judged, source)?;
                indent = "    ";
            }
            _ => (),
        }
    }
    Ok(())
}

// The term that is told of: "t3 (bvmul t0 t1): ".
pub fn put_subject(page: &mut Page, judged: &Judged, k: u32) -> fmt::Result {
    write!(page, "t{k} {}: ", judged.names.applied(judged.term(k)))
}

// A term on the way, with its lines.
pub fn put_why(page: &mut Page, judged: &Judged, k: u32) -> fmt::Result {
    let x = judged.term(k);
    put_subject(page, judged, k)?;
    match table::rank_of(x.op) {
        Rank::Input => writeln!(page, "this input is marked."),
        Rank::Choice => put_choice(page, judged, x),
        Rank::Read => put_read(page, judged, x),
        _ => put_function(page, judged, k, x),
    }
}
