// The command finish: the finished table in the form of a case file.
use finish::Extent;
use page::Page;
use report::Given;
use std::fmt;
use std::fmt::Write as _;
use table::Term;

// How many terms, and which is the condition; the terms, the six numbers of one in a line.
fn put_table(page: &mut Page, room: &[u32], extent: Extent) -> fmt::Result {
    let Extent {
        terms,
        condition,
        last,
    } = extent;
    let rule = table::term_at(room, last);
    write!(page, "; {terms} terms. C(rule) is term {condition}; ")?;
    writeln!(
        page,
        "the last, term {last}, is (and t{} t{}).\ntable",
        rule.p, rule.q
    )?;
    for k in 0..terms {
        let Term { op, sort, p, q, r } = table::term_at(room, k);
        writeln!(page, "{op} {} {} {p} {q} {r}", sort.m, sort.n)?;
    }
    Ok(())
}

// Numbers, three on a line, below a heading.
fn put_rows(page: &mut Page, numbers: &[u32]) -> fmt::Result {
    for (i, n) in numbers.iter().enumerate() {
        let gap = if i % 3 == 0 { "\n" } else { " " };
        write!(page, "{gap}{n}")?;
    }
    writeln!(page, "")
}

// The sheet, a line to a line; nothing where it is empty.
fn put_sheet(page: &mut Page, sheet: &[u32]) -> fmt::Result {
    if sheet.is_empty() {
        return Ok(());
    }
    writeln!(
        page,
        "; Finishing takes no sheet: C(rule) goes by the table's own marks."
    )?;
    write!(page, "sheet")?;
    put_rows(page, sheet)
}

// The values, on one line.
fn put_values(page: &mut Page, values: &[u32]) -> fmt::Result {
    write!(page, "values")?;
    for n in values {
        write!(page, " {n}")?;
    }
    writeln!(page, "")
}

// The finished table of a case, of so many terms, with its condition and its last; and the other parts as they are.
pub fn put_finished(page: &mut Page, room: &[u32], extent: Extent, given: Given) -> fmt::Result {
    put_table(page, room, extent)?;
    put_sheet(page, given.sheet)?;
    put_values(page, given.values)?;
    write!(page, "cells")?;
    put_rows(page, given.cells)?;
    writeln!(page, "allowance {}", given.allowance)
}
