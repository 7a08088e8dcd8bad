// The sections of an explanation below the verdict.
use crate::reasons::{Unfree, explained, put_subject, put_why};
use explain::Settled;
use page::Page;
use show::{Judged, OrDash};
use std::fmt;
use std::fmt::Write as _;
use table::number_at;

// What settled a term.
fn put_settler(page: &mut Page, judged: &Judged, settled: Settled) -> fmt::Result {
    let names = judged.names;
    match settled {
        Settled::Alone(k) => {
            let value = OrDash(judged.shown_value(k));
            write!(page, "{} is free and {value}.", names.term(k))
        }
        Settled::Picked { test, branch } => {
            write!(page, "the test {} is free ", names.term(test))?;
            write!(page, "and picks {}, which is free.", names.term(branch))
        }
        Settled::Equal { first, second } => {
            let value = OrDash(judged.shown_value(first));
            write!(page, "{} and {} ", names.term(first), names.term(second))?;
            write!(page, "are free and equal ({value}).")
        }
        Settled::AtIndex(held) => {
            write!(page, "store {} holds ", names.term(held.store))?;
            write!(page, "{} there, which is free.", names.term(held.term))
        }
        Settled::EqualBeneath(held) => {
            write!(page, "{}, which store ", names.term(held.term))?;
            write!(page, "{} holds, is free ", names.term(held.store))?;
            write!(page, "and equal to what is beneath.")
        }
        Settled::EqualBranches(k) => {
            write!(page, "both branches of choice {} ", names.term(k))?;
            write!(page, "are free and equal there.")
        }
        Settled::Unmarked(k) => {
            write!(
                page,
                "the read comes to {}, which is not marked.",
                names.term(k)
            )
        }
    }
}

// Term `k`, its operands that are not free and, after a gap, what settled it.
fn put_settled(
    page: &mut Page,
    judged: &Judged,
    k: u32,
    settled: Settled,
    gap: &str,
) -> fmt::Result {
    put_subject(page, judged, k)?;
    write!(page, "{},{gap}but ", Unfree::of(judged, k))?;
    put_settler(page, judged, settled)?;
    page.put(b'\n')
}

// The same; a line of over 80 columns is broken after its comma.
fn put_broken(page: &mut Page, judged: &Judged, k: u32, settled: Settled) -> fmt::Result {
    let mut draft = Page::draft();
    put_settled(&mut draft, judged, k, settled, " ")?;
    let gap = if 81 < draft.text().len() {
        "\n    "
    } else {
        " "
    };
    put_settled(page, judged, k, settled, gap)
}

// The heading, before the first.
fn put_heading(page: &mut Page, begun: bool) -> fmt::Result {
    if begun {
        return Ok(());
    }
    writeln!(page, "\nFree though an operand is not:")
}

// What settled each term that is free though something beneath it is not.
pub fn put_all_settled(page: &mut Page, judged: &Judged) -> fmt::Result {
    let mut begun = false;
    for k in 0..judged.terms {
        if let Some(settled) = explained(judged).settler(k) {
            put_heading(page, begun)?;
            put_broken(page, judged, k, settled)?;
            begun = true;
        }
    }
    Ok(())
}

// The terms on the way down from the rule.
pub fn put_way(page: &mut Page, judged: &Judged, way: &[u32; 512]) -> fmt::Result {
    for k in (0..judged.terms).rev() {
        if number_at(way, k) == 1 {
            put_why(page, judged, k)?;
        }
    }
    Ok(())
}
