// A table's terms in rows, one a line.
use crate::marks::put_marks;
use crate::verdicts::{put_spent, put_told};
use evaluate::Spent;
use judge::Verdict;
use page::Page;
use show::{Judged, Names};
use std::fmt;
use std::fmt::Write as _;
use table::{number_at, term_at};

// Each term with its mark, value and condition.
fn put_judged_rows(page: &mut Page, judged: &Judged) -> fmt::Result {
    for k in 0..judged.terms {
        let x = judged.term(k);
        show::put_judged_row(page, judged.names, k, x, judged.value(k), judged.is_free(k))?;
    }
    Ok(())
}

// The terms that are no variables as they were typed in the text of a rule, below an empty line; nothing where there is no
// text.
pub fn put_typed(page: &mut Page, rule: &[u8], table: &[u32]) -> fmt::Result {
    if rule.is_empty() {
        return Ok(());
    }
    writeln!(page, "\nAs typed, with line and column:")?;
    for k in 0..show::terms_within(table, 512) {
        if term_at(table, k).op != 1 {
            errors::put_typed(page, rule, k)?;
        }
    }
    Ok(())
}

// An evaluation, whose room has the values at its front: each term with its value.
pub fn put_evaluation(
    page: &mut Page,
    names: Names,
    table: &[u32],
    room: &[u32],
    spent: Spent,
) -> fmt::Result {
    show::put_head(page, false)?;
    for k in 0..show::terms_within(table, 80000) {
        show::put_row(page, names, k, term_at(table, k), number_at(room, k))?;
    }
    put_spent(page, spent.steps, spent.left)
}

// A judgement: its rows, the terms as they were typed in the text of a rule, the marks under the sheet, and the verdict
// below them.
pub fn put_judgement(
    page: &mut Page,
    judged: &Judged,
    rule: &[u8],
    sheet: &[u32],
    v: Verdict,
) -> fmt::Result {
    show::put_head(page, true)?;
    put_judged_rows(page, judged)?;
    put_typed(page, rule, judged.table)?;
    put_marks(page, judged, sheet)?;
    put_told(page, v, judged.terms.wrapping_sub(1))
}
