// The marks under a sheet: of each variable the line by which it is marked or kept.
use page::Page;
use show::Judged;
use std::fmt;
use std::fmt::Write as _;
use table::Term;

// By which line a slot is marked or kept. It is marked where it is not free.
fn put_line(page: &mut Page, sheet: &[u32], slot: u32, free: bool) -> fmt::Result {
    let k = sheets::deciding(sheet, slot);
    if sheets::count(sheet) <= k {
        let marks = if free { "does not mark" } else { "marks" };
        return writeln!(page, "no line names it; the table {marks} it");
    }
    let line = sheets::line_at(sheet, k);
    let (done, kind) = if free {
        ("kept", "keep")
    } else {
        ("marked", "mark")
    };
    write!(page, "{done} by line {k} ({kind} {}", line.lowest)?;
    if line.lowest != line.highest {
        write!(page, " to {}", line.highest)?;
    }
    writeln!(page, ")")
}

// A row for term `k`, a variable.
fn put_mark(page: &mut Page, judged: &Judged, sheet: &[u32], k: u32, x: Term) -> fmt::Result {
    show::put_number(page, k)?;
    page.put_column(26, &judged.names.applied(x))?;
    put_line(page, sheet, x.p, judged.is_free(k))
}

// The section, below an empty line; nothing where the sheet is empty.
pub fn put_marks(page: &mut Page, judged: &Judged, sheet: &[u32]) -> fmt::Result {
    if sheet.is_empty() {
        return Ok(());
    }
    writeln!(page, "\nMarks under the sheet:")?;
    for k in 0..judged.terms {
        let x = judged.term(k);
        if x.op == 1 {
            put_mark(page, judged, sheet, k, x)?;
        }
    }
    Ok(())
}
