// A judgement's terms and repair in JSON, the rest of an object that is open.
ghost use Rattle.std.specs.Iterator.{IsFinite};

use page::Page;
use show::{Judged, Operator, OrNull, SmtSort};
use std::fmt;
use std::fmt::Write as _;
use table::number_at;

// Numbers, with commas between them.
fn put_numbers<I: Iterator<Item = u32>>(page: &mut Page, numbers: I) -> fmt::Result
    requires { I.can_next numbers × IsFinite (I.remaining numbers) }
{
    let mut first = true;
    for n in numbers {
        if !first {
            page.put(b',')?;
        }
        first = false;
        write!(page, "{n}")?;
    }
    Ok(())
}

// The line of the sheet by which a slot is marked or kept; nothing where none names it.
fn put_sheet_line(page: &mut Page, sheet: &[u32], slot: u32) -> fmt::Result {
    let line = sheets::deciding(sheet, slot);
    if line < sheets::count(sheet) {
        return write!(page, "\"sheet_line\":{line},");
    }
    Ok(())
}

// What a variable has: its slot and mark, between them its name where it is named, and the line of the sheet. It is
// marked where it is not free.
fn put_variable(
    page: &mut Page,
    judged: &Judged,
    sheet: &[u32],
    slot: u32,
    free: bool,
) -> fmt::Result {
    write!(page, "\"slot\":{slot},")?;
    if !judged.names.is_empty() {
        write!(page, "\"name\":\"{}\",", judged.names.slot(slot))?;
    }
    write!(page, "\"marked\":{},", !free)?;
    put_sheet_line(page, sheet, slot)
}

// Term `k`: what it is, its value, whether it is free and whether it is on the way.
fn put_term(page: &mut Page, judged: &Judged, sheet: &[u32], k: u32, way: bool) -> fmt::Result {
    let x = judged.term(k);
    let free = judged.is_free(k);
    write!(page, "{{\"term\":{k},\"op\":{},", x.op)?;
    write!(page, "\"operator\":\"{}\",", Operator(x.op))?;
    write!(page, "\"sort\":\"{}\",", SmtSort(x.sort))?;
    write!(page, "\"operands\":[")?;
    put_numbers(page, show::operands_of(x))?;
    write!(page, "],")?;
    if table::is_variable(x) {
        put_variable(page, judged, sheet, x.p, free)?;
    }
    write!(page, "\"value\":{},", OrNull(judged.shown_value(k)))?;
    write!(page, "\"free\":{},", OrNull(show::condition(x, free)))?;
    write!(page, "\"way\":{way}}}")
}

fn put_terms(page: &mut Page, judged: &Judged, sheet: &[u32], way: &[u32; 512]) -> fmt::Result {
    for k in 0..judged.terms {
        if k != 0 {
            page.put(b',')?;
        }
        put_term(page, judged, sheet, k, number_at(way, k) == 1)?;
    }
    Ok(())
}

// Each term and the slots of the repair, given the terms on the way.
pub fn put_json_terms(
    page: &mut Page,
    judged: &Judged,
    sheet: &[u32],
    way: &[u32; 512],
    slots: &[u32; 256],
) -> fmt::Result {
    write!(page, ",\"terms\":[")?;
    put_terms(page, judged, sheet, way)?;
    write!(page, "],\"repair\":[")?;
    let marked = (0..256u32).zip(slots).filter(|(_, slot)| **slot == 1);
    put_numbers(page, marked.map(|(k, _)| k))?;
    writeln!(page, "]}}")
}
