// A refusal: its line in the file, and its reason in words.
use crate::Given;
use crate::why::put_why;
use cases::OddLine;
use diagnosis::Spot;
use page::Page;
use show::Names;
use std::fmt;
use std::fmt::Write as _;
use table::Refusal;

// The line of a case's text at a spot.
fn spot_line(text: &[u8], spot: Spot) -> Option<u64> {
    match spot {
        Spot::Heading(section) => cases::heading_line(text, section as u32),
        Spot::Number(section, k) => cases::number_line(text, section as u32, k),
    }
}

// The line of a case's text that a refusal is about; 0 where there is none.
pub fn refusal_line(text: &[u8], table: &[u32], r: Refusal) -> u64 {
    match diagnosis::spot(table, r.number, r.place) {
        Some(spot) => spot_line(text, spot).unwrap_or(0),
        None => 0,
    }
}

// What a refusal's place is.
fn kind(number: u32) -> &'static str {
    match number {
        14 | 15 => "cell",
        16 => "sheet line",
        0..3 | 11 | 17.. => "place",
        _ => "term",
    }
}

fn put_odd(page: &mut Page, path: &[u8], odd: OddLine) -> fmt::Result {
    let s = if odd.count == 1 { "" } else { "s" };
    page.put_all(path)?;
    write!(page, ":{}: note: this line of the table has ", odd.line)?;
    writeln!(page, "{} number{s}, no multiple of six", odd.count)
}

// The note on a table's line whose numbers are no multiple of six, after a refusal of the table.
pub fn put_note(page: &mut Page, path: &[u8], text: &[u8], r: Refusal) -> fmt::Result {
    match cases::odd_line(text) {
        Some(odd) if r.number <= 10 => put_odd(page, path, odd),
        _ => Ok(()),
    }
}

// A refusal, of a line: "FILE:LINE: refused N at WHERE: " and the reason.
pub fn put_refusal(
    page: &mut Page,
    names: Names,
    path: &[u8],
    line: u64,
    given: Given,
    r: Refusal,
) -> fmt::Result {
    page.put_all(path)?;
    write!(
        page,
        ":{line}: refused {} at {} {}: ",
        r.number,
        kind(r.number),
        r.place
    )?;
    put_why(page, names, given.reason(r))?;
    writeln!(page, "")
}
