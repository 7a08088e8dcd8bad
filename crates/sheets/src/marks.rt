// What a sheet says of each slot, kept by slot: 2 a line marks it, 1 a line keeps it and none marks it, 0 none names it.
// Numbers and no enum: docs/ARCHITECTURE.md names `marked`, which answers for any row (a number over 2 is as 0), and an
// enum would ask more of its callers.
ghost use Rattle.std.specs.Prelude.{◌≡◌, length};
ghost use Rattle.sheets.specs.Marks.{own_marks, line_count};
ghost use Rattle.sheets.specs.Code.Said.{weight, higher, Over, Said, mark_by, marks_by};

use crate::lines::{KEEP, Line, MARK, count, line_in};
use table::Term;

// Mark is above keep.
fn weight(kind: u32) -> u32
    ensures { result ≡ weight kind }
{
    match kind {
        MARK => 2,
        KEEP => 1,
        _ => 0,
    }
}

fn higher(a: u32, b: u32) -> u32
    ensures { result ≡ higher a b }
{
    a.max(b)
}

// Enters a line at each slot that it names.
fn enter(row: &mut [u32; 256], line: Line)
    requires { length row.old ≡ 256 }
    ensures { Over row.old row.new line }
{
    let said = weight(line.kind);
    let mut slot = line.lowest;
    while (slot <= line.highest) & (slot < 256) {
        let at = slot as usize;
        row[at] = higher(row[at], said);
        slot += 1;
    }
}

// The whole sheet, line by line.
pub fn said(sheet: &[u32]) -> [u32; 256]
    ensures { Said sheet.now (line_count sheet.now) result }
{
    let mut row = [0u32; 256];
    let lines = count(sheet);
    for k in 0..lines {
        enter(&mut row, line_in(sheet, k));
    }
    row
}

fn mark_by(said: u32, own: bool) -> bool
    ensures { result ≡ mark_by said own }
{
    match said {
        2 => true,
        1 => false,
        _ => own,
    }
}

// Whether a variable is marked.
pub fn marked(row: &[u32; 256], x: Term) -> bool
    ensures { result ≡ marks_by row.now x }
{
    let own = x.q == 1;
    if x.p < 256 {
        return mark_by(row[x.p as usize], own);
    }
    own
}
