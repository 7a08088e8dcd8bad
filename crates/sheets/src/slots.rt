// The line by which a slot is marked or kept.
ghost use Rattle.std.specs.Prelude.{◌≡◌};
ghost use Rattle.sheets.specs.Marks.{line_count};
ghost use Rattle.sheets.specs.Deciding.{first_of, deciding};

use crate::lines::{KEEP, MARK, count, line_in, speaks};

// The first line of a kind that names the slot; the count of lines where there is none.
fn first_of(sheet: &[u32], kind: u32, slot: u32) -> usize
    ensures { result ≡ first_of sheet.now kind slot }
{
    let lines = count(sheet);
    for k in 0..lines {
        if speaks(kind, slot, line_in(sheet, k)) {
            return k;
        }
    }
    lines
}

// Of the mark lines that name the slot the first, else of the keep lines; the count of lines where none names it.
pub fn deciding(sheet: &[u32], slot: u32) -> usize
    ensures { result ≡ deciding sheet.now slot }
{
    let marking = first_of(sheet, MARK, slot);
    if marking < count(sheet) {
        return marking;
    }
    first_of(sheet, KEEP, slot)
}
