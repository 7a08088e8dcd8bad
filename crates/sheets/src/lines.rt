// The lines of a sheet: mark 1 or keep 0, lowest slot, highest slot.
ghost use Rattle.std.specs.Prelude.{◌≡◌, cond, ◌+◌, ◌*◌, ◌≤◌, ltb, length};
ghost use Rattle.sheets.specs.Marks.{line_at, line_count, speaks};
ghost use Rattle.sheets.specs.Deciding.{no_line};

pub const KEEP: u32 = 0;

pub const MARK: u32 = 1;

#[derive(Clone, Copy)]
pub struct Line {
    pub kind: u32,
    pub lowest: u32,
    pub highest: u32,
}

// How many whole lines a sheet has.
pub fn count(sheet: &[u32]) -> usize
    ensures { result ≡ line_count sheet.now }
{
    sheet.len() / 3
}

// Line `k` of a sheet.
pub fn line_in(sheet: &[u32], k: usize) -> Line
    requires { k * 3 + 3 ≤ length sheet.now }
    ensures { result ≡ line_at sheet.now k }
{
    let at = k * 3;
    Line {
        kind: sheet[at],
        lowest: sheet[at + 1],
        highest: sheet[at + 2],
    }
}

// The same for any number: zeros where the sheet has no such whole line.
pub fn line_at(sheet: &[u32], k: usize) -> Line
    ensures { result ≡ cond (ltb k (line_count sheet.now)) (line_at sheet.now k) no_line }
{
    if k < count(sheet) {
        return line_in(sheet, k);
    }
    Line {
        kind: 0,
        lowest: 0,
        highest: 0,
    }
}

// Whether a line is of a kind and names the slot.
pub fn speaks(kind: u32, slot: u32, line: Line) -> bool
    ensures { result ≡ speaks kind slot line }
{
    (line.kind == kind) & ((line.lowest <= slot) & (slot <= line.highest))
}
