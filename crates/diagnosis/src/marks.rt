// The reasons for 16, of a sheet.
ghost use Rattle.std.specs.Prelude.{◌≡◌};
ghost use Rattle.diagnosis.specs.Telling.{tell};
ghost use Rattle.diagnosis.specs.Reasons.{mark_lines, sheet_lines};

use crate::reason::Reason;
use sheets::Line;

// Of a line that is whole.
fn line_told(line: Line) -> Option<Reason>
    ensures { result ≡ tell (mark_lines line.kind line.lowest line.highest) }
{
    if 1 < line.kind {
        Some(Reason::UnknownKind { kind: line.kind })
    } else if line.highest < line.lowest {
        Some(Reason::ReversedSlots {
            lowest: line.lowest,
            highest: line.highest,
        })
    } else if 255 < line.highest {
        Some(Reason::LineSlotTooLarge { slot: line.highest })
    } else {
        None
    }
}

// Of line `k`, which may be the last and cut.
pub fn sheet_told(sheet: &[u32], k: u32) -> Option<Reason>
    ensures { result ≡ tell (sheet_lines sheet.now k) }
{
    let k = k as usize;
    if k < sheets::count(sheet) {
        line_told(sheets::line_at(sheet, k))
    } else {
        Some(Reason::CutLine {
            numbers: sheet.len() % 3,
        })
    }
}
