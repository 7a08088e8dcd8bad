// 16: a line of another kind, its ends reversed, a slot over 255, or cut short.
ghost use Rattle.std.specs.Prelude.{◌≡◌};
ghost use Rattle.sheets.specs.Check.{line_fault, sheet_check};

use crate::lines::{Line, MARK, count, line_in};
use table::{Refusal, refuse_unless};

// 16 where a line is at fault, else 0.
fn line_fault(line: Line) -> u32
    ensures { result ≡ line_fault line }
{
    let ordered = line.lowest <= line.highest;
    let sound = (line.kind <= MARK) & ordered & (line.highest <= 255);
    refuse_unless(16, sound, 0)
}

// The lowest line at fault; a last line that is cut comes after the whole ones.
pub fn check(sheet: &[u32]) -> Result<(), Refusal>
    ensures { result ≡ sheet_check sheet.now }
{
    let lines = count(sheet);
    for k in 0..lines {
        let number = line_fault(line_in(sheet, k));
        if number != 0 {
            return table::refused(number, k as u64);
        }
    }
    if sheet.len() % 3 != 0 {
        return table::refused(16, lines as u64);
    }
    Ok(())
}
