// What would mend a condition: the marked inputs on the way by their slots, or by their names where there are names, in
// a sentence whose lines are at most 78 columns long, but for long names, and are broken after a comma.
use page::Page;
use show::Names;
use std::fmt;
use std::fmt::{Display, Formatter, Write as _};

const COLUMNS: usize = 78;

// A slot in the list, by its name or its number.
#[derive(Clone, Copy)]
struct Slot<'a> {
    names: Names<'a>,
    number: u32,
}

// What follows a slot: others, the last alone, or nothing.
#[derive(Clone, Copy)]
enum Rest<'a> {
    Others,
    Last(Slot<'a>),
    Nothing,
}

// A piece of the list, which stands on one line.
#[derive(Clone, Copy)]
struct Piece<'a> {
    slot: Slot<'a>,
    rest: Rest<'a>,
}

impl Display for Slot<'_> {
    fn fmt<W: fmt::Write>(&self, f: &mut Formatter<W>) -> fmt::Result {
        if self.names.is_empty() {
            self.number.fmt(f)
        } else {
            self.names.slot(self.number).fmt(f)
        }
    }
}

impl Display for Piece<'_> {
    fn fmt<W: fmt::Write>(&self, f: &mut Formatter<W>) -> fmt::Result {
        let slot = self.slot;
        match self.rest {
            Rest::Others => write!(f, "{slot},"),
            Rest::Last(last) => write!(f, "{slot} and {last} could be vouched for,"),
            Rest::Nothing => write!(f, "{slot} could be vouched for,"),
        }
    }
}

impl Piece<'_> {
    // The words before the first piece.
    fn opening(self) -> &'static str {
        match self.rest {
            _ if !self.slot.names.is_empty() => "If ",
            Rest::Nothing => "If slot ",
            _ => "If slots ",
        }
    }
}

// The first piece; the column after it.
fn put_first(page: &mut Page, piece: Piece) -> Result<usize, fmt::Error> {
    let opening = piece.opening();
    write!(page, "\n{opening}{piece}")?;
    Ok(opening.len().saturating_add(page::width_of(&piece)))
}

// What is told after a column, on a line of its own where it is too long; the column after it.
fn put_next<T: Display>(page: &mut Page, column: usize, told: &T) -> Result<usize, fmt::Error> {
    let width = page::width_of(told);
    let next = column.saturating_add(1).saturating_add(width);
    if COLUMNS < next {
        write!(page, "\n{told}")?;
        return Ok(width);
    }
    write!(page, " {told}")?;
    Ok(next)
}

// The list of the slots; the column after it.
fn put_slots(page: &mut Page, names: Names, slots: &[u32; 256]) -> Result<usize, fmt::Error> {
    let mut left = slots.iter().filter(|slot| **slot == 1).count();
    let last = slots.iter().rposition(|slot| *slot == 1).unwrap_or(0);
    let mut column = None;
    for (k, slot) in slots.iter().enumerate() {
        if *slot != 1 {
            continue;
        }
        left = left.saturating_sub(1);
        let rest = match left {
            0 => Rest::Nothing,
            1 => Rest::Last(Slot {
                names,
                number: last as u32,
            }),
            _ => Rest::Others,
        };
        let piece = Piece {
            slot: Slot {
                names,
                number: k as u32,
            },
            rest,
        };
        column = Some(match column {
            None => put_first(page, piece)?,
            Some(_) if left == 0 => break,
            Some(column) => put_next(page, column, &piece)?,
        });
    }
    Ok(column.unwrap_or(0))
}

// What would mend a condition, and whether the setting would pass.
pub fn put_repair(page: &mut Page, names: Names, slots: &[u32; 256], rule: bool) -> fmt::Result {
    let column = put_slots(page, names, slots)?;
    if rule {
        put_next(page, column, &"the condition would be true")?;
        writeln!(page, "\nand the setting would pass.")
    } else {
        put_next(page, column, &"the condition would be true.")?;
        writeln!(page)
    }
}
