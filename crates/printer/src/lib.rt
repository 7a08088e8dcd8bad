// A table as SMT-LIB text for a solver (Req 01).
#![tactic(auto)]

mod lines; // names, bodies and lines
mod slots; // the first use of each slot
mod text; // the whole text

ghost use Rattle.std.specs.Prelude.{◌≡◌, length};
ghost use Rattle.table.specs.WellFormed.{WellFormed};
ghost use Rattle.printer.specs.Printed.{text};
ghost use Rattle.printer.specs.Printing.{fitting, printing, room_after};
ghost use Rattle.printer.specs.Meaning.{PrintingPromise};

use table::Refusal;

// 24 where the room is short of the bytes needed; else their count.
fn fitted(needed: usize, room: usize) -> Result<u64, Refusal>
    ensures { result ≡ fitting needed room }
{
    if room < needed {
        return Err(Refusal {
            number: 24,
            place: needed as u64,
        });
    }
    Ok(needed as u64)
}

// Counts the text's bytes by writing it into a room of one byte; then writes it where the room has them all.
fn fit(table: &[u32], room: &mut [u8]) -> Result<u64, Refusal>
    requires { WellFormed 80000 table.now }
    ensures value { result ≡ fitting (length (text table.now)) (length room.old) }
    ensures room_after { room.new ≡ room_after result table.now room.old }
{
    let mut none = [0u8; 1];
    let needed = text::write(table, &mut none);
    if needed <= room.len() {
        text::write(table, room);
    }
    fitted(needed, room.len())
}

// Prints a table: the front of `room` holds its text. Answers the count of bytes, or refuses by 1 to 10, of a table of
// up to 80,000 terms, and then by 24.
pub fn print(table: &[u32], room: &mut [u8]) -> Result<u64, Refusal>
    ensures value { result ≡ printing table.now (length room.old) }
    ensures room_after { room.new ≡ room_after result table.now room.old }
    ensures printing_promise { PrintingPromise table.now room.new result }
{
    admission::admit_within(table, 80000)?;
    fit(table, room)
}
