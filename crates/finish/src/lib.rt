// Finishing a table: the condition as terms (paper 01, "The condition of each term", "A finished table is"; 21).
#![tactic(auto)]

mod room; // writing the finished table
mod sizes; // how many terms it has

ghost use Rattle.std.specs.Prelude.{◌≡◌, length};
ghost use Rattle.finish.specs.Finished.{finishing, room_after};
ghost use Rattle.finish.specs.Laws.{FinishingPromise};

use table::{Refusal, WORDS};

// The count of terms, the number of C(rule), the number of the last term.
#[derive(Clone, Copy)]
pub struct Extent {
    pub terms: u32,
    pub condition: u32,
    pub last: u32,
}

// Finishes a table: the front of room holds the n terms; T; F; the groups in ascending term order; and(rule,
// C(rule)). The first two clauses say what is answered and what the room holds. The third is of what was written,
// where nothing is refused: how many terms at most; that evaluate admits it; that it refuses just the settings that
// are refused for the table, and 22 and 23; and that what it leaves in its work room, in a setting that judge does
// not refuse, is judge's rule and condition, and last their conjunction.
pub fn finish(table: &[u32], room: &mut [u32]) -> Result<Extent, Refusal>
    ensures value { result ≡ finishing table.now (length room.old) }
    ensures room_after { room.new ≡ room_after result table.now room.old }
    ensures finishing_promise { FinishingPromise table.now room.new result }
{
    admission::admit(table)?;
    let terms = sizes::needed(table);
    if room.len() < (terms as usize) * WORDS {
        return Err(Refusal {
            number: 21,
            place: terms as u64,
        });
    }
    let condition = room::fill(table, room);
    Ok(Extent {
        terms,
        condition,
        last: terms - 1,
    })
}
