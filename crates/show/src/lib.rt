// Terms, sorts and values as they are shown: SMT-LIB's names, and a row's columns.
#![tactic(auto)]

mod judged; // judgements
mod labels; // terms with their values
mod names; // terms and slots by their names
mod arity; // the operands of terms
mod rows; // terms in rows
mod values; // sorts and values

ghost use Rattle.std.specs.Prelude.{◌≡◌, min, length};
ghost use Rattle.io.specs.Counts.{IsPrefixLen};
ghost use Rattle.table.specs.Terms.{terms};

pub use arity::{operands, operands_of};
pub use judged::Judged;
pub use labels::Label;
pub use names::{Applied, Name, Names, Operator};
pub use rows::{put_head, put_judged_row, put_number, put_row};
use table::WORDS;
pub use values::{OrDash, OrNull, SmtSort, SortWords, Value, condition, is_bare};

// How many terms a table has, at most so many.
pub fn terms_within(table: &[u32], most: u32) -> u32
    ensures { result ≡ min (terms table.now) most }
{
    let terms = table.len() / WORDS;
    terms.min(most as usize) as u32
}

// So many numbers at a room's front, or all of it.
pub fn front(n: u32, room: &[u32]) -> usize
    ensures value { result ≡ min n (length room.now) }
    ensures prefix_len { IsPrefixLen result room.now }
{
    room.len().min(n as usize)
}
