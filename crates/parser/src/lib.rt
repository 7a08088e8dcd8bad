// Rules typed as SMT-LIB (Req 02).
#![tactic(auto)]

mod expressions; // expressions and their operands
mod names; // names that are declared
mod reader; // the text with a place in it
mod rules; // declarations, asserts, check-sat
mod sorts; // words that are asked for, sorts
mod states; // how far a text is read
mod words; // the words of a text

ghost use Rattle.std.specs.Prelude.{◌≡◌, Ok, cond, ◌*◌, ◌≤◌, eqb, ltb, length, take};
ghost use Rattle.table.specs.Terms.{words};
ghost use Rattle.parser.specs.Expressions.{fault_in};
ghost use Rattle.parser.specs.Parsing.{not_parsed, tabled, parsing, room_after, given_by};

use crate::states::State;
pub use expressions::operands_of;
pub use names::index_of;
pub use rules::rule;
use table::{Refusal, WORDS};
pub use words::{Keyword, SortName, Token, Word, all_symbolic, token_at, white, word_of};

fn not_parsed(number: u32, place: u64) -> Result<u64, Refusal>
    ensures { result ≡ not_parsed number place }
{
    Err(Refusal { number, place })
}

// 21 where the room is short of six numbers a term; else the count of numbers.
fn sized(count: u32, room: usize) -> Result<u64, Refusal>
    ensures { result ≡ cond (ltb room (count * words)) (not_parsed 21 count) (Ok (count * words)) }
{
    let end = (count as usize) * WORDS;
    if room < end {
        return not_parsed(21, count as u64);
    }
    Ok(end as u64)
}

// What a text that is read into a table answers: 31 to 35, then 2, then the table's refusals, then 21.
fn answer(s: State, table: &[u32], room: usize) -> Result<u64, Refusal>
    requires { 3072 ≤ length table.now }
    ensures { result
        ≡ cond (eqb (fault_in s) 0) (tabled (take (s.count * words) table.now) s.count room)
        (not_parsed (fault_in s) s.at) }
{
    if let Some(fault) = s.fault {
        return not_parsed(fault.number(), s.at as u64);
    }
    if 512 < s.count {
        return not_parsed(2, 0);
    }
    let end = (s.count as usize) * WORDS;
    admission::admit(&table[..end])?;
    sized(s.count, room)
}

// How many numbers the room is given: none by a refusal.
fn given(r: Result<u64, Refusal>) -> usize
    ensures { result ≡ given_by r }
{
    match r {
        Ok(n) => n as usize,
        Err(_) => 0,
    }
}

// Parses a text: the table of its rule stands in the room's front, or it is refused and the room is as it was.
pub fn parse(text: &[u8], room: &mut [u32]) -> Result<u64, Refusal>
    ensures value { result ≡ parsing text.now (length room.old) }
    ensures room_after { room.new ≡ room_after result text.now room.old }
{
    let mut table = [0u32; 3072];
    let s = rules::rule(text, &mut table).state;
    let r = answer(s, &table, room.len());
    let end = given(r);
    table::copy(&table[..end], room);
    r
}
