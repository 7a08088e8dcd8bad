// The values of the names.
ghost use Rattle.std.specs.Prelude.{◌≡◌, set};
ghost use Rattle.assignments.specs.Reading.{missing_from, value_of, values_in};

use crate::seek::value_place;
use crate::tokens::{number_of, token_at};

/// The first name that has no value.
pub fn missing(names: &[u8], text: &[u8], count: u32) -> Option<u32>
    ensures { result ≡ missing_from names.now text.now count 0 }
{
    for slot in 0..count {
        if text.len() <= value_place(names, text, slot) {
            return Some(slot);
        }
    }
    None
}

// The value of a name.
fn value_of(names: &[u8], text: &[u8], slot: u32) -> u32
    ensures { result ≡ value_of names.now text.now slot }
{
    let token = token_at(text, value_place(names, text, slot));
    match number_of(token.of(text)) {
        Some(number) => number.value(),
        None => 0,
    }
}

/// Writes a number at a place; past the room's end nothing is written.
pub fn put(room: &mut [u32], k: usize, v: u32)
    ensures { room.new ≡ set room.old k v }
{
    if k < room.len() {
        room[k] = v;
    }
}

/// The values of the names, each at its slot.
pub fn fill(names: &[u8], text: &[u8], count: u32, values: &mut [u32])
    ensures { values.new
        ≡ values_in names.now text.now count values.old }
{
    // By slots: the room may have fewer places, and put writes none past its end.
    for slot in 0..count {
        put(values, slot as usize, value_of(names, text, slot));
    }
}
