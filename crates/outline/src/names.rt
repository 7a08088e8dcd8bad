// The declared names, a line each.
ghost use Rattle.std.specs.Prelude.{◌≡◌, [], ◌∷◌, ◌++◌, ◌+◌, ◌<◌, length, take, drop};
ghost use Rattle.outline.specs.NameLines.{names_in};

use crate::spans::span_of;

// Writes a name at a place, and a line feed after it.
fn put_line(name: &[u8], at: usize, room: &mut [u8])
    requires { at + length name.now < length room.old }
    ensures { room.new
        ≡ (take at room.old ++ (name.now ++ (10 ∷ [])))
        ++ drop (at + length name.now + 1) room.old }
{
    let end = at + name.len();
    room[at..end].copy_from_slice(name);
    room[end] = b'\n';
}

/// The declared names at the room's front, a line feed after each, as many as fit wholly; the bytes written.
pub fn put_names(text: &[u8], names: u32, room: &mut [u8]) -> usize
    ensures value { result ≡ length (names_in text.now names (length room.old)) }
    ensures room_after { room.new
        ≡ names_in text.now names (length room.old) ++ drop result room.old }
{
    let mut at = 0;
    for k in 0..names {
        let name = span_of(text, k).of(text);
        if room.len() - at <= name.len() {
            return at;
        }
        put_line(name, at, room);
        at += name.len() + 1;
    }
    at
}
