// Bytes, words and numbers, written at a place. Each answers the next place; past the room's end nothing is written.
// The room and the place stay two parameters: the public functions, which docs/PROOFS.md names, take and answer them so.
ghost use Rattle.std.specs.Prelude.{◌≡◌, ◌<◌};
ghost use Rattle.smtlib.specs.Writing.{page, put, Wrote};
ghost use Rattle.smtlib.specs.Writing as writing;
ghost use Rattle.smtlib.specs.Numerals.{numeral, bits};
ghost use Rattle.smtlib.specs.Numerals as numerals;

// More than a text has bytes.
const LIMIT: usize = 4611686018427387904;

fn next(at: usize) -> usize
    ensures { result ≡ writing.next at }
{
    if at < LIMIT { at + 1 } else { at }
}

pub fn put(room: &mut [u8], at: usize, byte: u8) -> usize
    ensures { page room.new result ≡ put (page room.old at) byte }
{
    if at < room.len() {
        room[at] = byte;
    }
    next(at)
}

pub fn word(room: &mut [u8], at: usize, w: &[u8]) -> usize
    ensures { Wrote (page room.old at) w.now (page room.new result) }
{
    let mut to = at;
    for b in w {
        to = put(room, to, *b);
    }
    to
}

fn digit(room: &mut [u8], at: usize, d: u32) -> usize
    requires { d < 10 }
    ensures { Wrote (page room.old at) (numerals.digit d) (page room.new result) }
{
    put(room, at, b'0' + d as u8)
}

// `v` in decimal digits.
pub fn numeral(room: &mut [u8], at: usize, v: u32) -> usize
    ensures { Wrote (page room.old at) (numeral v) (page room.new result) }
{
    if v < 10 {
        return digit(room, at, v);
    }
    let to = numeral(room, at, v / 10);
    digit(room, to, v % 10)
}

// `v` in `n` binary digits.
pub fn bits(room: &mut [u8], at: usize, n: u32, v: u32) -> usize
    ensures { Wrote (page room.old at) (bits n v) (page room.new result) }
{
    if n == 0 {
        return at;
    }
    let to = bits(room, at, n - 1, v / 2);
    digit(room, to, v % 2)
}
