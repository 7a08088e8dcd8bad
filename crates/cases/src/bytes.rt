// What a byte is.
ghost use Rattle.std.specs.Prelude.{◌≡◌};
ghost use Rattle.cases.specs.Bytes.{white, ends, digit, letter};

// A space, or one of the bytes 9 to 13.
pub fn white(b: u8) -> bool
    ensures { result ≡ white b }
{
    (b == b' ') | ((9 <= b) & (b <= 13))
}

// White space, or the start of a comment.
pub fn ends(b: u8) -> bool
    ensures { result ≡ ends b }
{
    white(b) | (b == b';')
}

pub fn digit(b: u8) -> bool
    ensures { result ≡ digit b }
{
    (b'0' <= b) & (b <= b'9')
}

// A lower-case letter.
pub fn letter(b: u8) -> bool
    ensures { result ≡ letter b }
{
    (b'a' <= b) & (b <= b'z')
}
