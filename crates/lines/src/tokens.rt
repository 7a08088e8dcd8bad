// The tokens of a line, byte by byte.
ghost use Rattle.std.specs.Prelude.{◌≡◌};
ghost use Rattle.lines.specs.Tokens.{digit, letter, with_digit, with_letter, begun, with_byte};

// A number; a word, whose letters are digits in base 32: _ is 1, a 3 and z 28. Either may be too long.
#[derive(Clone, Copy)]
pub enum Token {
    Nothing,
    Number(u64),
    Word(u64),
    Unknown,
}

// A number with one digit more.
fn with_digit(value: u64, b: u8) -> Token
    ensures { result ≡ with_digit value b }
{
    if matches!(b, b'0'..=b'9') && value < 1 << 32 {
        Token::Number(value * 10 + u64::from(b - b'0'))
    } else {
        Token::Unknown
    }
}

// A word with one letter more: a lower-case letter, _ or `.
fn with_letter(word: u64, b: u8) -> Token
    ensures { result ≡ with_letter word b }
{
    if matches!(b, b'_'..=b'z') && word < 1 << 55 {
        Token::Word(word * 32 + u64::from(b - 94))
    } else {
        Token::Unknown
    }
}

impl Token {
    // A token of one byte.
    fn of_byte(b: u8) -> Token
        ensures { result ≡ begun b }
    {
        match b {
            b'0'..=b'9' => with_digit(0, b),
            _ => with_letter(0, b),
        }
    }

    // A token with one byte more.
    pub fn with_byte(self, b: u8) -> Token
        ensures { result ≡ with_byte self b }
    {
        match self {
            Token::Nothing => Token::of_byte(b),
            Token::Number(value) => with_digit(value, b),
            Token::Word(word) => with_letter(word, b),
            Token::Unknown => Token::Unknown,
        }
    }
}
