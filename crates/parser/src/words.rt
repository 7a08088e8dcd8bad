// The words of a text, and what each of them is.
ghost use Rattle.std.specs.Prelude.{◌≡◌, ◌-◌, ◌≤◌, ◌<◌, length, drop, ◌&&◌, not, false, true, MatchOption, ℕ, Bool, map};
ghost use Rattle.smtlib.specs.Bytes.{part, is_in};
ghost use Rattle.smtlib.specs.Numerals.{value_of};
ghost use Rattle.table.specs.Folds.{every};
ghost use Rattle.parser.specs.Words.{white, inside, digit, symbolic, symbol, private, binary, decimal_width};
ghost use Rattle.parser.specs.Words.{keyword_of, sort_named, is_name, marked, plain_of, word_of, past, word_from, token_at};

// The language's own words.
#[derive(Clone, Copy, PartialEq, Eq)]
pub enum Keyword {
    DeclareConst,
    Assert,
    CheckSat,
    Underscore,
}

// The names that are also sorts' words.
#[derive(Clone, Copy, PartialEq, Eq)]
pub enum SortName {
    Bool,
    BitVec,
    Array,
}

#[derive(Clone, Copy)]
pub enum Word {
    Open,
    Close,
    Keyword(Keyword),
    Operator(u32),
    // A constant's width, 0 for a Boolean, and its value.
    Literal(u32, u32),
    Width(u32),
    Name(Option<SortName>),
    Other,
    End,
}

// A word with its place and the place after it.
#[derive(Clone, Copy)]
pub struct Token {
    pub word: Word,
    pub from: usize,
    pub next: usize,
}

// A word and the one after it.
#[derive(Clone, Copy)]
pub struct Words {
    pub first: Token,
    pub second: Token,
}

const RESERVED: [&[u8]; 12] = [
    b"!",
    b"as",
    b"BINARY",
    b"DECIMAL",
    b"exists",
    b"HEXADECIMAL",
    b"forall",
    b"let",
    b"match",
    b"NUMERAL",
    b"par",
    b"STRING",
];

const COMMANDS: [&[u8]; 27] = [
    b"check-sat-assuming",
    b"declare-datatype",
    b"declare-datatypes",
    b"declare-fun",
    b"declare-sort",
    b"define-fun",
    b"define-fun-rec",
    b"define-funs-rec",
    b"define-sort",
    b"echo",
    b"exit",
    b"get-assertions",
    b"get-assignment",
    b"get-info",
    b"get-model",
    b"get-option",
    b"get-proof",
    b"get-unsat-assumptions",
    b"get-unsat-core",
    b"get-value",
    b"pop",
    b"push",
    b"reset",
    b"reset-assertions",
    b"set-info",
    b"set-logic",
    b"set-option",
];

pub fn white(b: u8) -> bool
    ensures { result ≡ white b }
{
    matches!(b, b' ' | b'\t' | b'\n' | b'\r')
}

// Neither white space nor a parenthesis.
fn inside(b: u8) -> bool
    ensures { result ≡ inside b }
{
    !white(b) & (b != b'(') & (b != b')')
}

// A byte of a simple symbol.
fn symbolic(b: u8) -> bool
    ensures { result ≡ symbolic b }
{
    b.is_ascii_alphanumeric() || b"~!@$%^&*_-+=<>.?/".contains(&b)
}

fn all_digits(word: &[u8]) -> bool
    ensures { result ≡ every digit word.now }
{
    word.iter().all(|b| b.is_ascii_digit())
}

pub fn all_symbolic(word: &[u8]) -> bool
    ensures { result ≡ every symbolic word.now }
{
    word.iter().all(|b| symbolic(*b))
}

// The number that digits say.
fn value_of(base: u32, digits: &[u8]) -> u32
    requires { (1 ≤ base) × (value_of base 0 digits.now < 4294967296) }
    ensures { result ≡ value_of base 0 digits.now }
{
    let mut v = 0;
    for digit in digits {
        v = v * base + u32::from(digit.saturating_sub(b'0'));
    }
    v
}

// The digits after `#b`, 1 to 32 of them.
fn binary_digits(word: &[u8]) -> Option<&[u8]>
    ensures { MatchOption result (binary word.now ≡ false) (λ digits. (binary word.now ≡ true) × (digits.now ≡ drop 2 word.now)) }
{
    let digits = word.strip_prefix(b"#b")?;
    let binary = digits.iter().all(|b| (b'0' <= *b) & (*b <= b'1'));
    if binary & (1 <= digits.len()) & (digits.len() <= 32) {
        Some(digits)
    } else {
        None
    }
}

// 1 to 32 without leading zeros.
fn decimal_width(word: &[u8]) -> Option<u32>
    ensures { result ≡ decimal_width word.now }
{
    if word.is_empty() | (2 < word.len()) | !all_digits(word) {
        return None;
    }
    let width = value_of(10, word);
    if (word[0] != b'0') & (width <= 32) {
        Some(width)
    } else {
        None
    }
}

// A simple symbol, and its first byte is not one that reserves it.
fn symbol(word: &[u8]) -> bool
    ensures { result ≡ (symbol word.now && not (private word.now)) }
{
    match word.first() {
        Some(b) => !b.is_ascii_digit() & all_symbolic(word) & (*b != b'@') & (*b != b'.'),
        None => false,
    }
}

fn among(words: &[&[u8]], word: &[u8]) -> bool
    ensures { result ≡ is_in (map (λ w. w.now) words.now) word.now }
{
    words.contains(&word)
}

fn is_name(word: &[u8]) -> bool
    ensures { result ≡ is_name word.now }
{
    if !symbol(word) {
        return false;
    }
    !among(&RESERVED, word) & !among(&COMMANDS, word)
}

fn keyword_of(word: &[u8]) -> Option<Keyword>
    ensures { result ≡ keyword_of word.now }
{
    if word == b"declare-const".as_slice() {
        Some(Keyword::DeclareConst)
    } else if word == b"assert".as_slice() {
        Some(Keyword::Assert)
    } else if word == b"check-sat".as_slice() {
        Some(Keyword::CheckSat)
    } else if word == b"_".as_slice() {
        Some(Keyword::Underscore)
    } else {
        None
    }
}

fn sort_named(word: &[u8]) -> Option<SortName>
    ensures { result ≡ sort_named word.now }
{
    if word == b"Bool".as_slice() {
        Some(SortName::Bool)
    } else if word == b"BitVec".as_slice() {
        Some(SortName::BitVec)
    } else if word == b"Array".as_slice() {
        Some(SortName::Array)
    } else {
        None
    }
}

// A name that is marked: x, then digits, at least one.
pub fn marked(word: &[u8]) -> bool
    ensures { result ≡ marked word.now }
{
    match word.strip_prefix(b"x") {
        Some(digits) => !digits.is_empty() & all_digits(digits),
        None => false,
    }
}

// The bytes of a text from one place to another. Places past its end are its end.
pub fn part(text: &[u8], from: usize, to: usize) -> &[u8]
    ensures { result.now ≡ part text.now from to }
{
    let end = to.min(text.len());
    &text[from.min(end)..end]
}

// A constant in digits, a width, a name, or none of these.
fn plain_word(word: &[u8]) -> Word
    ensures { result ≡ plain_of word.now }
{
    if let Some(digits) = binary_digits(word) {
        return Word::Literal(digits.len() as u32, value_of(2, digits));
    }
    if let Some(width) = decimal_width(word) {
        return Word::Width(width);
    }
    if is_name(word) {
        return Word::Name(sort_named(word));
    }
    Word::Other
}

// What a run of bytes is.
pub fn word_of(word: &[u8]) -> Word
    ensures { result ≡ word_of word.now }
{
    if let Some(keyword) = keyword_of(word) {
        return Word::Keyword(keyword);
    }
    let op = smtlib::operator_of(word);
    if 0 < op {
        return Word::Operator(op);
    }
    if word == b"true".as_slice() {
        return Word::Literal(0, 1);
    }
    if word == b"false".as_slice() {
        return Word::Literal(0, 0);
    }
    plain_word(word)
}

// The first place from `at` on whose byte fails a test. By an index: `position` over the bytes from `at` on was tried, and
// its proof stopped at a bound of the check.
fn past<F: Fn(u8) -> bool>(test: F, text: &[u8], at: usize) -> usize
    requires { F.IsAlwaysCallable test }
    ensures { (f : ℕ → Bool) → ((b : ℕ) (passes : Bool) → F.post test b passes → passes ≡ f b) → result ≡ past f text.now at }
{
    let mut i = at;
    while i < text.len() && test(text[i]) {
        i += 1;
    }
    i
}

// The first place from `at` on that has no white space.
pub fn past_white(text: &[u8], at: usize) -> usize
    ensures { result ≡ past white text.now at }
{
    past(white, text, at)
}

// The first place from `at` on that has white space or a parenthesis.
pub fn past_word(text: &[u8], at: usize) -> usize
    ensures { result ≡ past inside text.now at }
{
    past(inside, text, at)
}

// The word that begins at a place of the text.
fn word_from(text: &[u8], from: usize) -> Token
    requires { from < length text.now }
    ensures { result ≡ word_from text.now from }
{
    match text[from] {
        b'(' => Token {
            word: Word::Open,
            from,
            next: from + 1,
        },
        b')' => Token {
            word: Word::Close,
            from,
            next: from + 1,
        },
        _ => {
            let next = past_word(text, from);
            Token {
                word: word_of(&text[from..next]),
                from,
                next,
            }
        }
    }
}

// The word at a place, after white space.
pub fn token_at(text: &[u8], at: usize) -> Token
    ensures { result ≡ token_at text.now at }
{
    let from = past_white(text, at);
    if from < text.len() {
        return word_from(text, from);
    }
    Token {
        word: Word::End,
        from,
        next: from,
    }
}
