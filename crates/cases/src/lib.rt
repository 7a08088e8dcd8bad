// Reading the text of a case: its table, values, cells, allowance and sheet.
#![tactic(auto, using(std::proofs::lemmas::Bool::Decides::nat_tests))]

mod bytes; // what a byte is
mod error; // what is wrong with a text
mod lexer; // tokens
mod lines; // the lines of a part's words and numbers
mod parser; // parts
mod part; // which part
mod places; // lines and columns
mod room; // numbers

ghost use Rattle.std.specs.Prelude.{◌≡◌, ◌≤◌, length, slice_get};
ghost use Rattle.cases.specs.Reading.{capped, marked, error_at_end, error_at_token};
ghost use Rattle.cases.specs.Parsing.{case_of};
ghost use Rattle.cases.specs.Reading.{ended, parsed_within, parsing_within, parsing, seen, wholly};
ghost use Rattle.cases.specs.Lines.{lines_of, number_line, heading_line, odd_line};
ghost use Rattle.cases.specs.Reading.{room_within, room_after, byte_limit, Inside};

pub use bytes::{digit, white};
pub use error::{ErrorKind, ParseError};
pub use lexer::next_value;
pub use lines::OddLine;
pub use parser::Run;
use parser::{Fault, Parser};
pub use places::{back_to, byte_at, column_at, line_at};

// The parts that are rows by their places among the numbers, of which the sheet may be missing; the place of the
// allowance, and how many numbers were written.
#[derive(Clone, Copy, Debug, PartialEq, Eq)]
pub struct Case {
    pub table: Run,
    pub values: Run,
    pub cells: Run,
    pub sheet: Option<Run>,
    pub allowance: u32,
    pub count: u32,
}

// The most bytes of a text; of a longer one so many are read.
pub const BYTE_LIMIT: usize = 4194304;

// The most numbers of a text: a room for so many is long enough.
pub const NUMBER_LIMIT: usize = (parser::TABLE_LIMIT as usize) + (parser::OTHERS_LIMIT as usize);

fn capped(n: usize) -> u32
    ensures { result ≡ capped n }
{
    n.min(4294967295) as u32
}

// Whether a byte-order mark begins the text.
fn marked(text: &[u8]) -> bool
    ensures { result ≡ marked text.now }
{
    (byte_at(text, 0) == 239) & (byte_at(text, 1) == 187) & (byte_at(text, 2) == 191)
}

// Something is missing at the end: there is no token at fault.
fn error_at_end(text: &[u8], kind: ErrorKind) -> ParseError
    requires { length text.now ≤ byte_limit }
    ensures { result ≡ error_at_end text.now kind }
{
    let end = text.len();
    ParseError {
        kind,
        line: line_at(text, end),
        column: None,
        from: end,
        to: end,
    }
}

// The token that ends before a fault's byte is at fault: its byte-order mark where it begins the text with one.
fn error_at_token(text: &[u8], fault: Fault) -> ParseError
    requires text_len_bound { length text.now ≤ byte_limit }
    requires at_in_bounds { fault.at ≤ length text.now }
    ensures { result ≡ error_at_token text.now fault }
{
    let to = fault.at;
    let from = back_to(false, text, to);
    ParseError {
        kind: if from == 0 && marked(text) {
            ErrorKind::ByteOrderMark
        } else {
            fault.kind
        },
        line: line_at(text, from),
        column: Some(column_at(text, from)),
        from,
        to,
    }
}

// Reads the bytes of a text up to the limit, which are the whole text or not.
fn read_within(text: &[u8], whole: bool, numbers: &mut [u32]) -> Result<Case, ParseError>
    requires { length text.now ≤ byte_limit }
    ensures value { result ≡ parsing_within text.now whole (length numbers.old) }
    ensures numbers_after { numbers.new ≡ room_within result text.now whole numbers.old }
    ensures inside { Inside result (length numbers.old) (length text.now) }
{
    let case = parse(text, whole, capped(numbers.len()))?;
    room::write(text, whole, numbers);
    Ok(case)
}

// A parsed text's case, or what is missing at its end.
fn ended(text: &[u8], whole: bool, p: Parser) -> Result<Case, ParseError>
    requires { length text.now ≤ byte_limit }
    ensures { result ≡ ended text.now (case_of p whole p.total) }
{
    p.case(whole).map_err(|kind| error_at_end(text, kind))
}

fn parse(text: &[u8], whole: bool, room: u32) -> Result<Case, ParseError>
    requires { length text.now ≤ byte_limit }
    ensures { result ≡ parsed_within text.now whole room }
{
    match parser::parse(text, whole, room) {
        Ok(p) => ended(text, whole, p),
        Err(fault) => Err(error_at_token(text, fault)),
    }
}

// The bytes of a text that are read, and whether they are the whole text.
fn seen(text: &[u8]) -> &[u8]
    ensures value { result.now ≡ seen text.now }
    ensures short { length result.now ≤ byte_limit }
    ensures inside { length result.now ≤ length text.now }
{
    let end = BYTE_LIMIT.min(text.len());
    &text[..end]
}

fn wholly(text: &[u8]) -> bool
    ensures { result ≡ wholly text.now }
{
    text.len() <= BYTE_LIMIT
}

// Reads a case: the front of numbers holds the text's numbers, which the answer counts; or else there is a fault, and
// numbers is as it was.
pub fn read_case(text: &[u8], numbers: &mut [u32]) -> Result<Case, ParseError>
    ensures value { result ≡ parsing text.now (length numbers.old) }
    ensures numbers_after { numbers.new ≡ room_after result text.now numbers.old }
    ensures inside { Inside result (length numbers.old) (length text.now) }
{
    read_within(seen(text), wholly(text), numbers)
}

// The line of heading or number `k` of a part.
fn line_of(text: &[u8], heading: bool, part: u32, k: usize) -> Option<u64>
    ensures { result ≡ slice_get (lines_of heading part text.now) k }
{
    lines::line_within(seen(text), wholly(text), heading, part, k)
}

// The line of number `k` of a part (1 table, 2 values, 3 cells, 4 allowance, 5 sheet; 0: before any heading). A part is
// a number here and in heading_line, which docs/ROUTINES.md names: an enum would ask more of callers.
pub fn number_line(text: &[u8], part: u32, k: usize) -> Option<u64>
    ensures { result ≡ number_line text.now part k }
{
    line_of(text, false, part, k)
}

// The line of the word that begins a part.
pub fn heading_line(text: &[u8], part: u32) -> Option<u64>
    ensures { result ≡ heading_line text.now part }
{
    line_of(text, true, part, 0)
}

// The first line of the table whose count of numbers is no multiple of six.
pub fn odd_line(text: &[u8]) -> Option<OddLine>
    ensures { result ≡ odd_line text.now }
{
    lines::odd_within(seen(text), wholly(text))
}
