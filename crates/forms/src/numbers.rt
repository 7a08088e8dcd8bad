// Faults by number, for who holds one so: of the files of a call from 0, of a case and of a setting by name from 1, in the
// order of the variants. A number that is no fault is told without words.
ghost use Rattle.std.specs.Prelude.{◌≡◌, ◌&&◌, nat_le, is_some, IfSome};
ghost use Rattle.cases.specs.Errors.{number};
ghost use Rattle.assignments.specs.Reading.{fault_number};

use crate::faults::{Fault, Word, complain, put_place};
use assignments::Fault as NameFault;
use cases::{ErrorKind, ParseError};
use page::Page;
use show::Names;
use std::fmt;
use std::fmt::Write as _;
use std::io::{Result, Stderr};

// A fault of the files of a call.
fn of_call<'a>(n: u32) -> Option<Fault<'a>> {
    match n {
        0 => Some(Fault::LongRule),
        1 => Some(Fault::NoSetting),
        2 => Some(Fault::Crowded),
        3 => Some(Fault::InputTwice),
        _ => None,
    }
}

fn of_case(n: u32) -> Option<ErrorKind>
    ensures known { is_some result ≡ nat_le 1 n && nat_le n 15 }
    ensures kind { IfSome result (λ kind. number kind ≡ n) }
{
    match n {
        1 => Some(ErrorKind::UnknownWord),
        2 => Some(ErrorKind::LargeNumber),
        3 => Some(ErrorKind::NumberBeforeParts),
        4 => Some(ErrorKind::PartGivenTwice),
        5 => Some(ErrorKind::SecondAllowance),
        6 => Some(ErrorKind::RoomFull),
        7 => Some(ErrorKind::NoTable),
        8 => Some(ErrorKind::NoValues),
        9 => Some(ErrorKind::NoCells),
        10 => Some(ErrorKind::NoAllowance),
        11 => Some(ErrorKind::EmptyAllowance),
        12 => Some(ErrorKind::LongText),
        13 => Some(ErrorKind::TableFull),
        14 => Some(ErrorKind::OthersFull),
        15 => Some(ErrorKind::ByteOrderMark),
        _ => None,
    }
}

fn of_setting(n: u32) -> Option<NameFault>
    ensures known { is_some result ≡ nat_le 1 n && nat_le n 14 }
    ensures kind { IfSome result (λ kind. fault_number kind ≡ n) }
{
    match n {
        1 => Some(NameFault::NotDeclared),
        2 => Some(NameFault::GivenTwice),
        3 => Some(NameFault::CellGivenTwice),
        4 => Some(NameFault::EqualsOrBracketExpected),
        5 => Some(NameFault::ValueExpected),
        6 => Some(NameFault::NumberTooLarge),
        7 => Some(NameFault::NoArray),
        8 => Some(NameFault::BracketExpected),
        9 => Some(NameFault::AllowanceGivenTwice),
        10 => Some(NameFault::IndexExpected),
        11 => Some(NameFault::ValueMissing),
        12 => Some(NameFault::CellsFull),
        13 => Some(NameFault::StatementUnfinished),
        14 => Some(NameFault::SheetFull),
        _ => None,
    }
}

// A fault of a case by number, and where it is: a column of 0 is none.
#[derive(Clone, Copy)]
pub struct NumberedError {
    pub kind: u32,
    pub line: u64,
    pub column: u64,
    pub from: usize,
    pub to: usize,
}

// A column, of which 0 is none.
fn column_of(column: u64) -> Option<u64> {
    if column == 0 { None } else { Some(column) }
}

impl NumberedError {
    // The error, where its number is that of a fault.
    fn known(self) -> Option<ParseError> {
        match of_case(self.kind) {
            Some(kind) => Some(ParseError {
                kind,
                line: self.line,
                column: column_of(self.column),
                from: self.from,
                to: self.to,
            }),
            None => None,
        }
    }
}

// Where a fault is that has no words.
fn put_place_of(page: &mut Page, path: &[u8], line: u64, column: u64, word: &[u8]) -> fmt::Result {
    page.put_all(path)?;
    put_place(page, line, column_of(column), Some(Word(word)))?;
    writeln!(page, "")
}

fn complain_of_place(
    errors: Stderr,
    path: &[u8],
    line: u64,
    column: u64,
    word: &[u8],
) -> Result<()> {
    let mut page = Page::errors(errors);
    let told = put_place_of(&mut page, path, line, column, word);
    page.end(told)
}

// A fault of the files of a call.
pub fn complain_of(errors: Stderr, path: &[u8], n: u32) -> Result<()> {
    match of_call(n) {
        Some(fault) => complain(errors, path, fault),
        None => {
            let mut page = Page::errors(errors);
            let told = page.put_all(path);
            page.end(told)
        }
    }
}

// A fault of a case, whose word at fault is given.
pub fn complain_of_case(errors: Stderr, path: &[u8], e: NumberedError, word: &[u8]) -> Result<()> {
    match e.known() {
        Some(error) => complain(errors, path, Fault::Case(error, word)),
        None => complain_of_place(errors, path, e.line, e.column, word),
    }
}

// A fault of a setting in parts, after whose own bytes the word table stands.
pub fn complain_of_setting(
    errors: Stderr,
    path: &[u8],
    e: NumberedError,
    text: &[u8],
    own: usize,
) -> Result<()> {
    if let Some(error) = e.known() {
        return complain(errors, path, Fault::of_setting(error, text, own));
    }
    if e.column == 0 {
        return complain_of_place(errors, path, outline::line_of(text, own), 0, b"");
    }
    if own <= e.from {
        let line = cases::heading_line(text, 1).unwrap_or(0);
        return complain(errors, path, Fault::Table(line));
    }
    let word = errors::between(text, e.from, e.to);
    complain_of_place(errors, path, e.line, e.column, word)
}

// A fault of a setting by name at a word; where the column is 0, on a line. Where a value is missing, the slot's name follows.
pub fn complain_of_name(
    errors: Stderr,
    path: &[u8],
    names: &[u8],
    kind: u32,
    line: u64,
    column: u64,
    slot: usize,
    word: &[u8],
) -> Result<()> {
    let Some(kind) = of_setting(kind) else {
        return complain_of_place(errors, path, line, column, word);
    };
    let error = assignments::Error {
        kind,
        line,
        column: column_of(column),
        from: slot,
        to: slot,
    };
    complain(errors, path, Fault::Name(error, word, Names(names)))
}
