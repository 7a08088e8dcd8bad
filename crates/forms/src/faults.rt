// What is wrong with a file, on standard error.
use assignments::Fault as NameFault;
use cases::{ErrorKind, ParseError};
use page::Page;
use show::Names;
use std::fmt;
use std::fmt::{Display, Formatter, Write as _};
use std::io::{Result, Stderr};

// A file that is not answered: a rule is too long, it has no setting, a case has a file beside it, standard input is asked
// for twice; a case, or a setting in parts, has a fault at a word; a setting has a table, on a line; a setting by name has a
// fault at a word.
#[derive(Clone, Copy)]
pub enum Fault<'a> {
    LongRule,
    NoSetting,
    Crowded,
    InputTwice,
    Case(ParseError, &'a [u8]),
    Table(u64),
    Name(assignments::Error, &'a [u8], Names<'a>),
}

impl<'a> Fault<'a> {
    // The fault of a case.
    pub fn of_case(e: ParseError, text: &'a [u8]) -> Fault<'a> {
        Fault::Case(e, errors::between(text, e.from, e.to))
    }

    // The fault of a setting, after whose own bytes the word table stands: where that word is at fault, the setting has a
    // table; what is missing is missing at the end of its own bytes.
    pub fn of_setting(e: ParseError, text: &'a [u8], own: usize) -> Fault<'a> {
        if e.column.is_some() && own <= e.from {
            return Fault::Table(cases::heading_line(text, 1).unwrap_or(0));
        }
        if e.column.is_some() || e.kind == ErrorKind::LongText {
            return Fault::of_case(e, text);
        }
        let line = outline::line_of(text, own);
        Fault::of_case(ParseError { line, ..e }, text)
    }

    // A setting that is too large, whose text is read up to the limit at least.
    pub fn of_size(text: &'a [u8]) -> Fault<'a> {
        let e = ParseError {
            kind: ErrorKind::LongText,
            line: outline::line_of(text, cases::BYTE_LIMIT),
            column: None,
            from: 0,
            to: 0,
        };
        Fault::Case(e, b"")
    }

    // The fault of a setting by name.
    pub fn of_name(e: assignments::Error, text: &'a [u8], names: &'a [u8]) -> Fault<'a> {
        Fault::Name(e, errors::between(text, e.from, e.to), Names(names))
    }
}

// A word, of which at most 24 bytes are shown, those that are no letters, digits or signs as ?.
#[derive(Clone, Copy)]
pub struct Word<'a>(pub &'a [u8]);

impl Display for Word<'_> {
    fn fmt<W: fmt::Write>(&self, f: &mut Formatter<W>) -> fmt::Result {
        for b in self.0.iter().take(24) {
            f.write_char(if b.is_ascii_graphic() {
                char::from(*b)
            } else {
                '?'
            })?;
        }
        if 24 < self.0.len() {
            f.write_str("...")?;
        }
        Ok(())
    }
}

// A fault of a case in words. A room is never too short for its numbers.
fn case_words(kind: ErrorKind) -> &'static str {
    match kind {
        ErrorKind::UnknownWord => "neither a number nor table, sheet, values, cells or allowance",
        ErrorKind::LargeNumber => "a number of 2^32 (4294967296) or more",
        ErrorKind::NumberBeforeParts => {
            "a number before the words table, sheet, values, cells, allowance"
        }
        ErrorKind::PartGivenTwice => "this part was given before",
        ErrorKind::SecondAllowance => "allowance takes one number, and this is another",
        ErrorKind::RoomFull => "more numbers than the room holds",
        ErrorKind::NoTable => "the file ends without its part table",
        ErrorKind::NoValues => "the file ends without its part values",
        ErrorKind::NoCells => "the file ends without its part cells",
        ErrorKind::NoAllowance => "the file ends without its part allowance",
        ErrorKind::EmptyAllowance => "allowance has no number",
        ErrorKind::LongText => "the file is larger than 4194304 bytes",
        ErrorKind::TableFull => "the table has more than 480000 numbers",
        ErrorKind::OthersFull => {
            "sheet, values, cells and allowance together have more than 200000 numbers"
        }
        ErrorKind::ByteOrderMark => "a byte-order mark (EF BB BF): save the file without it",
    }
}

// A fault of a setting by name, in words; where a value is missing, the name stands after them.
fn name_words(fault: NameFault, word: &[u8]) -> &'static str {
    match fault {
        NameFault::NotDeclared if word.contains(&b'=') => {
            "the rule declares no such name: \"=\" takes white space before and after it"
        }
        NameFault::NotDeclared => "the rule declares no such name",
        NameFault::GivenTwice => "this name was given before",
        NameFault::CellGivenTwice => "this cell was given before",
        NameFault::EqualsOrBracketExpected => "\"=\" is expected, or of an array \"=\" or \"[\"",
        NameFault::ValueExpected => {
            "a value is expected: a decimal number, true, false or #b and 1 to 32 binary digits"
        }
        NameFault::NumberTooLarge => "a number of 2^32 (4294967296) or more",
        NameFault::NoArray => "this name is no array, and takes no index",
        NameFault::BracketExpected => "\"]\" is expected",
        NameFault::AllowanceGivenTwice => "allowance was given before",
        NameFault::IndexExpected => {
            "an index is expected: a decimal number or #b and 1 to 32 binary digits"
        }
        NameFault::ValueMissing => "no value for ",
        NameFault::CellsFull => "more cells than the room holds",
        NameFault::StatementUnfinished => "the file ends in the middle of a statement",
        NameFault::SheetFull => "more than 4096 mark and keep statements",
    }
}

// A line; where there is a word at fault, its column and the word.
pub fn put_place<W: fmt::Write>(
    f: &mut W,
    line: u64,
    column: Option<u64>,
    word: Option<Word>,
) -> fmt::Result {
    match (column, word) {
        (None, _) => write!(f, ":{line}: "),
        (Some(column), None) => write!(f, ":{line}:{column}: "),
        (Some(column), Some(word)) => write!(f, ":{line}:{column}: \"{word}\": "),
    }
}

// What stands after the file's name.
impl Display for Fault<'_> {
    fn fmt<W: fmt::Write>(&self, f: &mut Formatter<W>) -> fmt::Result {
        match *self {
            Fault::LongRule => f.write_str(": the rule is larger than 65535 bytes"),
            Fault::NoSetting => {
                f.write_str(": a rule takes the next file as its setting\n")?;
                f.write_str("usage: ./hiranthok COMMAND RULE SETTING")
            }
            Fault::Crowded => {
                f.write_str(": this command takes one case, or a rule and its setting")
            }
            Fault::InputTwice => {
                f.write_str(": only one of a rule and its setting can be standard input")
            }
            Fault::Table(line) => {
                write!(
                    f,
                    ":{line}: a setting has no table: the rule is in the other file"
                )
            }
            Fault::Case(e, word) => {
                let marked = e.kind == ErrorKind::ByteOrderMark;
                let shown = if marked { None } else { Some(Word(word)) };
                put_place(f, e.line, e.column, shown)?;
                f.write_str(case_words(e.kind))
            }
            Fault::Name(e, word, names) => {
                put_place(f, e.line, e.column, Some(Word(word)))?;
                f.write_str(name_words(e.kind, word))?;
                if e.kind == NameFault::ValueMissing {
                    let slot = u32::try_from(e.from).unwrap_or(u32::MAX);
                    names.term(slot).fmt(f)?;
                }
                Ok(())
            }
        }
    }
}

fn put_fault(page: &mut Page, path: &[u8], fault: Fault) -> fmt::Result {
    page.put_all(path)?;
    writeln!(page, "{fault}")
}

// A fault of the file of a name.
pub fn complain(errors: Stderr, path: &[u8], fault: Fault) -> Result<()> {
    let mut page = Page::errors(errors);
    let told = put_fault(&mut page, path, fault);
    page.end(told)
}
