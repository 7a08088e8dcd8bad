// What is wrong with the text of a case.
ghost use Rattle.std.specs.Prelude.{◌≡◌};
ghost use Rattle.cases.specs.Errors.{number};

#[derive(Clone, Copy, Debug, PartialEq, Eq)]
pub enum ErrorKind {
    UnknownWord,
    LargeNumber,
    NumberBeforeParts,
    PartGivenTwice,
    SecondAllowance,
    RoomFull,
    NoTable,
    NoValues,
    NoCells,
    NoAllowance,
    EmptyAllowance,
    LongText,
    TableFull,
    OthersFull,
    ByteOrderMark,
}

impl ErrorKind {
    // The number by which the fault is told.
    pub fn number(self) -> u32
        ensures { result ≡ number self }
    {
        match self {
            ErrorKind::UnknownWord => 1,
            ErrorKind::LargeNumber => 2,
            ErrorKind::NumberBeforeParts => 3,
            ErrorKind::PartGivenTwice => 4,
            ErrorKind::SecondAllowance => 5,
            ErrorKind::RoomFull => 6,
            ErrorKind::NoTable => 7,
            ErrorKind::NoValues => 8,
            ErrorKind::NoCells => 9,
            ErrorKind::NoAllowance => 10,
            ErrorKind::EmptyAllowance => 11,
            ErrorKind::LongText => 12,
            ErrorKind::TableFull => 13,
            ErrorKind::OthersFull => 14,
            ErrorKind::ByteOrderMark => 15,
        }
    }
}

// What is wrong, and the token at fault: the line and column of its first byte, counted from 1, and its bytes, which go
// from one up to another. Where there is no such token there is no column, and from is to.
#[derive(Clone, Copy, Debug, PartialEq, Eq)]
pub struct ParseError {
    pub kind: ErrorKind,
    pub line: u64,
    pub column: Option<u64>,
    pub from: usize,
    pub to: usize,
}
