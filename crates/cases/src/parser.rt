// The parts of a case, token by token.
ghost use Rattle.std.specs.Prelude.{◌≡◌};
ghost use Rattle.cases.specs.Lexing.{lex};
ghost use Rattle.cases.specs.declared.lexer.Lexer.TheVariants.{Blank};
ghost use Rattle.cases.specs.Parsing.{start, run_of, size, size_of, others, others_fault, limit, number_fault, begun, extended};
ghost use Rattle.cases.specs.Parsing.{headed, counted, taken_by, taken, parse, case_of};

use crate::Case;
use crate::error::ErrorKind;
use crate::lexer::{Lexer, Token, lexed, token_at, token_at_end};
use crate::part::Part;

// The most numbers of the table, and of the other parts together.
pub const TABLE_LIMIT: u32 = 480000;

pub const OTHERS_LIMIT: u32 = 200000;

// A part's numbers stand at from up to to in the row of all numbers.
#[derive(Clone, Copy, Debug, PartialEq, Eq)]
pub struct Run {
    pub from: u32,
    pub to: u32,
}

// What is wrong, and the byte at which it was found.
#[derive(Clone, Copy, Debug, PartialEq, Eq)]
pub struct Fault {
    pub kind: ErrorKind,
    pub at: usize,
}

// The part that is being read, how many numbers were read, and the parts that were given, by their indices.
#[derive(Clone, Copy, Debug, PartialEq, Eq)]
pub struct Parser {
    pub part: Option<Part>,
    pub total: u32,
    pub runs: [Option<Run>; 5],
}

// How many numbers a part has.
fn size(run: Option<Run>) -> u32
    ensures { result ≡ size run }
{
    match run {
        Some(run) => run.to.saturating_sub(run.from),
        None => 0,
    }
}

impl Parser {
    fn new() -> Parser
        ensures { result ≡ start }
    {
        Parser {
            part: None,
            total: 0,
            runs: [None; 5],
        }
    }

    fn run(self, part: Part) -> Option<Run>
        ensures { result ≡ run_of self part }
    {
        self.runs[part.index()]
    }

    fn size(self, part: Part) -> u32
        ensures { result ≡ size_of self part }
    {
        size(self.run(part))
    }

    // How many numbers the parts but the table have: all that are not the table's.
    fn others(self) -> u32
        ensures { result ≡ others self }
    {
        self.total.saturating_sub(self.size(Part::Table))
    }

    // Whether a part takes a further number: an allowance has one, the table and the other parts have limits.
    fn limit(self, part: Part) -> Result<(), ErrorKind>
        ensures { result ≡ limit self part }
    {
        match part {
            Part::Table if TABLE_LIMIT <= self.size(part) => Err(ErrorKind::TableFull),
            Part::Table => Ok(()),
            Part::Allowance if 0 < self.size(part) => Err(ErrorKind::SecondAllowance),
            _ if OTHERS_LIMIT <= self.others() => Err(ErrorKind::OthersFull),
            _ => Ok(()),
        }
    }

    // A heading: its part was not given before.
    fn headed(mut self, part: Part) -> Result<Parser, ErrorKind>
        ensures { result ≡ headed self part }
    {
        if self.run(part).is_some() {
            return Err(ErrorKind::PartGivenTwice);
        }
        let at = self.total;
        self.part = Some(part);
        self.runs[part.index()] = Some(Run { from: at, to: at });
        Ok(self)
    }

    // A number, where the room has so many.
    fn counted(mut self, room: u32) -> Result<Parser, ErrorKind>
        ensures { result ≡ counted self room }
    {
        let part = self.part.ok_or(ErrorKind::NumberBeforeParts)?;
        self.limit(part)?;
        if room <= self.total {
            return Err(ErrorKind::RoomFull);
        }
        self.total += 1;
        let to = self.total;
        self.runs[part.index()] = self.run(part).map(|run| Run { from: run.from, to });
        Ok(self)
    }

    fn taken_by(self, room: u32, token: Token) -> Result<Parser, ErrorKind>
        ensures { result ≡ taken_by room self token }
    {
        match token {
            Token::Number(_) => self.counted(room),
            Token::Heading(part) => self.headed(part),
            Token::Unknown => Err(ErrorKind::UnknownWord),
            Token::TooLarge => Err(ErrorKind::LargeNumber),
        }
    }

    // After one token more, if the byte `at` ends one.
    fn taken(self, room: u32, at: usize, token: Option<Token>) -> Result<Parser, Fault>
        ensures { result ≡ taken room at self token }
    {
        match token {
            Some(token) => self
                .taken_by(room, token)
                .map_err(|kind| Fault { kind, at }),
            None => Ok(self),
        }
    }

    // The case that was read, of whose numbers there are so many.
    pub fn case(self, whole: bool) -> Result<Case, ErrorKind>
        ensures { result ≡ case_of self whole self.total }
    {
        if !whole {
            return Err(ErrorKind::LongText);
        }
        let table = self.run(Part::Table).ok_or(ErrorKind::NoTable)?;
        let values = self.run(Part::Values).ok_or(ErrorKind::NoValues)?;
        let cells = self.run(Part::Cells).ok_or(ErrorKind::NoCells)?;
        let allowance = self.run(Part::Allowance).ok_or(ErrorKind::NoAllowance)?;
        if allowance.from == allowance.to {
            return Err(ErrorKind::EmptyAllowance);
        }
        Ok(Case {
            table,
            values,
            cells,
            sheet: self.run(Part::Sheet),
            allowance: allowance.from,
            count: self.total,
        })
    }
}

// The tokens of a text in order, up to the first fault.
pub fn parse(text: &[u8], whole: bool, room: u32) -> Result<Parser, Fault>
    ensures { result ≡ parse room 0 start (lex whole Blank text.now) }
{
    let mut l = Lexer::Blank;
    let mut p = Parser::new();
    for (i, b) in text.iter().enumerate() {
        p = p.taken(room, i, token_at(l, *b))?;
        l = lexed(l, *b);
    }
    p.taken(room, text.len(), token_at_end(l, whole))
}
