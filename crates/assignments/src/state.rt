// How far the statements of a setting are read, and what one token more makes of it.
ghost use Rattle.std.specs.Prelude.{◌≡◌};
ghost use Rattle.assignments.specs.Statements.{start, fails, moved, named, valued_by, limited_by, marked};
ghost use Rattle.assignments.specs.Statements.{begun, name_then, closed, assigned, value_then, allowance_then, mark_then};
ghost use Rattle.assignments.specs.Statements.{put_three, put_cell, put_line, counted};

use crate::Fault;
use crate::tokens::{Kind, Number};
use crate::values::put;
use outline::Span;

/// A cell of an array.
#[derive(Clone, Copy, Debug, PartialEq, Eq)]
pub struct Cell {
    pub slot: u32,
    pub index: u32,
}

/// What the next token has to be, and what the statement has said so far.
#[derive(Clone, Copy, Debug, PartialEq, Eq)]
pub enum Expects {
    // a statement
    Statement,
    // = or [ after the name of a slot
    NameRest(u32),
    // an index of the array of a slot
    Index(u32),
    // ] after it
    Close(Cell),
    // = after a cell
    CellEquals(Cell),
    // the value of a cell, or else of a name
    Value(Option<Cell>),
    // what follows allowance, mark or keep, which may be a name too
    AllowanceRest(Option<u32>),
    MarkRest(Option<u32>),
    KeepRest(Option<u32>),
}

/// What a statement adds to a room: a cell and its value; a line of the sheet, of mark or of keep.
#[derive(Clone, Copy, Debug, PartialEq, Eq)]
pub enum Entry {
    Cell(Cell, u32),
    Line(bool, u32),
}

#[derive(Clone, Copy, Debug, PartialEq, Eq)]
pub struct State {
    pub expects: Expects,
    // the token that the statement began with
    pub token: Span,
    // what is ready to be written
    pub entry: Option<Entry>,
    // the cells and the lines of the sheet so far
    pub cells: u32,
    pub lines: u32,
    // the allowance, where it was given
    pub allowance: Option<u32>,
}

/// A fault and its token.
#[derive(Clone, Copy, Debug, PartialEq, Eq)]
pub struct Failure {
    pub fault: Fault,
    pub token: Span,
}

impl Fault {
    pub(crate) fn at(self, token: Span) -> Result<State, Failure>
        ensures { result ≡ fails self token }
    {
        Err(Failure { fault: self, token })
    }
}

impl State {
    pub fn start() -> State
        ensures { result ≡ start }
    {
        State {
            expects: Expects::Statement,
            token: Span { from: 0, to: 0 },
            entry: None,
            cells: 0,
            lines: 0,
            allowance: None,
        }
    }

    pub fn moved(self, expects: Expects) -> State
        ensures { result ≡ moved self expects }
    {
        State {
            expects,
            entry: None,
            ..self
        }
    }

    // A statement begins with a token.
    fn named(self, expects: Expects, token: Span) -> State
        ensures { result ≡ named self expects token }
    {
        State {
            expects,
            token,
            entry: None,
            ..self
        }
    }

    // A value: that of a cell is ready to be written.
    fn valued_by(self, cell: Option<Cell>, value: u32) -> State
        ensures { result ≡ valued_by self cell value }
    {
        let entry = match cell {
            Some(cell) => Some(Entry::Cell(cell, value)),
            None => None,
        };
        State {
            expects: Expects::Statement,
            entry,
            ..self
        }
    }

    fn limited_by(self, allowance: u32) -> State
        ensures { result ≡ limited_by self allowance }
    {
        State {
            expects: Expects::Statement,
            entry: None,
            allowance: Some(allowance),
            ..self
        }
    }

    // A line of the sheet is ready to be written.
    fn marked(self, mark: bool, slot: u32) -> State
        ensures { result ≡ marked self mark slot }
    {
        State {
            expects: Expects::Statement,
            entry: Some(Entry::Line(mark, slot)),
            ..self
        }
    }

    /// A statement begins: with a name, or with allowance, mark or keep.
    pub fn begun(self, token: Span, kind: Kind, slot: Option<u32>) -> Result<State, Failure>
        ensures { result ≡ begun self token kind slot }
    {
        match (kind, slot) {
            (Kind::Allowance, _) => Ok(self.named(Expects::AllowanceRest(slot), token)),
            (Kind::Mark, _) => Ok(self.named(Expects::MarkRest(slot), token)),
            (Kind::Keep, _) => Ok(self.named(Expects::KeepRest(slot), token)),
            (_, Some(slot)) => Ok(self.named(Expects::NameRest(slot), token)),
            (_, None) => Fault::NotDeclared.at(token),
        }
    }

    /// After a name: = where it was not given before, or [ where it is an array.
    pub fn name_then(
        self,
        token: Span,
        kind: Kind,
        slot: u32,
        given: bool,
        is_array: bool,
    ) -> Result<State, Failure>
        ensures { result ≡ name_then self token kind slot given is_array }
    {
        match kind {
            Kind::Equals if given => Fault::GivenTwice.at(self.token),
            Kind::Equals => Ok(self.moved(Expects::Value(None))),
            Kind::Open if is_array => Ok(self.moved(Expects::Index(slot))),
            Kind::Open => Fault::NoArray.at(token),
            _ => Fault::EqualsOrBracketExpected.at(token),
        }
    }

    /// ] after an index.
    pub fn closed(self, token: Span, kind: Kind, cell: Cell) -> Result<State, Failure>
        ensures { result ≡ closed self token kind cell }
    {
        match kind {
            Kind::Close => Ok(self.moved(Expects::CellEquals(cell))),
            _ => Fault::BracketExpected.at(token),
        }
    }

    /// = after a cell.
    pub fn assigned(self, token: Span, kind: Kind, cell: Cell) -> Result<State, Failure>
        ensures { result ≡ assigned self token kind cell }
    {
        match kind {
            Kind::Equals => Ok(self.moved(Expects::Value(Some(cell)))),
            _ => Fault::EqualsOrBracketExpected.at(token),
        }
    }

    /// A value of a cell, or else of a name.
    pub fn value_then(
        self,
        token: Span,
        number: Option<Number>,
        cell: Option<Cell>,
    ) -> Result<State, Failure>
        ensures { result ≡ value_then self token number cell }
    {
        match number {
            Some(Number::TooLarge) => Fault::NumberTooLarge.at(token),
            Some(number) => Ok(self.valued_by(cell, number.value())),
            None => Fault::ValueExpected.at(token),
        }
    }

    /// The allowance, which is given once.
    pub fn allowance_then(self, token: Span, number: Option<Number>) -> Result<State, Failure>
        ensures { result ≡ allowance_then self token number }
    {
        match number {
            Some(Number::TooLarge) => Fault::NumberTooLarge.at(token),
            Some(Number::Decimal(allowance)) => match self.allowance {
                Some(_) => Fault::AllowanceGivenTwice.at(self.token),
                None => Ok(self.limited_by(allowance)),
            },
            _ => Fault::ValueExpected.at(token),
        }
    }

    /// The name after mark or keep; full: the sheet's room has no line more.
    pub fn mark_then(
        self,
        token: Span,
        mark: bool,
        slot: Option<u32>,
        full: bool,
    ) -> Result<State, Failure>
        ensures { result ≡ mark_then self token mark slot full }
    {
        match slot {
            _ if full => Fault::SheetFull.at(self.token),
            Some(slot) => Ok(self.marked(mark, slot)),
            None => Fault::NotDeclared.at(token),
        }
    }

    /// Writes the cell or the line that is ready at the end of its room.
    pub fn write(self, cells: &mut [u32], sheet: &mut [u32])
        ensures cells_after { cells.new ≡ put_cell cells.old self }
        ensures sheet_after { sheet.new ≡ put_line sheet.old self }
    {
        match self.entry {
            Some(Entry::Cell(cell, value)) => {
                put_three(cells, self.cells, cell.slot, cell.index, value);
            }
            Some(Entry::Line(mark, slot)) => {
                put_three(sheet, self.lines, u32::from(mark), slot, slot);
            }
            None => {}
        }
    }

    /// The cell or the line that is ready is counted.
    pub fn counted(self) -> State
        ensures { result ≡ counted self }
    {
        let state = State {
            entry: None,
            ..self
        };
        match self.entry {
            Some(Entry::Cell(_, _)) => State {
                cells: self.cells.saturating_add(1),
                ..state
            },
            Some(Entry::Line(_, _)) => State {
                lines: self.lines.saturating_add(1),
                ..state
            },
            None => state,
        }
    }
}

// Writes three numbers after `n` times three; past the room's end nothing is written.
fn put_three(room: &mut [u32], n: u32, a: u32, b: u32, c: u32)
    ensures { room.new ≡ put_three room.old n a b c }
{
    let at = 3 * (n as usize);
    put(room, at, a);
    put(room, at + 1, b);
    put(room, at + 2, c);
}
