// The statements of a setting, token by token. The first fault ends them.
ghost use Rattle.std.specs.Prelude.{◌≡◌, ◌+◌, ◌<◌, get_or};
ghost use Rattle.assignments.specs.Statements.{listed_in, given_before, after_name, after_allowance, after_mark};
ghost use Rattle.assignments.specs.Statements.{indexed, index_at, step, work_of};
ghost use Rattle.assignments.specs.Reading.{worked};

use crate::Fault;
use crate::names::slot_of;
use crate::seek::place_after;
use crate::state::{Cell, Expects, Failure, State};
use crate::tokens::{Kind, Number, Tokens, number_of};
use outline::Span;
use table::{array, sort_at};

/// What a setting is read by: the names, a line each, the table of the terms, and the text.
#[derive(Clone, Copy)]
pub struct Source<'a> {
    pub names: &'a [u8],
    pub table: &'a [u32],
    pub text: &'a [u8],
}

// A number of a room, 0 past its end.
fn number_in(row: &[u32], k: usize) -> u32
    ensures { result ≡ get_or row.now k 0 }
{
    row.get(k).copied().unwrap_or(0)
}

// Numbers `k` and `k` + 1 of a room: one look at its end serves both, where it has them.
fn pair_in(row: &[u32], k: usize) -> (u32, u32)
    requires { k < 18446744073709551615 }
    ensures { result ≡ (get_or row.now k 0, get_or row.now (k + 1) 0) }
{
    if k + 1 < row.len() {
        return (row[k], row[k + 1]);
    }
    (number_in(row, k), number_in(row, k + 1))
}

// A cell is among the first `count` of the room.
fn listed_in(cells: &[u32], count: u32, cell: Cell) -> bool
    ensures { result ≡ listed_in cells.now count cell.slot cell.index }
{
    // The clause reads a number past the room's end as 0; chunks_exact would leave its cell out.
    for n in (0..count as usize).rev() {
        let (slot, index) = pair_in(cells, 3 * n);
        if (slot == cell.slot) & (index == cell.index) {
            return true;
        }
    }
    false
}

impl State {
    // The name was given a value before the place where it stands.
    fn given_before(self, text: &[u8]) -> bool
        ensures { result ≡ given_before text.now self }
    {
        place_after(text, self.token.of(text), true, 0) < self.token.from
    }

    // After a name: its slot, where it is declared.
    fn after_name(self, source: Source, token: Span, slot: Option<u32>) -> Result<State, Failure>
        ensures { result ≡ after_name source.entry.table.now source.entry.text.now self token slot }
    {
        let Some(slot) = slot else {
            return Fault::NotDeclared.at(self.token);
        };
        let kind = Kind::of(token.of(source.text));
        let given = kind == Kind::Equals && self.given_before(source.text);
        self.name_then(token, kind, slot, given, array(sort_at(source.table, slot)))
    }

    // After allowance: = or [ after a name, else the allowance.
    fn after_allowance(
        self,
        source: Source,
        token: Span,
        slot: Option<u32>,
    ) -> Result<State, Failure>
        ensures { result ≡ after_allowance source.entry.table.now source.entry.text.now self token slot }
    {
        let word = token.of(source.text);
        if Kind::of(word).assigns() {
            return self.after_name(source, token, slot);
        }
        self.allowance_then(token, number_of(word))
    }

    // After mark or keep: = or [ after a name, else the name that is marked.
    fn after_mark(
        self,
        source: Source,
        full: bool,
        token: Span,
        mark: bool,
        slot: Option<u32>,
    ) -> Result<State, Failure>
        ensures { result ≡ after_mark source.entry.names.now source.entry.table.now
            source.entry.text.now full self token mark slot }
    {
        let word = token.of(source.text);
        if Kind::of(word).assigns() {
            return self.after_name(source, token, slot);
        }
        self.mark_then(token, mark, slot_of(source.names, word), full)
    }

    // An index: its cell is a new one, and the room has a cell more.
    fn indexed(self, cells: &[u32], token: Span, cell: Cell) -> Result<State, Failure>
        ensures { result ≡ indexed cells.now self token cell }
    {
        if listed_in(cells, self.cells, cell) {
            return Fault::CellGivenTwice.at(token);
        }
        if cells.len() / 3 <= self.cells as usize {
            return Fault::CellsFull.at(token);
        }
        Ok(self.moved(Expects::Close(cell)))
    }

    // An index at its token.
    fn index_at(self, text: &[u8], cells: &[u32], token: Span, slot: u32) -> Result<State, Failure>
        ensures { result ≡ index_at text.now cells.now self token slot }
    {
        match number_of(token.of(text)) {
            Some(Number::Decimal(index)) => self.indexed(cells, token, Cell { slot, index }),
            Some(Number::Binary(index)) => self.indexed(cells, token, Cell { slot, index }),
            Some(Number::TooLarge) => Fault::NumberTooLarge.at(token),
            _ => Fault::IndexExpected.at(token),
        }
    }

    // One token more; full: the sheet's room has no line more.
    #[tactic(auto, unfolding(crate::specs::Statements::step))]
    fn step(self, source: Source, cells: &[u32], full: bool, token: Span) -> Result<State, Failure>
        ensures { result
            ≡ step source.entry.names.now source.entry.table.now
            source.entry.text.now cells.now full self token }
    {
        let word = token.of(source.text);
        match self.expects {
            Expects::Statement => self.begun(token, Kind::of(word), slot_of(source.names, word)),
            Expects::NameRest(slot) => self.after_name(source, token, Some(slot)),
            Expects::Index(slot) => self.index_at(source.text, cells, token, slot),
            Expects::Close(cell) => self.closed(token, Kind::of(word), cell),
            Expects::CellEquals(cell) => self.assigned(token, Kind::of(word), cell),
            Expects::Value(cell) => self.value_then(token, number_of(word), cell),
            Expects::AllowanceRest(slot) => self.after_allowance(source, token, slot),
            Expects::MarkRest(slot) => self.after_mark(source, full, token, true, slot),
            Expects::KeepRest(slot) => self.after_mark(source, full, token, false, slot),
        }
    }
}

/// The tokens in order, up to the first fault. The cells and the sheet stand in their rooms.
pub fn run(source: Source, cells: &mut [u32], sheet: &mut [u32]) -> Result<State, Failure>
    ensures { work_of result cells.new sheet.new ≡ worked source.entry.names.now
        source.entry.table.now source.entry.text.now cells.old sheet.old }
{
    let mut state = State::start();
    for token in Tokens::new(source.text) {
        let full = sheet.len() / 3 <= state.lines as usize;
        state = state.step(source, cells, full, token)?;
        state.write(cells, sheet);
        state = state.counted();
    }
    Ok(state)
}
