// A setting by name: reading it into values, cells and a sheet, and where its values stand in the text.
#![tactic(auto)]

mod names; // names by their lines
mod seek; // where values stand
mod state; // how far the statements are read
mod statements; // the statements of a setting
mod tokens; // the tokens of a text
mod values; // the values of the names

ghost use Rattle.std.specs.Prelude.{◌≡◌};
ghost use Rattle.assignments.specs.Reading.{fault_number, name_count, error_at, error_at_end, setting_of, answer};
ghost use Rattle.assignments.specs.Reading.{reading, values_after, worked};

use outline::Span;
pub use seek::{allowance_place, by_parts, cell_place, value_place};
use state::{Expects, Failure, State};
use statements::Source;
use values::{fill, missing};

/// How many numbers were written at the rooms' fronts, a value a name, three numbers a cell and a line of the sheet, and
/// the allowance.
#[derive(Clone, Copy, Debug, PartialEq, Eq)]
pub struct Setting {
    pub values: u32,
    pub cells: u32,
    pub sheet: u32,
    pub allowance: u32,
}

/// What is wrong with a setting.
#[derive(Clone, Copy, Debug, PartialEq, Eq)]
pub enum Fault {
    NotDeclared,
    GivenTwice,
    // at its index
    CellGivenTwice,
    // =, or [ for an array
    EqualsOrBracketExpected,
    ValueExpected,
    // 2^32 or more
    NumberTooLarge,
    // at the bracket
    NoArray,
    // ]
    BracketExpected,
    AllowanceGivenTwice,
    IndexExpected,
    // a name has no value
    ValueMissing,
    // at the index
    CellsFull,
    // the text ends in a statement
    StatementUnfinished,
    // at mark or keep
    SheetFull,
}

impl Fault {
    /// Its number, from 1 in the order above.
    pub fn number(self) -> u32
        ensures { result ≡ fault_number self }
    {
        match self {
            Fault::NotDeclared => 1,
            Fault::GivenTwice => 2,
            Fault::CellGivenTwice => 3,
            Fault::EqualsOrBracketExpected => 4,
            Fault::ValueExpected => 5,
            Fault::NumberTooLarge => 6,
            Fault::NoArray => 7,
            Fault::BracketExpected => 8,
            Fault::AllowanceGivenTwice => 9,
            Fault::IndexExpected => 10,
            Fault::ValueMissing => 11,
            Fault::CellsFull => 12,
            Fault::StatementUnfinished => 13,
            Fault::SheetFull => 14,
        }
    }
}

/// What is wrong, and the token at fault: the line and column of its first byte, counted from 1, and its bytes, which go
/// from one up to another. At the end of the text there is no column, and from is to: the slot of the name that has no
/// value, or the text's length.
#[derive(Clone, Copy, Debug, PartialEq, Eq)]
pub struct Error {
    pub kind: Fault,
    pub line: u64,
    pub column: Option<u64>,
    pub from: usize,
    pub to: usize,
}

// The count of names: their line feeds.
fn name_count(names: &[u8]) -> u32
    ensures { result ≡ name_count names.now }
{
    let line = outline::line_of(names, names.len());
    u32::try_from(line.saturating_sub(1)).unwrap_or(u32::MAX)
}

fn error_at(text: &[u8], failure: Failure) -> Error
    ensures { result ≡ error_at text.now failure.fault failure.token }
{
    let Span { from, to } = failure.token;
    Error {
        kind: failure.fault,
        line: outline::line_of(text, from),
        column: Some(outline::column_of(text, from)),
        from,
        to,
    }
}

fn error_at_end(text: &[u8], kind: Fault, place: usize) -> Error
    ensures { result ≡ error_at_end text.now kind place }
{
    Error {
        kind,
        line: outline::line_of(text, text.len()),
        column: None,
        from: place,
        to: place,
    }
}

fn setting_of(count: u32, state: State) -> Setting
    ensures { result ≡ setting_of count state }
{
    Setting {
        values: count,
        cells: state.cells.saturating_mul(3),
        sheet: state.lines.saturating_mul(3),
        allowance: state.allowance.unwrap_or(8192),
    }
}

// What a setting answers that is read to a state.
fn answer(names: &[u8], text: &[u8], read: Result<State, Failure>) -> Result<Setting, Error>
    ensures { result ≡ answer names.now text.now read }
{
    let state = match read {
        Ok(state) => state,
        Err(failure) => return Err(error_at(text, failure)),
    };
    let Expects::Statement = state.expects else {
        return Err(error_at_end(text, Fault::StatementUnfinished, text.len()));
    };
    let count = name_count(names);
    match missing(names, text, count) {
        Some(slot) => Err(error_at_end(text, Fault::ValueMissing, slot as usize)),
        None => Ok(setting_of(count, state)),
    }
}

/// Reads a setting. Names are lines, name k is the variable of slot k and term k of the table. The cells and the lines of
/// the sheet that are read stand at the front of their rooms, after a fault too; the values where there is no fault.
pub fn read(
    names: &[u8],
    table: &[u32],
    text: &[u8],
    values: &mut [u32],
    cells: &mut [u32],
    sheet: &mut [u32],
) -> Result<Setting, Error>
    ensures value { result
        ≡ reading names.now table.now text.now cells.old
        sheet.old }
    ensures values_after { values.new
        ≡ values_after result names.now text.now values.old }
    ensures cells_after { cells.new
        ≡ (worked names.now table.now text.now cells.old
        sheet.old).cells }
    ensures sheet_after { sheet.new
        ≡ (worked names.now table.now text.now cells.old
        sheet.old).sheet }
{
    let read = statements::run(Source { names, table, text }, cells, sheet);
    let setting = answer(names, text, read)?;
    fill(names, text, setting.values, values);
    Ok(setting)
}
