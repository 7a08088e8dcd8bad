// Evaluating a table in a setting (paper 01, "Results"; 22 and 23).
#![tactic(auto)]

mod reads; // a read along its array
mod room; // filling the work room
mod spend; // steps, the room's length and the allowance
mod turns; // the terms: which cell one asks for, and its value

ghost use Rattle.std.specs.Prelude.{◌≡◌, true, ◌≤◌, length};
ghost use Rattle.evaluate.specs.Evaluation.{ready_by, evaluation_in, evaluation, room_in, room_after};
ghost use Rattle.table.specs.Admission.{accepts};
ghost use Rattle.table.specs.WellFormed.{WellFormed};
ghost use Rattle.setting.specs.Check.{check_by};
ghost use Rattle.setting.specs.Interpretation.{in_cells};

pub use reads::{Found, find};
use setting::{Cells, Flat};
pub use spend::afford;
use table::Refusal;
pub use turns::{Turn, advance, number, step, turn_at, variable_number};

// The steps that were spent, and the allowance that is left.
#[derive(Clone, Copy)]
pub struct Spent {
    pub steps: u64,
    pub left: u64,
}

// The first refusal, or what a run spends, from what admission says: then 11 to 15, then 22 and 23 for each numbers a
// term.
pub fn ready<C: Cells>(
    table: &[u32],
    admitted: Result<(), Refusal>,
    values: &[u32],
    cells: &C,
    each: u32,
    allowance: u64,
    room: usize,
) -> Result<Spent, Refusal>
    requires well_formed { accepts admitted ≡ true → WellFormed 80000 table.now }
    requires each_bound { each ≤ 8 }
    ensures { result ≡ ready_by table.now admitted
        (check_by (C.cut cells.now) table.now values.now (C.at cells.now) (C.count cells.now))
        each allowance room }
{
    admitted?;
    setting::check(table, values, cells)?;
    afford(table, each, allowance, room)
}

// Evaluates a table in a setting whose cells are lent in any form: the front of work holds one value a term, 0 for an
// array.
pub fn evaluate_in<C: Cells>(
    table: &[u32],
    values: &[u32],
    cells: &C,
    allowance: u64,
    work: &mut [u32],
) -> Result<Spent, Refusal>
    ensures value { result ≡ evaluation_in (C.cut cells.now) table.now values.now (C.at cells.now)
        (C.count cells.now) allowance (length work.old) }
    ensures work_after { work.new ≡ room_in result table.now
        (in_cells values.now (C.at cells.now) (C.count cells.now)) work.old }
{
    let admitted = admission::admit_within(table, 80000);
    let spent = ready(table, admitted, values, cells, 1, allowance, work.len())?;
    room::fill(table, values, cells, work);
    Ok(spent)
}

// The same of a row of numbers, three a cell.
pub fn evaluate(
    table: &[u32],
    values: &[u32],
    cells: &[u32],
    allowance: u64,
    work: &mut [u32],
) -> Result<Spent, Refusal>
    ensures value { result ≡ evaluation table.now values.now cells.now allowance
        (length work.old) }
    ensures work_after { work.new
        ≡ room_after result table.now values.now cells.now work.old }
{
    evaluate_in(table, values, &Flat { numbers: cells }, allowance, work)
}
