// Judging a setting under a mark sheet (paper 01, "Results"; demand 3; paper 02, request 06).
#![tactic(auto)]

mod leaves; // the variables that a read meets
mod reads; // a read along its array: value and truth
mod room; // filling the work room
mod terms; // one term: value and truth
mod turns; // what a term asks

ghost use Rattle.std.specs.Prelude.{◌≡◌, length};
ghost use Rattle.setting.specs.Interpretation.{in_cells};
ghost use Rattle.sheets.specs.Marks.{marks_under};
ghost use Rattle.judge.specs.Judgement.{admission_under, verdict_by, passes, judgement_in, judgement, room_in, room_after};
ghost use Rattle.judge.specs.Demand3.{JudgementPromise};

use evaluate::Spent;
pub use reads::Labelled;
use setting::{Cells, Flat};
use table::{Refusal, WORDS};
pub use terms::step;
pub use turns::{Turn, first_turn};

// Rule and condition, the steps that were spent, and the allowance that is left.
#[derive(Clone, Copy)]
pub struct Verdict {
    pub rule: bool,
    pub condition: bool,
    pub steps: u64,
    pub left: u64,
}

// Rule and condition of a run that was afforded; a refusal stands.
pub fn answered(
    afforded: Result<Spent, Refusal>,
    rule: bool,
    condition: bool,
) -> Result<Verdict, Refusal>
    ensures { result ≡ verdict_by afforded rule condition }
{
    let spent = afforded?;
    Ok(Verdict {
        rule,
        condition,
        steps: spent.steps,
        left: spent.left,
    })
}

// A setting passes just where rule and condition are both true.
pub fn passes(v: Verdict) -> bool
    ensures { result ≡ passes v }
{
    v.rule & v.condition
}

// Whether a table and a sheet may be judged with, else the first refusal: 1 to 10, then 16.
pub fn admit_under(table: &[u32], sheet: &[u32]) -> Result<(), Refusal>
    ensures { result ≡ admission_under table.now sheet.now }
{
    admission::admit(table)?;
    sheets::check(sheet)
}

// Judges a setting under a sheet, its cells lent in any form: rule and condition, steps and allowance left. The front of
// work holds the n values, then the n truths.
pub fn judge_in<C: Cells>(
    table: &[u32],
    sheet: &[u32],
    values: &[u32],
    cells: &C,
    allowance: u64,
    work: &mut [u32],
) -> Result<Verdict, Refusal>
    ensures value { result ≡ judgement_in (C.cut cells.now) table.now sheet.now values.now
        (C.at cells.now) (C.count cells.now) allowance (length work.old) }
    ensures work_after { work.new ≡ room_in result table.now (marks_under sheet.now)
        (in_cells values.now (C.at cells.now) (C.count cells.now)) work.old }
{
    let admitted = admit_under(table, sheet);
    let spent = evaluate::ready(table, admitted, values, cells, 2, allowance, work.len())?;
    let said = sheets::said(sheet);
    room::fill(table, &said, values, cells, work);
    let terms = table.len() / WORDS;
    let last = terms - 1;
    answered(Ok(spent), work[last] == 1, work[terms + last] == 1)
}

// The same of a row of numbers, three a cell. The first two clauses say what is answered and what the room holds. The
// third is demand 3 of this call, where it is not refused: (a) every other judgement of this table under this sheet that
// is not refused, in a setting that agrees on the inputs that are unmarked under it, whatever its rows, its allowance and
// its room, has this condition and these steps, and where the condition is true this rule; (b) where the setting passes,
// the rule's value is true in every fitting interpretation that agrees with the setting on these inputs.
pub fn judge(
    table: &[u32],
    sheet: &[u32],
    values: &[u32],
    cells: &[u32],
    allowance: u64,
    work: &mut [u32],
) -> Result<Verdict, Refusal>
    ensures value { result ≡ judgement table.now sheet.now values.now
        cells.now allowance (length work.old) }
    ensures work_after { work.new ≡ room_after result table.now sheet.now values.now
        cells.now work.old }
    ensures judgement_promise { JudgementPromise table.now sheet.now values.now
        cells.now result }
{
    judge_in(
        table,
        sheet,
        values,
        &Flat { numbers: cells },
        allowance,
        work,
    )
}
