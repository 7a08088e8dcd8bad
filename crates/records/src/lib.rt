// The second entrance (paper 01, "A setting"): the cells as a row of records. Equal answers; 11 cannot occur.
#![tactic(auto)]

mod rows; // the records as cells

ghost use Rattle.std.specs.Prelude.{◌≡◌, length};
ghost use Rattle.records.specs.Answers.{evaluation, evaluation_room, judgement, judgement_room};
ghost use Rattle.records.specs.Laws.{RecordJudgementPromise};

use evaluate::Spent;
use judge::Verdict;
pub use rows::Records;
pub use setting::Cell;
use table::Refusal;

// Evaluates a table in a setting of records: the front of work holds one value a term, 0 for an array.
pub fn evaluate_records(
    table: &[u32],
    values: &[u32],
    cells: &[Cell],
    allowance: u64,
    work: &mut [u32],
) -> Result<Spent, Refusal>
    ensures value { result ≡ evaluation table.now values.now cells.now allowance
        (length work.old) }
    ensures work_after { work.new
        ≡ evaluation_room result table.now values.now cells.now work.old }
{
    evaluate::evaluate_in(table, values, &Records { cells }, allowance, work)
}

// Judges a setting of records under a sheet: rule and condition, steps and allowance left. The front of work holds the n
// values, then the n truths. The third clause is demand 3 of this call, where it is not refused: against every other
// judgement of this table under this sheet that is not refused, through either entrance, in a setting that agrees on
// the inputs that are unmarked under it; and, where the setting passes, in every fitting interpretation that agrees
// with it.
pub fn judge_records(
    table: &[u32],
    sheet: &[u32],
    values: &[u32],
    cells: &[Cell],
    allowance: u64,
    work: &mut [u32],
) -> Result<Verdict, Refusal>
    ensures value { result ≡ judgement table.now sheet.now values.now
        cells.now allowance (length work.old) }
    ensures work_after { work.new ≡ judgement_room result table.now sheet.now
        values.now cells.now work.old }
    ensures record_judgement_promise { RecordJudgementPromise table.now sheet.now values.now
        cells.now result }
{
    judge::judge_in(table, sheet, values, &Records { cells }, allowance, work)
}
