// The C interface: each function answers 0, or the refusal's number with its place in answer[0] and the rest of
// answer 0. include/hiranthok.h declares them.
#![tactic(auto)]

ghost use Rattle.std.specs.Prelude.{◌≡◌, length};
ghost use Rattle.table.specs.Admission.{admission};
ghost use Rattle.finish.specs.Finished.{finishing};
ghost use Rattle.finish.specs.Finished as finishes;
ghost use Rattle.finish.specs.Laws as finishes-laws;
ghost use Rattle.evaluate.specs.Evaluation.{evaluation};
ghost use Rattle.evaluate.specs.Evaluation as evaluates;
ghost use Rattle.judge.specs.Judgement.{judgement};
ghost use Rattle.judge.specs.Judgement as judges;
ghost use Rattle.judge.specs.Demand3 as judges-laws;
ghost use Rattle.records.specs.Answers as recorded;
ghost use Rattle.records.specs.Laws as recorded-laws;
ghost use Rattle.printer.specs.Printing.{printing};
ghost use Rattle.printer.specs.Printing as prints;
ghost use Rattle.printer.specs.Meaning as prints-laws;
ghost use Rattle.parser.specs.Parsing.{parsing};
ghost use Rattle.parser.specs.Parsing as parses;
ghost use Rattle.meanings.specs.Promise as parses-laws;
ghost use Rattle.hiranthok.specs.Laws.{FinishingRecordPromise};
ghost use Rattle.replies.specs.Replies.{row, admission_reply, finishing_reply, evaluation_reply, judgement_reply};
ghost use Rattle.replies.specs.Replies.{printing_reply, parsing_reply};

use records::Cell;
use replies::Reply;

#[unsafe(no_mangle)]
pub extern "C" fn hiranthok_admit(table: &[u32], answer: &mut [u64; 4]) -> u32
    ensures value { result ≡ (admission_reply (admission table.now)).number }
    ensures answer_after { answer.new ≡ row (admission_reply (admission table.now)) }
{
    Reply::from(admission::admit(table)).deliver(answer)
}

// terms, number of C(rule), last
#[unsafe(no_mangle)]
pub extern "C" fn hiranthok_finish(table: &[u32], room: &mut [u32], answer: &mut [u64; 4]) -> u32
    ensures value { result ≡ (finishing_reply (finishing table.now (length room.old))).number }
    ensures answer_after { answer.new
        ≡ row (finishing_reply (finishing table.now (length room.old))) }
    ensures room_after { room.new
        ≡ finishes.room_after (finishing table.now (length room.old)) table.now
        room.old }
    ensures finishing_promise { finishes-laws.FinishingPromise table.now room.new
        (finishing table.now (length room.old)) }
    ensures finishing_record_promise { FinishingRecordPromise table.now room.new
        (finishing table.now (length room.old)) }
{
    Reply::from(finish::finish(table, room)).deliver(answer)
}

// steps, left
#[unsafe(no_mangle)]
pub extern "C" fn hiranthok_evaluate(
    table: &[u32],
    values: &[u32],
    cells: &[u32],
    allowance: u64,
    work: &mut [u32],
    answer: &mut [u64; 4],
) -> u32
    ensures value { result ≡ (evaluation_reply (evaluation table.now values.now cells.now
        allowance (length work.old))).number }
    ensures answer_after { answer.new
        ≡ row (evaluation_reply (evaluation table.now values.now cells.now allowance
        (length work.old))) }
    ensures work_after { work.new
        ≡ evaluates.room_after (evaluation table.now values.now cells.now allowance
        (length work.old)) table.now values.now cells.now
        work.old }
{
    Reply::from(evaluate::evaluate(table, values, cells, allowance, work)).deliver(answer)
}

// Under a mark sheet, which may be empty: rule, condition, steps, left.
#[unsafe(no_mangle)]
pub extern "C" fn hiranthok_judge(
    table: &[u32],
    sheet: &[u32],
    values: &[u32],
    cells: &[u32],
    allowance: u64,
    work: &mut [u32],
    answer: &mut [u64; 4],
) -> u32
    ensures value { result ≡ (judgement_reply (judgement table.now sheet.now values.now
        cells.now allowance (length work.old))).number }
    ensures answer_after { answer.new ≡ row (judgement_reply (judgement table.now
        sheet.now values.now cells.now allowance (length work.old))) }
    ensures work_after { work.new ≡ judges.room_after (judgement table.now sheet.now
        values.now cells.now allowance (length work.old))
        table.now sheet.now values.now
        cells.now work.old }
    ensures judgement_promise { judges-laws.JudgementPromise table.now sheet.now values.now
        cells.now (judgement table.now sheet.now values.now
        cells.now allowance (length work.old)) }
    ensures flat_judgement_promise { recorded-laws.FlatJudgementPromise table.now sheet.now values.now
        cells.now (judgement table.now sheet.now values.now
        cells.now allowance (length work.old)) }
{
    Reply::from(judge::judge(table, sheet, values, cells, allowance, work)).deliver(answer)
}

// The record entrance: the cells as a row of records; 11 cannot occur. Steps, left.
#[unsafe(no_mangle)]
pub extern "C" fn hiranthok_evaluate_records(
    table: &[u32],
    values: &[u32],
    cells: &[Cell],
    allowance: u64,
    work: &mut [u32],
    answer: &mut [u64; 4],
) -> u32
    ensures value { result ≡ (evaluation_reply (recorded.evaluation table.now values.now
        cells.now allowance (length work.old))).number }
    ensures answer_after { answer.new
        ≡ row (evaluation_reply (recorded.evaluation table.now values.now cells.now
        allowance (length work.old))) }
    ensures work_after { work.new
        ≡ recorded.evaluation_room (recorded.evaluation table.now values.now cells.now
        allowance (length work.old)) table.now values.now cells.now
        work.old }
{
    Reply::from(records::evaluate_records(table, values, cells, allowance, work)).deliver(answer)
}

// The record entrance, under a mark sheet: rule, condition, steps, left.
#[unsafe(no_mangle)]
pub extern "C" fn hiranthok_judge_records(
    table: &[u32],
    sheet: &[u32],
    values: &[u32],
    cells: &[Cell],
    allowance: u64,
    work: &mut [u32],
    answer: &mut [u64; 4],
) -> u32
    ensures value { result ≡ (judgement_reply (recorded.judgement table.now sheet.now
        values.now cells.now allowance (length work.old))).number }
    ensures answer_after { answer.new ≡ row (judgement_reply (recorded.judgement table.now
        sheet.now values.now cells.now allowance (length work.old))) }
    ensures work_after { work.new ≡ recorded.judgement_room (recorded.judgement table.now
        sheet.now values.now cells.now allowance (length work.old))
        table.now sheet.now values.now
        cells.now work.old }
    ensures record_judgement_promise { recorded-laws.RecordJudgementPromise table.now sheet.now
        values.now cells.now (recorded.judgement table.now sheet.now
        values.now cells.now allowance (length work.old)) }
{
    Reply::from(records::judge_records(table, sheet, values, cells, allowance, work)).deliver(
        answer,
    )
}

// bytes written
#[unsafe(no_mangle)]
pub extern "C" fn hiranthok_print(table: &[u32], text: &mut [u8], answer: &mut [u64; 4]) -> u32
    ensures value { result ≡ (printing_reply (printing table.now (length text.old))).number }
    ensures answer_after { answer.new
        ≡ row (printing_reply (printing table.now (length text.old))) }
    ensures text_after { text.new
        ≡ prints.room_after (printing table.now (length text.old)) table.now
        text.old }
    ensures printing_promise { prints-laws.PrintingPromise table.now text.new
        (printing table.now (length text.old)) }
{
    Reply::from(printer::print(table, text)).deliver(answer)
}

// numbers written
#[unsafe(no_mangle)]
pub extern "C" fn hiranthok_parse(text: &[u8], room: &mut [u32], answer: &mut [u64; 4]) -> u32
    ensures value { result ≡ (parsing_reply (parsing text.now (length room.old))).number }
    ensures answer_after { answer.new
        ≡ row (parsing_reply (parsing text.now (length room.old))) }
    ensures room_after { room.new
        ≡ parses.room_after (parsing text.now (length room.old)) text.now
        room.old }
    ensures parsing_promise { parses-laws.ParsingPromise text.now
        (parsing text.now (length room.old)) }
{
    Reply::from(parser::parse(text, room)).deliver(answer)
}
