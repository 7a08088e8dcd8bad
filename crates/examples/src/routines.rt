// Calling a routine with the parts as they are, and printing what it answers. A room has 7 at each place.
use crate::shows::{show_admission, show_evaluation, show_finishing, show_judgement, show_room};
use lines::parts;
use lines::parts::{Next, Part, Routine, single};
use std::io::{Print, Result, Stdout};

// The longest room.
const LONGEST: u32 = 256;

fn evaluate(output: Stdout, numbers: &[u32], table: &[u32], room: &mut [u32]) -> Result<()> {
    let values = Part::Values.row(numbers);
    let cells = Part::Cells.row(numbers);
    let allowance = u64::from(single(numbers, Part::Allowance));
    show_evaluation(
        output,
        evaluate::evaluate(table, values, cells, allowance, room),
    )?;
    show_room(output, room)
}

fn judge(output: Stdout, numbers: &[u32], table: &[u32], room: &mut [u32]) -> Result<()> {
    let sheet = Part::Sheet.row(numbers);
    let values = Part::Values.row(numbers);
    let cells = Part::Cells.row(numbers);
    let allowance = u64::from(single(numbers, Part::Allowance));
    show_judgement(
        output,
        judge::judge(table, sheet, values, cells, allowance, room),
    )?;
    show_room(output, room)
}

// Calls a routine.
fn call(
    output: Stdout,
    numbers: &[u32],
    table: &[u32],
    routine: Routine,
    room: &mut [u32],
) -> Result<()> {
    match routine {
        Routine::Admit => show_admission(output, admission::admit(table)),
        Routine::AdmitWithin => {
            let limit = single(numbers, Part::Limit);
            show_admission(output, admission::admit_within(table, limit))
        }
        Routine::Evaluate => evaluate(output, numbers, table, room),
        Routine::Judge => judge(output, numbers, table, room),
        Routine::Finish => {
            show_finishing(output, finish::finish(table, room))?;
            show_room(output, room)
        }
        Routine::Extent => show_finishing(output, finish::finish(table, room)),
    }
}

// Runs an example and prints its line. A room of more than 256 numbers is wrong. Where numbers are for a finished table,
// the routine is called with what finish leaves of the table in a room of so many.
pub fn run(output: Stdout, numbers: &[u32], routine: Routine, name: &[u8]) -> Result<Next> {
    let length = single(numbers, Part::Room);
    let count = single(numbers, Part::Finished);
    if LONGEST < length || LONGEST < count {
        return Ok(Next::Wrong);
    }
    let mut room = [7u32; 256];
    let room = &mut room[..length as usize];
    let table = parts::table(numbers);
    output.write_all(name)?;
    if count == 0 {
        call(output, numbers, table, routine, room)?;
    } else {
        let mut finished = [7u32; 256];
        let finished = &mut finished[..count as usize];
        let _ = finish::finish(table, finished);
        call(output, numbers, finished, routine, room)?;
    }
    println!(output; "")?;
    Ok(Next::Nothing)
}
