// What a line goes on with, by number, for who holds it so: 0 nothing yet, then the parts and the routines in their order,
// then what is wrong. Other numbers are taken as well.
ghost use Rattle.std.specs.Prelude.{◌≡◌};
ghost use Rattle.lines.specs.Numbers.{next_of, part_after, after};

use crate::parts::{Next, Part, Routine};
use crate::tokens::Token;

// What a number stands for.
fn next_of(number: u32) -> Next
    ensures { result ≡ next_of number }
{
    match number {
        0 => Next::Nothing,
        1 => Next::Part(Part::Allowance),
        2 => Next::Part(Part::Room),
        3 => Next::Part(Part::Finished),
        4 => Next::Part(Part::Limit),
        5 => Next::Part(Part::Constants),
        6 => Next::Part(Part::Values),
        7 => Next::Part(Part::Cells),
        8 => Next::Part(Part::Sheet),
        9 => Next::Part(Part::Table),
        10 => Next::Routine(Routine::Admit),
        11 => Next::Routine(Routine::AdmitWithin),
        12 => Next::Routine(Routine::Evaluate),
        13 => Next::Routine(Routine::Judge),
        14 => Next::Routine(Routine::Finish),
        15 => Next::Routine(Routine::Extent),
        _ => Next::Wrong,
    }
}

// Takes a token, and answers the number of what the line goes on with.
pub fn taken(numbers: &mut [u32], part: u32, token: Token) -> u32
    ensures value { result ≡ part_after numbers.old part token }
    ensures numbers_after { numbers.new ≡ after numbers.old part token }
{
    match token {
        Token::Nothing => part,
        _ => next_of(part).take(numbers, token).number(),
    }
}
