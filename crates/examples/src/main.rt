// Runs the worked examples of paper 01, and our own, that standard input describes, and prints a line for each. The
// file stdin says how they are written; what is printed is held to the file stdout.
#![tactic(auto)]

mod routines; // calling a routine, and printing what it answers
mod shows; // printing answers and rooms

use lines::parts;
use lines::parts::Next;
use lines::tokens::Token;
use std::io::{Print, Result, Stdout};

// Takes a line, and answers what the next line goes on with. After a routine's word the rest of the line is the
// example's name.
fn run_line(output: Stdout, line: &[u8], numbers: &mut [u32], part: Next) -> Result<Next> {
    let mut next = part;
    let mut token = Token::Nothing;
    for (i, b) in line.iter().enumerate() {
        if *b != b' ' && *b != b';' {
            token = token.with_byte(*b);
            continue;
        }
        next = next.take(numbers, token);
        token = Token::Nothing;
        match next {
            Next::Routine(routine) => {
                return routines::run(output, numbers, routine, &line[i + 1..]);
            }
            Next::Wrong => return Ok(Next::Wrong),
            Next::Nothing | Next::Part(_) => {}
        }
        if *b == b';' {
            return Ok(next);
        }
    }
    Ok(next.take(numbers, token))
}

// What a line goes on with; nothing, where the line is wrong, which is told.
fn checked(output: Stdout, next: Next, line: u64) -> Result<Next> {
    match next {
        Next::Nothing | Next::Part(_) => Ok(next),
        Next::Routine(_) | Next::Wrong => {
            println!(output; "stdin is wrong in line {line}")?;
            Ok(Next::Nothing)
        }
    }
}

// Takes one line after another. A last line without an end is wrong.
fn run_lines(output: Stdout, text: &[u8], numbers: &mut [u32]) -> Result<()> {
    let mut next = Next::Nothing;
    for (k, line) in (1..u64::MAX).zip(text.split_inclusive(|b| *b == b'\n')) {
        let after = match line.strip_suffix(b"\n") {
            Some(whole) => run_line(output, whole, numbers, next)?,
            None => Next::Wrong,
        };
        next = checked(output, after, k)?;
    }
    Ok(())
}

fn main(rt: HostRuntime) -> Result<()> {
    let mut text = io::large_buffer();
    let got = io::read_full(0, &mut text);
    let mut numbers = parts::room();
    run_lines(rt.stdout(), &text[..got], &mut numbers)
}
