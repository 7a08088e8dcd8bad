// Printing answers and rooms.
use evaluate::Spent;
use finish::Extent;
use judge::Verdict;
use std::io;
use std::io::{Print, Stdout};
use table::Refusal;

fn show_refusal(output: Stdout, refusal: Refusal) -> io::Result<()> {
    print!(output; ": refused {} at {}", refusal.number, refusal.place)
}

pub fn show_admission(output: Stdout, answer: Result<(), Refusal>) -> io::Result<()> {
    match answer {
        Ok(()) => print!(output; ": admitted"),
        Err(refusal) => show_refusal(output, refusal),
    }
}

// The steps that were taken, and those that are left.
pub fn show_evaluation(output: Stdout, answer: Result<Spent, Refusal>) -> io::Result<()> {
    match answer {
        Ok(spent) => print!(output; ": steps {}, left {}", spent.steps, spent.left),
        Err(refusal) => show_refusal(output, refusal),
    }
}

pub fn show_judgement(output: Stdout, answer: Result<Verdict, Refusal>) -> io::Result<()> {
    match answer {
        Ok(v) => {
            let passes = judge::passes(v);
            print!(output;
                ": rule {}, condition {}, passes {passes}",
                v.rule, v.condition
            )?;
            print!(output; ", steps {}, left {}", v.steps, v.left)
        }
        Err(refusal) => show_refusal(output, refusal),
    }
}

pub fn show_finishing(output: Stdout, answer: Result<Extent, Refusal>) -> io::Result<()> {
    match answer {
        Ok(e) => {
            print!(output;
                ": terms {}, condition {}, last {}",
                e.terms, e.condition, e.last
            )
        }
        Err(refusal) => show_refusal(output, refusal),
    }
}

// The numbers of a room.
pub fn show_room(output: Stdout, room: &[u32]) -> io::Result<()> {
    print!(output; "; room")?;
    for x in room {
        print!(output; " {x}")?;
    }
    Ok(())
}
