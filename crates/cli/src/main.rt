// The program: commands on case files and rules (docs/PROGRAM.md). Its status goes to descriptor 3.
#![tactic(auto)]

ghost use Rattle.std.specs.Prelude.{◌<◌};

mod answers; // a command on a case
mod failures; // what is told on standard error
mod files; // reading a file, in a small room or a large one
mod printed; // the commands print and print-finished
mod rooms; // rooms on the stack
mod rules; // a rule and its setting

use failures::{complained, failed_name};
use request::arguments;
use request::arguments::{Argument, Command, Options, Request};
use request::status::{Answer, Run, Status};
use std::io::Print;
use std::process::ExitCode;
use std::rt::Env;

// What a shell says of a program that was ended since nobody reads any more what it writes (SIGPIPE).
const PIPE: u8 = 141;

// What is answered: a command, with its options, among so many arguments.
#[derive(Clone, Copy)]
struct Question {
    command: Command,
    options: Options,
    count: usize,
}

// An option is passed by, a file is answered; a setting was, with its rule.
fn answer_word(rt: HostRuntime, asked: Question, i: usize, run: &mut Run, word: &[u8])
    requires { i < asked.count }
{
    let argument = Argument::of_word(word, run.ended);
    if argument != Argument::File {
        run.ended |= argument == Argument::End;
    } else if run.paired {
        run.paired = false;
    } else {
        let next = arguments::next_file(&rt, i + 1, asked.count, run.ended);
        let request = Request::new(asked.command, asked.options, run.answers == 0, next);
        run.add(files::answer_file(rt, request, word));
    }
}

// One argument after the command.
fn answer_argument(rt: HostRuntime, asked: Question, i: usize, run: &mut Run)
    requires { i < asked.count }
{
    let mut word = io::buffer();
    match rt.arg(i, &mut word) {
        Ok(length) => answer_word(rt, asked, i, run, &word[..length]),
        Err(e) => run.add(Answer {
            status: failed_name(rt, e),
            paired: false,
        }),
    }
}

// Each argument after the command, until a write fails.
fn answer_all(rt: HostRuntime, asked: Question) -> Status {
    let mut run: Run = Run::default();
    for i in 2..asked.count {
        if run.status.is_broken() {
            break;
        }
        answer_argument(rt, asked, i, &mut run);
    }
    run.status.told()
}

// The status of the command line.
fn answer(rt: HostRuntime) -> Status {
    let given = Command::given(&rt);
    let count = arguments::count_of(&rt);
    let options = Options::among(&rt, count);
    match given {
        Some(command) if options.fit(given) => {
            answer_all(
                rt,
                Question {
                    command,
                    options,
                    count,
                },
            )
        }
        _ => {
            let usage = b"hiranthok: usage: see ./hiranthok help\n";
            complained(rt.stderr().write_all(usage), Status::Error)
        }
    }
}

fn main(rt: HostRuntime) -> ExitCode {
    let ends = answer(rt);
    if ends == Status::Closed {
        return ExitCode::from(PIPE);
    }
    ends.tell();
    ExitCode::SUCCESS
}
