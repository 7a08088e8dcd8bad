// Reading a file. One of up to 65,535 bytes is answered in small rooms; the large ones are on the stack only where they
// are needed.
ghost use Rattle.std.specs.Prelude.{length};
ghost use Rattle.cases.specs.Reading.{Placed};

use crate::answers::{Subject, Work};
use crate::failures::{failed, faulted, written};
use crate::{answers, printed, rooms, rules};
use cases::Case;
use forms::{Fault, Input};
use page::Page;
use report::Given;
use request::arguments::{Command, Request, hyphen};
use request::status::{Answer, Status};
use std::fs::File;
use std::io::{Error, Result};

// The system's error (EILSEQ) for the name of a file that is no UTF-8.
const ILLEGAL_BYTES: i32 = 84;

// Prints a table in the longest rooms, which no table is too long for; they stand in no other function's frame.
#[inline(never)]
fn print_long(rt: HostRuntime, command: Command, table: &[u32]) -> Status {
    let mut room = rooms::numbers::<{ rooms::FINISHED }>();
    let mut text = rooms::bytes::<{ rooms::LONG_LETTERS }>();
    match printed::print(command, table, &mut room, &mut text) {
        Ok(bytes) => printed::put_text(rt, &text, bytes),
        Err(_) => Status::Error,
    }
}

// Finishes a table in the longest room, which no table is too long for; it stands in no other function's frame.
#[inline(never)]
fn finish_long(rt: HostRuntime, given: Given) -> Status {
    let mut room = rooms::numbers::<{ rooms::FINISHED }>();
    match finish::finish(given.table, &mut room) {
        Ok(extent) => {
            let mut page = Page::output(rt.stdout());
            let told = forms::put_finished(&mut page, &room, extent, given);
            written(rt, page.end(told), Status::Done)
        }
        Err(_) => Status::Error,
    }
}

// Answers a request in a room for the work.
fn answer_within(rt: HostRuntime, subject: Subject, room: &mut [u32]) -> Status {
    let command = subject.request.command;
    if command.prints() {
        let mut letters = rooms::bytes::<{ rooms::SHORT_LETTERS }>();
        return printed::answer(rt, subject, room, &mut letters);
    }
    let outcome = Work::of(command, subject.given, room);
    let ends = answers::status_of(command, outcome);
    if ends == Status::Short {
        return ends;
    }
    let mut page = Page::output(rt.stdout());
    let told = subject.put(&mut page, room, outcome);
    written(rt, page.end(told), ends)
}

// Answers a request in a room for the work, or where that is too short, in the longest rooms.
pub fn answer(rt: HostRuntime, subject: Subject, room: &mut [u32]) -> Status {
    let command = subject.request.command;
    match answer_within(rt, subject, room) {
        Status::Short if command.prints() => print_long(rt, command, subject.given.table),
        Status::Short => finish_long(rt, subject.given),
        ends => ends,
    }
}

// What a case gives, whose parts are runs of the numbers.
pub fn given_by(case: Case, numbers: &[u32]) -> Given<'_>
    requires { Placed case (length numbers.now) }
{
    Given {
        table: forms::part(numbers, case.table),
        sheet: match case.sheet {
            Some(run) => forms::part(numbers, run),
            None => &[],
        },
        values: forms::part(numbers, case.values),
        cells: forms::part(numbers, case.cells),
        allowance: u64::from(table::number_at(numbers, case.allowance)),
    }
}

// Answers a request on a text, in rooms for its numbers and for the work.
fn answer_text(
    rt: HostRuntime,
    request: Request,
    path: &[u8],
    text: &[u8],
    numbers: &mut [u32],
    room: &mut [u32],
) -> Status {
    match cases::read_case(text, numbers) {
        Ok(case) => {
            let subject = Subject::of_case(request, path, text, given_by(case, numbers));
            answer(rt, subject, room)
        }
        Err(e) => faulted(rt, path, Fault::of_case(e, text)),
    }
}

// Answers a request on a large file, whose first bytes are read. Its rooms stand in no other function's frame.
#[inline(never)]
fn answer_large(
    rt: HostRuntime,
    request: Request,
    path: &[u8],
    input: &mut Input,
    front: &[u8],
) -> Status {
    let mut text = rooms::bytes::<{ rooms::LARGE }>();
    let got = forms::read_rest(input, front, &mut text);
    if let Err(e) = forms::ended_well(input) {
        return failed(rt, path, &e);
    }
    let mut numbers = rooms::numbers::<{ rooms::LARGE_NUMBERS }>();
    let mut room = rooms::numbers::<{ rooms::LARGE_ROOM }>();
    answer_text(rt, request, path, &text[..got], &mut numbers, &mut room)
}

// Answers a request on a small text.
fn answer_small(rt: HostRuntime, request: Request, path: &[u8], text: &[u8]) -> Status {
    let mut numbers = rooms::numbers::<{ rooms::SMALL_NUMBERS }>();
    let mut room = rooms::numbers::<{ rooms::SMALL_ROOM }>();
    answer_text(rt, request, path, text, &mut numbers, &mut room)
}

// Answers a request on an open file that is no rule, whose first bytes are read.
fn answer_front(
    rt: HostRuntime,
    request: Request,
    path: &[u8],
    input: &mut Input,
    front: &[u8],
) -> Status {
    if front.len() == rooms::SMALL {
        return answer_large(rt, request, path, input, front);
    }
    match forms::ended_well(input) {
        Ok(()) => answer_small(rt, request, path, front),
        Err(e) => failed(rt, path, &e),
    }
}

// Answers a request on an open file. A rule takes the next file as its setting.
fn answer_open(rt: HostRuntime, request: Request, path: &[u8], input: &mut Input) -> Answer {
    let mut text = rooms::bytes::<{ rooms::SMALL }>();
    let got = forms::read_full(input, &mut text);
    let front = &text[..got];
    let rule = outline::is_rule(front);
    let status = if rule {
        rules::answer_rule(rt, request.of_rule(), path, input, front)
    } else if request.crowded() {
        faulted(rt, path, Fault::Crowded)
    } else {
        answer_front(rt, request, path, input, front)
    };
    Answer {
        status,
        paired: rule || request.crowded(),
    }
}

// The file of a name; a hyphen is standard input.
pub fn open(rt: HostRuntime, path: &[u8]) -> Result<Input> {
    if hyphen(path) {
        return Ok(Input::Standard(rt.stdin()));
    }
    match str::from_utf8(path) {
        Ok(name) => Ok(Input::Opened(File::open(&rt, name)?)),
        Err(_) => Err(Error::from_raw_os_error(ILLEGAL_BYTES)),
    }
}

// Answers a request on the file of a name.
pub fn answer_file(rt: HostRuntime, request: Request, path: &[u8]) -> Answer {
    match open(rt, path) {
        Ok(mut input) => answer_open(rt, request, path, &mut input),
        Err(e) => Answer {
            status: failed(rt, path, &e),
            paired: false,
        },
    }
}
