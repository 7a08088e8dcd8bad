// The commands print and print-finished: a table, or its finished table, as solver text. A refusal goes to standard
// error: standard output is another program's input.
ghost use Rattle.std.specs.Prelude.{◌≡◌, length, Err};
ghost use Rattle.cli.specs.Outcomes.{then_printed, printing_of, printed_status};
ghost use Rattle.finish.specs.Finished.{finishing};

use crate::answers;
use crate::answers::Subject;
use crate::failures::{complained, written};
use page::Page;
use report::Given;
use request::arguments::Command;
use request::status::Status;
use std::io::Print;
use table::{Refusal, WORDS};

// Finishes a table in a room, and prints what is there.
fn print_finished(table: &[u32], room: &mut [u32], text: &mut [u8]) -> Result<u64, Refusal>
    ensures { result ≡ then_printed (finishing table.now (length room.old)) table.now
        (length text.old) }
{
    let extent = finish::finish(table, room)?;
    let end = (extent.terms as usize) * WORDS;
    printer::print(&room[..end], text)
}

// The text of a command, in a room for it, and a room for the finished table.
pub fn print(
    command: Command,
    table: &[u32],
    room: &mut [u32],
    text: &mut [u8],
) -> Result<u64, Refusal>
    ensures { result ≡ printing_of command table.now (length room.old)
        (length text.old) }
{
    if command == Command::PrintFinished {
        return print_finished(table, room, text);
    }
    printer::print(table, text)
}

// The status of a refusal: 21 and 24 say that a room was short.
fn refused(r: Refusal) -> Status
    ensures { result ≡ printed_status (Err r) }
{
    if r.number == 24 {
        Status::Short
    } else {
        answers::refused(r)
    }
}

// A text, and the status after it.
pub fn put_text(rt: HostRuntime, text: &[u8], bytes: u64) -> Status {
    let count = page::filled(text, bytes as usize);
    written(rt, rt.stdout().write_all(&text[..count]), Status::Done)
}

// A refusal, of the table alone, and the status after it; where a room was short, nothing.
fn put_refusal(rt: HostRuntime, subject: Subject, r: Refusal) -> Status {
    let ends = refused(r);
    if ends == Status::Short {
        return ends;
    }
    let given = Given::of_table(subject.given.table);
    let mut page = Page::errors(rt.stderr());
    let told = Subject { given, ..subject }.put_case_refusal(&mut page, r);
    complained(page.end(told), ends)
}

// Prints the table of a request, in a room for the finished table, and one for the text.
pub fn answer(rt: HostRuntime, subject: Subject, room: &mut [u32], text: &mut [u8]) -> Status {
    match print(subject.request.command, subject.given.table, room, text) {
        Ok(bytes) => put_text(rt, text, bytes),
        Err(r) => put_refusal(rt, subject, r),
    }
}
