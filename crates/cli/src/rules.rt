// A rule and its setting.
use crate::answers::{Subject, put_heading};
use crate::failures::{complained, failed, failed_name, faulted, written};
use crate::files::{answer, given_by};
use crate::{files, rooms};
use forms::{Fault, Input};
use page::Page;
use report::{Files, Given, RefusedRule};
use request::arguments::{Request, hyphen};
use request::status::Status;
use show::Names;
use std::fmt;
use std::rt::Env;
use table::Refusal;

// How many variables a table begins with.
fn variables(table: &[u32]) -> u32 {
    let terms = show::terms_within(table, 512);
    (0..terms)
        .find(|k| table::term_at(table, *k).op != 1)
        .unwrap_or(terms)
}

fn put_refusal(
    page: &mut Page,
    request: Request,
    files: Files,
    refused: RefusedRule,
) -> fmt::Result {
    put_heading(page, request, files)?;
    if request.json {
        return report::put_json_rule_refusal(page, files, refused);
    }
    report::put_rule_refusal(page, files.path, refused)
}

// The refusal of a rule, on standard output; on standard error where that is another program's input.
fn tell_refusal(rt: HostRuntime, request: Request, files: Files, refused: RefusedRule) -> Status {
    if request.command.prints() {
        let mut page = Page::errors(rt.stderr());
        let told = report::put_rule_refusal(&mut page, files.path, refused);
        return complained(page.end(told), Status::Refused);
    }
    let mut page = Page::output(rt.stdout());
    let told = put_refusal(&mut page, request, files, refused);
    written(rt, page.end(told), Status::Refused)
}

fn refused_rule<'a>(
    names: Names<'a>,
    text: &'a [u8],
    table: &'a [u32],
    refusal: Refusal,
) -> RefusedRule<'a> {
    RefusedRule {
        names,
        text,
        table,
        refusal,
    }
}

// Refuses a rule, whose table is built again to tell the reason.
fn refuse(
    rt: HostRuntime,
    request: Request,
    files: Files,
    rule: &[u8],
    refusal: Refusal,
) -> Status {
    let mut table = rooms::numbers::<{ rooms::RULE_TABLE }>();
    let mut names = rooms::bytes::<{ rooms::RULE_NAMES }>();
    let progress = parser::rule(rule, &mut table);
    let declared = u32::try_from(progress.names).unwrap_or(u32::MAX);
    let end = outline::put_names(rule, declared, &mut names);
    let count = page::filled(&names, end);
    let known = Names(&names[..count]);
    let terms = show::front(progress.state.count.saturating_mul(6), &table);
    tell_refusal(
        rt,
        request,
        files,
        refused_rule(known, rule, &table[..terms], refusal),
    )
}

// A setting in parts, after whose own bytes the word table stands.
fn answer_in_parts(
    rt: HostRuntime,
    asked: Subject,
    setting: &[u8],
    text: &[u8],
    own: usize,
    numbers: &mut [u32],
    room: &mut [u32],
) -> Status {
    match cases::read_case(text, numbers) {
        Ok(case) => {
            let given = Given {
                table: asked.given.table,
                ..given_by(case, numbers)
            };
            answer(
                rt,
                Subject {
                    text,
                    given,
                    ..asked
                },
                room,
            )
        }
        Err(e) => faulted(rt, setting, Fault::of_setting(e, text, own)),
    }
}

// A setting by name, in a room for its cells.
fn answer_by_name(
    rt: HostRuntime,
    asked: Subject,
    setting: &[u8],
    text: &[u8],
    cells: &mut [u32],
    room: &mut [u32],
) -> Status {
    let mut values = [0u32; 256];
    let mut sheet = rooms::numbers::<{ rooms::SHEET }>();
    let table = asked.given.table;
    let names = asked.names.0;
    match assignments::read(names, table, text, &mut values, cells, &mut sheet) {
        Ok(s) => {
            let given = Given {
                table,
                sheet: &sheet[..show::front(s.sheet, &sheet)],
                values: &values[..show::front(s.values, &values)],
                cells: &cells[..show::front(s.cells, cells)],
                allowance: u64::from(s.allowance),
            };
            answer(
                rt,
                Subject {
                    text,
                    given,
                    ..asked
                },
                room,
            )
        }
        Err(e) => faulted(rt, setting, Fault::of_name(e, text, names)),
    }
}

// A setting, after whose own bytes the word table stands. One in parts that is too large is told by the reader of cases.
fn answer_text(
    rt: HostRuntime,
    asked: Subject,
    setting: &[u8],
    text: &[u8],
    own: usize,
    numbers: &mut [u32],
    room: &mut [u32],
) -> Status {
    let given = errors::between(text, 0, own);
    if assignments::by_parts(given) {
        return answer_in_parts(rt, asked, setting, text, own, numbers, room);
    }
    if cases::BYTE_LIMIT < own {
        return faulted(rt, setting, Fault::of_size(given));
    }
    answer_by_name(rt, asked, setting, given, numbers, room)
}

// A large setting, whose first bytes are read. Its rooms stand in no other function's frame.
#[inline(never)]
fn answer_large(
    rt: HostRuntime,
    asked: Subject,
    setting: &[u8],
    input: &mut Input,
    front: &[u8],
) -> Status {
    let mut text = rooms::bytes::<{ rooms::LARGE_SETTING }>();
    let own = forms::read_rest(input, front, &mut text);
    if let Err(e) = forms::ended_well(input) {
        return failed(rt, setting, &e);
    }
    let end = forms::put_table_word(&mut text, own);
    let mut numbers = rooms::numbers::<{ rooms::LARGE_NUMBERS }>();
    let mut room = rooms::numbers::<{ rooms::LARGE_ROOM }>();
    answer_text(
        rt,
        asked,
        setting,
        &text[..end],
        own,
        &mut numbers,
        &mut room,
    )
}

// An open setting.
fn answer_open(rt: HostRuntime, asked: Subject, setting: &[u8], input: &mut Input) -> Status {
    let mut text = rooms::bytes::<{ rooms::SMALL_SETTING }>();
    let own = forms::read_full(input, &mut text);
    if rooms::SMALL <= own {
        return answer_large(rt, asked, setting, input, &text[..own]);
    }
    if let Err(e) = forms::ended_well(input) {
        return failed(rt, setting, &e);
    }
    let end = forms::put_table_word(&mut text, own);
    let mut numbers = rooms::numbers::<{ rooms::SMALL_NUMBERS }>();
    let mut room = rooms::numbers::<{ rooms::SMALL_ROOM }>();
    answer_text(
        rt,
        asked,
        setting,
        &text[..end],
        own,
        &mut numbers,
        &mut room,
    )
}

// The setting of a name; a hyphen is standard input, of which only one of the two is read.
fn answer_setting(rt: HostRuntime, asked: Subject, setting: &[u8]) -> Status {
    let path = asked.files.path;
    if hyphen(setting) && hyphen(path) {
        return faulted(rt, path, Fault::InputTwice);
    }
    match files::open(rt, setting) {
        Ok(mut input) => answer_open(rt, asked, setting, &mut input),
        Err(e) => failed(rt, setting, &e),
    }
}

// A rule without a setting: what needs none.
fn answer_alone(rt: HostRuntime, asked: Subject) -> Status {
    if !asked.request.command.takes_rule_alone() {
        return faulted(rt, asked.files.path, Fault::NoSetting);
    }
    let mut room = rooms::numbers::<{ rooms::SMALL_ROOM }>();
    answer(rt, asked, &mut room)
}

// A rule that was read, of a table.
fn answer_table(
    rt: HostRuntime,
    request: Request,
    files: Files,
    rule: &[u8],
    table: &[u32],
) -> Status {
    let mut names = rooms::bytes::<{ rooms::RULE_NAMES }>();
    let end = outline::put_names(rule, variables(table), &mut names);
    let count = page::filled(&names, end);
    let known = Names(&names[..count]);
    let asked = Subject::of_rule(request, files, rule, known, table);
    match files.setting {
        Some(setting) => answer_setting(rt, asked, setting),
        None => answer_alone(rt, asked),
    }
}

// A rule, which is parsed, and the file of its setting, where there is one.
fn answer_pair(rt: HostRuntime, request: Request, files: Files, rule: &[u8]) -> Status {
    let mut table = rooms::numbers::<{ rooms::RULE_TABLE }>();
    match parser::parse(rule, &mut table) {
        Ok(numbers) => {
            let end = table.len().min(numbers as usize);
            answer_table(rt, request, files, rule, &table[..end])
        }
        Err(r) => refuse(rt, request, files, rule, r),
    }
}

// The files of a rule and its setting; an empty name is no setting.
fn files_of<'a>(path: &'a [u8], name: &'a [u8]) -> Files<'a> {
    let setting = if name.is_empty() { None } else { Some(name) };
    Files { path, setting }
}

// Answers a request on a rule whose first bytes are read.
pub fn answer_rule(
    rt: HostRuntime,
    request: Request,
    path: &[u8],
    input: &mut Input,
    rule: &[u8],
) -> Status {
    if rule.len() == rooms::SMALL {
        return faulted(rt, path, Fault::LongRule);
    }
    if let Err(e) = forms::ended_well(input) {
        return failed(rt, path, &e);
    }
    let Some(next) = request.next else {
        return answer_pair(rt, request, files_of(path, b""), rule);
    };
    let mut word = io::buffer();
    match rt.arg(next, &mut word) {
        Ok(length) => answer_pair(rt, request, files_of(path, &word[..length]), rule),
        Err(e) => failed_name(rt, e),
    }
}
