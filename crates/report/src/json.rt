// The answers in JSON, an object to a line.
use crate::why::put_why;
use crate::{Files, Given};
use judge::Verdict;
use page::Page;
use show::Names;
use std::fmt;
use std::fmt::Write as _;
use table::Refusal;

// The object's start: its file, and the setting's.
fn put_files(page: &mut Page, files: Files) -> fmt::Result {
    write!(page, "{{\"file\":\"")?;
    phrases::put_string(page, files.path)?;
    if let Some(setting) = files.setting {
        write!(page, "\",\"setting\":\"")?;
        phrases::put_string(page, setting)?;
    }
    write!(page, "\",\"answer\":")
}

// A judgement, and the object is left open.
pub fn put_json_judgement(page: &mut Page, files: Files, v: Verdict) -> fmt::Result {
    put_files(page, files)?;
    write!(
        page,
        "\"judged\",\"rule\":{},\"condition\":{}",
        v.rule, v.condition
    )?;
    write!(
        page,
        ",\"passes\":{},\"steps\":{},\"left\":{}",
        judge::passes(v),
        v.steps,
        v.left
    )
}

// A judgement.
pub fn put_json_verdict(page: &mut Page, files: Files, v: Verdict) -> fmt::Result {
    put_json_judgement(page, files, v)?;
    writeln!(page, "}}")
}

// A refusal by its number and place.
fn put_refused(page: &mut Page, files: Files, r: Refusal) -> fmt::Result {
    put_files(page, files)?;
    write!(
        page,
        "\"refused\",\"number\":{},\"place\":{}",
        r.number, r.place
    )
}

// A refusal, of a line.
pub fn put_json_refusal(
    page: &mut Page,
    names: Names,
    files: Files,
    line: u64,
    given: Given,
    r: Refusal,
) -> fmt::Result {
    put_refused(page, files, r)?;
    write!(page, ",\"line\":{line},\"reason\":\"")?;
    put_why(page, names, given.reason(r))?;
    writeln!(page, "\"}}")
}

// The refusal of a rule by a reason, at a line and a column.
pub fn put_json_rule(
    page: &mut Page,
    files: Files,
    line: u64,
    column: u64,
    r: Refusal,
    reason: &[u8],
) -> fmt::Result {
    put_refused(page, files, r)?;
    write!(page, ",\"line\":{line},\"column\":{column},\"reason\":\"")?;
    phrases::put_string(page, reason)?;
    writeln!(page, "\"}}")
}
