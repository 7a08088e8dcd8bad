// A command on a case: its work, and the answer put into a page.
ghost use Rattle.std.specs.Prelude.{◌≡◌, length};
ghost use Rattle.cli.specs.Outcomes.{outcome, refused_status, status_of};

use evaluate::Spent;
use finish::Extent;
use judge::Verdict;
use page::Page;
use report::{Files, Given};
use request::arguments::{Command, Request};
use request::status::Status;
use show::{Judged, Names};
use std::fmt;
use table::Refusal;

// What the work of a command comes to, where nothing is refused.
#[derive(Clone, Copy)]
pub enum Work {
    Judged(Verdict),
    Evaluated(Spent),
    Finished(Extent),
}

impl Work {
    // The work of a command, in a room for it.
    pub fn of(command: Command, given: Given, room: &mut [u32]) -> Result<Work, Refusal>
        ensures { result ≡ outcome command given.entry.table.now given.entry.sheet.now
            given.entry.values.now given.entry.cells.now given.entry.allowance (length room.old) }
    {
        let Given {
            table,
            sheet,
            values,
            cells,
            allowance,
        } = given;
        match command {
            Command::Finish => Ok(Work::Finished(finish::finish(table, room)?)),
            Command::Evaluate => {
                let spent = evaluate::evaluate(table, values, cells, allowance, room)?;
                Ok(Work::Evaluated(spent))
            }
            _ => {
                let verdict = judge::judge(table, sheet, values, cells, allowance, room)?;
                Ok(Work::Judged(verdict))
            }
        }
    }
}

// The status of a refusal: 21 says that the room was short.
pub fn refused(r: Refusal) -> Status
    ensures { result ≡ refused_status r }
{
    if r.number == 21 {
        Status::Short
    } else {
        Status::Refused
    }
}

// The status of an outcome: a picture is work done.
pub fn status_of(command: Command, outcome: Result<Work, Refusal>) -> Status
    ensures { result ≡ status_of command outcome }
{
    match outcome {
        Ok(Work::Judged(v)) if command.tells() && !judge::passes(v) => Status::Fails,
        Ok(_) => Status::Done,
        Err(r) => refused(r),
    }
}

// The line before an answer that is one of several.
pub fn put_heading(page: &mut Page, request: Request, files: Files) -> fmt::Result {
    if request.command == Command::Judge || request.json || !request.several {
        return Ok(());
    }
    report::put_heading(page, files, request.first)
}

// What a request is about: a case, of which the rule and the names are empty, and the text is the case's; or a rule, and
// the text of its setting; and what they give.
#[derive(Clone, Copy)]
pub struct Subject<'a> {
    pub request: Request,
    pub files: Files<'a>,
    pub rule: &'a [u8],
    pub names: Names<'a>,
    pub text: &'a [u8],
    pub given: Given<'a>,
}

impl<'a> Subject<'a> {
    pub fn of_case(
        request: Request,
        path: &'a [u8],
        text: &'a [u8],
        given: Given<'a>,
    ) -> Subject<'a> {
        let files = Files {
            path,
            setting: None,
        };
        let names = Names(b"");
        Subject {
            request,
            files,
            rule: b"",
            names,
            text,
            given,
        }
    }

    // Of a rule whose setting is not read.
    pub fn of_rule(
        request: Request,
        files: Files<'a>,
        rule: &'a [u8],
        names: Names<'a>,
        table: &'a [u32],
    ) -> Subject<'a> {
        let given = Given::of_table(table);
        Subject {
            request,
            files,
            rule,
            names,
            text: rule,
            given,
        }
    }
}

impl Subject<'_> {
    // A judgement: its verdict.
    fn put_verdict(self, page: &mut Page, v: Verdict) -> fmt::Result {
        if self.request.json {
            report::put_json_verdict(page, self.files, v)
        } else if self.request.several {
            report::put_outcome(page, self.files, v)
        } else {
            report::put_verdict(page, v)
        }
    }

    // A judgement: its explanation.
    fn put_explanation(self, page: &mut Page, judged: &Judged, v: Verdict) -> fmt::Result {
        let sheet = self.given.sheet;
        if self.request.json {
            report::put_json_judgement(page, self.files, v)?;
            return reasons::put_json_reasons(page, judged, sheet);
        }
        report::put_judgement(page, judged, self.rule, sheet, v)?;
        reasons::put_reasons(page, judged, v.rule, v.condition)
    }

    // A judgement: its tree, with the terms as they were typed in the text of a rule.
    fn put_tree(self, page: &mut Page, judged: &Judged) -> fmt::Result {
        trees::put_tree(page, judged, self.request.color)?;
        report::put_typed(page, self.rule, judged.table)
    }

    fn put_judged(self, page: &mut Page, room: &[u32], v: Verdict) -> fmt::Result {
        let judged = Judged::new(self.names, self.given.table, room);
        match self.request.command {
            Command::Judge => self.put_verdict(page, v),
            Command::Explain => self.put_explanation(page, &judged, v),
            Command::Tree => self.put_tree(page, &judged),
            _ => graphs::put_graph(page, self.rule, &judged),
        }
    }

    // The line of a case's text, or of a setting's, that a refusal is about; 0 where there is none.
    fn line_of(self, r: Refusal) -> u64 {
        let table = self.given.table;
        match self.files.setting {
            None => report::refusal_line(self.text, table, r),
            Some(_) => forms::setting_line(self.text, self.names.0, table, r).unwrap_or(0),
        }
    }

    fn put_refusal(self, page: &mut Page, r: Refusal) -> fmt::Result {
        let line = self.line_of(r);
        if self.request.json {
            return report::put_json_refusal(page, self.names, self.files, line, self.given, r);
        }
        match self.files.setting {
            Some(path) => report::put_refusal(page, self.names, path, line, self.given, r),
            None => self.put_case_refusal(page, r),
        }
    }

    // The refusal of a case, and the note on its table.
    pub fn put_case_refusal(self, page: &mut Page, r: Refusal) -> fmt::Result {
        let path = self.files.path;
        let line = report::refusal_line(self.text, self.given.table, r);
        report::put_refusal(page, Names(b""), path, line, self.given, r)?;
        report::put_note(page, path, self.text, r)
    }

    // An outcome, with what the work left in its room.
    pub fn put(self, page: &mut Page, room: &[u32], outcome: Result<Work, Refusal>) -> fmt::Result {
        put_heading(page, self.request, self.files)?;
        match outcome {
            Ok(Work::Judged(v)) => self.put_judged(page, room, v),
            Ok(Work::Evaluated(spent)) => {
                report::put_evaluation(page, self.names, self.given.table, room, spent)
            }
            Ok(Work::Finished(extent)) => forms::put_finished(page, room, extent, self.given),
            Err(r) => self.put_refusal(page, r),
        }
    }
}
