// What explain tells of a judgement below its verdict.
use crate::reasons::explained;
use crate::sections::{put_all_settled, put_way};
use page::Page;
use show::Judged;
use std::fmt;
use std::fmt::Write as _;

// Why the condition is false, and what would mend it.
fn put_false(page: &mut Page, judged: &Judged, rule: bool) -> fmt::Result {
    let way = explained(judged).way(judged.terms);
    let slots = explain::repair(judged.table, &way, judged.terms);
    writeln!(page, "\nWhy the condition is false, from the rule down:")?;
    put_way(page, judged, &way)?;
    phrases::put_repair(page, judged.names, &slots, rule)
}

// What settled its terms, and why its condition is false where it is.
pub fn put_reasons(page: &mut Page, judged: &Judged, rule: bool, condition: bool) -> fmt::Result {
    put_all_settled(page, judged)?;
    if condition {
        return Ok(());
    }
    put_false(page, judged, rule)
}

// In JSON its terms and the repair, the rest of an object that is open.
pub fn put_json_reasons(page: &mut Page, judged: &Judged, sheet: &[u32]) -> fmt::Result {
    let way = explained(judged).way(judged.terms);
    let slots = explain::repair(judged.table, &way, judged.terms);
    phrases::put_json_terms(page, judged, sheet, &way, &slots)
}
