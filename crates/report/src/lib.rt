// What an answer is in words, put into a page: verdicts, evaluations, refusals, judged rows; in JSON too.
#![tactic(auto)]

mod files; // what an answer is about
mod json; // the answers in JSON
mod marks; // the marks under a sheet
mod refusals; // a refusal and its line
mod rows; // a table's terms
mod rules; // the refusal of a rule
mod verdicts; // what a judgement comes to
mod why; // the reason for a refusal

pub use files::{Files, Given};
pub use json::{put_json_judgement, put_json_refusal, put_json_verdict};
pub use refusals::{put_note, put_refusal, refusal_line};
pub use rows::{put_evaluation, put_judgement, put_typed};
pub use rules::{RefusedRule, put_json_rule_refusal, put_rule_refusal};
pub use verdicts::{put_heading, put_outcome, put_verdict};
