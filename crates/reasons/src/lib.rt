// Why a condition is false and what would mend it, and what settled a term, in words; in JSON too.
#![tactic(auto)]

mod explanations; // what explain tells below a verdict
mod reasons; // why a term is not free
mod sections; // what settled a term; the way down
mod settling; // the value that settles an operator

pub use explanations::{put_json_reasons, put_reasons};
