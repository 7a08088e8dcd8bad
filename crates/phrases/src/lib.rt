// Parts of an explanation in words and in JSON, once it is known what is to be told.
#![tactic(auto)]

mod json; // the terms and the repair in JSON
mod repairs; // what would mend a condition
mod strings; // strings of JSON

pub use json::put_json_terms;
pub use repairs::put_repair;
pub use strings::put_string;
