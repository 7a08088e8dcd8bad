// What the program is asked, and what it ends with.
#![tactic(auto)]

pub mod arguments; // the command, the options, the files
mod numbers; // commands and statuses by number
pub mod status; // what the program ends with
