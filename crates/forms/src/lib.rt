// Case files and settings: reading one, what is wrong with one, a finished table written as one.
#![tactic(auto)]

mod faults; // what is wrong with a file
mod finished; // the command finish
mod numbers; // what is wrong with a file, by number
mod parts; // the parts of a case
mod reading; // an open file
mod settings; // settings of rules

pub use faults::{Fault, complain};
pub use finished::put_finished;
pub use numbers::{
    NumberedError, complain_of, complain_of_case, complain_of_name, complain_of_setting,
};
pub use parts::part;
pub use reading::{Input, ended_well, read_full, read_rest};
pub use settings::{put_table_word, setting_line};
