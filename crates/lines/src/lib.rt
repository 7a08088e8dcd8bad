// The lines that describe an example: their tokens, and the parts that they fill.
#![tactic(auto)]

mod numbers; // what a line goes on with, by number
pub mod parts; // what a routine is called with
pub mod tokens; // numbers and words
