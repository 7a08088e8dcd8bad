// What is wrong with a rule, in words, and its line with a caret.
#![tactic(auto)]

mod choices; // which reason is told
mod contexts; // what is expected at a place, and what stands there
mod excerpts; // a line with a caret, a term as it was typed
mod kinds; // what can be expected, found and told
mod messages; // the reasons in words

pub use contexts::{between, place_of, reason_at};
pub use excerpts::{put_excerpt, put_expression, put_typed};
pub use kinds::{Expected, Reason};
pub use messages::{put_head, put_reason};
