// Where the terms of a typed rule stand in its text.
#![tactic(auto)]

mod lines; // lines and columns, and whether a text is a rule
mod names; // the declared names
mod scan; // a text word by word
mod spans; // the bytes of a term
mod words; // the words of a text in order

pub use lines::{column_of, is_rule, line_end, line_of, line_start};
pub use names::put_names;
pub use scan::{Command, Scan, Span, context_at};
pub use spans::{enclosing, span_of};
