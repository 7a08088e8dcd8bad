// Mark sheets (paper 02, request 06): which inputs are marked, as a party says it; 16.
#![tactic(auto)]

mod faults; // 16
mod lines; // the lines of a sheet
mod marks; // what the sheet says of each slot
mod slots; // the line by which a slot is marked or kept

pub use faults::check;
pub use lines::{Line, count, line_at};
pub use marks::{marked, said};
pub use slots::deciding;
