// Why a condition is false, what would mend it, and what settled a term that is free: over the terms from the rule
// down. Free is truth 1. Every routine takes a table and the two halves of the room that judging leaves, the terms'
// values and truths, or those of them that it reads.
#![tactic(auto)]

mod answers; // what is answered of a term
mod operands; // an operand: whether it is free, and whether its value settles the operator
mod repairs; // what would mend a rule's condition
mod settlers; // what settled a term
mod sources; // what a term's value comes from
mod ways; // the terms on the way down from the rule

pub use answers::{Held, Settled, Source};
pub use operands::{Operand, free_at, would_settle};
pub use repairs::repair;
pub use settlers::unfree_operand;
pub use sources::{picked, source_at};

// A table, and its terms' values and truths.
#[derive(Clone, Copy)]
pub struct Judged<'a> {
    pub table: &'a [u32],
    pub values: &'a [u32],
    pub truths: &'a [u32],
}
