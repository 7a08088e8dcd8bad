// The group of terms that is the condition of one term (paper 01, "The condition of each term").
#![tactic(auto)]

mod added; // the kinds of terms that are added
mod groups; // writing each group
mod kinds; // which group an operator's condition has
mod reads; // writing the group of a read
mod terms; // writing the group of one term

pub use added::{put_and, put_constant};
pub use groups::Written;
pub use kinds::{GroupKind, kind_of};
pub use terms::write_group;
