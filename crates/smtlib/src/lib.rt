// SMT-LIB as bytes: numerals, binary digits, and the names of operators, sorts and constants. Each is written into a
// room at a place, and answers the next place; past the room's end nothing is written, and the place goes on.
// A word is looked up among names.
#![tactic(auto, using(std::proofs::lemmas::Bool::Decides::nat_tests))]

mod bytes; // bytes, words and numbers
mod lookup; // words compared, and looked up among others
mod symbols; // operators, sorts, constants

pub use bytes::{numeral, word};
pub use lookup::{place_in, same_bytes};
pub use symbols::{constant, operator, operator_of, sort};
