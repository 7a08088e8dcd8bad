// Tables of terms, and what refuses them (paper 01, "Refused because of the input", 1 to 10): the definitions of all,
// the code of 4 to 7.
#![tactic(auto)]

mod operands; // refusals 5 to 7, by rank
mod ranks; // the operators by what they ask of their fields and sorts
mod sorts; // Boolean, vector, array
mod words; // a table's numbers as terms

ghost use Rattle.std.specs.Prelude.{◌≡◌, ◌<◌};
ghost use Rattle.table.specs.Terms.{terms};
ghost use Rattle.table.specs.Admission.{refused};

pub use operands::{rank_fault, refuse_unless};
pub use ranks::{
    Fields, Rank, fields_of, is_choice, is_constant, is_read, is_store, is_variable, rank_of,
};
pub use sorts::{array, boolean, same_sort, scalar, sorted, vector, vector_of};
pub use words::{Sort, Term, WORDS, copy, number_at, put, sort_at, sort_in, term_at, term_in};

#[derive(Clone, Copy)]
pub struct Refusal {
    pub number: u32,
    pub place: u64,
}

// A refusal by its number and place.
pub fn refused(number: u32, place: u64) -> Result<(), Refusal>
    ensures { result ≡ refused number place }
{
    Err(Refusal { number, place })
}

// The count of terms of a table that has so few.
pub fn count(table: &[u32]) -> u32
    requires { terms table.now < 4294967296 }
    ensures { result ≡ terms table.now }
{
    (table.len() / WORDS) as u32
}
