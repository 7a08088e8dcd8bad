// SMT-LIB's names of operators, sorts and constants, written at a place.
ghost use Rattle.std.specs.Prelude.{◌≡◌};
ghost use Rattle.smtlib.specs.Writing.{page, Wrote};
ghost use Rattle.smtlib.specs.Symbols.{operator_name, operator_of, vector_sort, sort_name, constant_name};

use crate::bytes::{bits, numeral, word};

// The operators' names by their numbers; constant and variable have none.
const NAMES: [&[u8]; 21] = [
    b"", b"", b"not", b"and", b"or", b"=>", b"=", b"ite", b"bvnot", b"bvand", b"bvor", b"bvadd",
    b"bvmul", b"bvshl", b"bvult", b"select", b"store", b"bvneg", b"bvsub", b"bvslt", b"bvashr",
];

// The name of an operator; nothing for a number that has none.
fn name(op: u32) -> &'static [u8]
    ensures { result.now ≡ operator_name op }
{
    let k = op as usize;
    if k < NAMES.len() { NAMES[k] } else { b"" }
}

// The name of an operator, written.
pub fn operator(room: &mut [u8], at: usize, op: u32) -> usize
    ensures { Wrote (page room.old at) (operator_name op) (page room.new result) }
{
    word(room, at, name(op))
}

// The number of the operator that a word names; 0 where it names none. A `for`: with `position` over NAMES the proof
// didn't close, since `search` stops at the names written out.
pub fn operator_of(word: &[u8]) -> u32
    ensures { result ≡ operator_of word.now }
{
    for op in 2..21 {
        if name(op) == word {
            return op;
        }
    }
    0
}

fn vector_sort(room: &mut [u8], at: usize, n: u32) -> usize
    ensures { Wrote (page room.old at) (vector_sort n) (page room.new result) }
{
    let a = word(room, at, b"(_ BitVec ");
    let b = numeral(room, a, n);
    word(room, b, b")")
}

// The sort of the widths `m` and `n`.
pub fn sort(room: &mut [u8], at: usize, m: u32, n: u32) -> usize
    ensures { Wrote (page room.old at) (sort_name m n) (page room.new result) }
{
    if m == 0 {
        if n == 0 {
            return word(room, at, b"Bool");
        }
        return vector_sort(room, at, n);
    }
    let a = word(room, at, b"(Array ");
    let b = vector_sort(room, a, m);
    let c = word(room, b, b" ");
    let d = vector_sort(room, c, n);
    word(room, d, b")")
}

// A constant of width `n`, which is 0 for a Boolean.
pub fn constant(room: &mut [u8], at: usize, n: u32, v: u32) -> usize
    ensures { Wrote (page room.old at) (constant_name n v) (page room.new result) }
{
    if n == 0 {
        if v == 0 {
            return word(room, at, b"false");
        }
        return word(room, at, b"true");
    }
    let a = word(room, at, b"#b");
    bits(room, a, n, v)
}
