// The operands of terms.
ghost use Rattle.std.specs.Prelude.{◌≡◌};
ghost use Rattle.ops.specs.Numbers.{op_of};
ghost use Rattle.table.specs.Ranks.{rank_of, fields_of, operand_count};

use std::array::IntoIter;
use std::iter::Take;
use table::{Fields, Term};

// How many operands an operator has.
pub fn operands(op: u32) -> u32
    ensures { result ≡ operand_count (fields_of (rank_of (op_of op))) }
{
    match table::fields_of(op) {
        Fields::Value => 0,
        Fields::Slot => 0,
        Fields::One => 1,
        Fields::Two => 2,
        Fields::Three => 3,
    }
}

// The operands of a term, from the first on.
pub fn operands_of(x: Term) -> Take<IntoIter<u32, 3>> {
    let Term { op, p, q, r, .. } = x;
    [p, q, r].into_iter().take(operands(op) as usize)
}
