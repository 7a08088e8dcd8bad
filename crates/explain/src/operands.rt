// An operand: whether it is free, and whether its value settles the operator.
ghost use Rattle.std.specs.Prelude.{◌≡◌};
ghost use Rattle.judge.specs.Code.Labelled.{truth_in};
ghost use Rattle.explain.specs.Operands.{would_settle, operand_state};

use crate::Judged;
use ops::Op;
use table::{Term, number_at};

// Free and settles the operator; free and does not; not free and would not; not free, though its value would.
#[derive(Clone, Copy)]
pub enum Operand {
    Settles,
    Free,
    Unfree,
    WouldSettle,
}

// Whether term `k` is free.
pub fn free_at(truths: &[u32], k: u32) -> bool
    ensures { result ≡ truth_in truths.now k }
{
    number_at(truths, k) == 1
}

// Whether value `x` of the first operand, or of the second, settles an operator with only that operand free, at the
// first operand's width `n`.
pub fn would_settle(op: Op, n: u32, x: u32, second: bool) -> bool
    ensures { result ≡ would_settle op n x second }
{
    ops::settles(op, n, x, x, x, !second, second, false)
}

impl Judged<'_> {
    // The state of operand p of term `x`, of q where second.
    pub fn operand_state(self, x: Term, second: bool) -> Operand
        ensures { result ≡ operand_state self.entry.table.now self.entry.values.now self.entry.truths.now x second }
    {
        let k = if second { x.q } else { x.p };
        let width = table::sort_at(self.table, x.p).n;
        let settles = would_settle(ops::op_of(x.op), width, number_at(self.values, k), second);
        match (free_at(self.truths, k), settles) {
            (true, true) => Operand::Settles,
            (true, false) => Operand::Free,
            (false, true) => Operand::WouldSettle,
            (false, false) => Operand::Unfree,
        }
    }
}
