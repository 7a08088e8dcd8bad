// What settled a term that is free though an operand is not.
ghost use Rattle.std.specs.Prelude.{◌≡◌};
ghost use Rattle.table.specs.Terms.{term_at};
ghost use Rattle.table.specs.Faults.{rank};
ghost use Rattle.explain.specs.declared.answers.Shape.TheVariants.{Binary, Branches, Cell};
ghost use Rattle.explain.specs.Sources.{shape_of};
ghost use Rattle.explain.specs.Settlers.{unfree, unfree_term, unfree_here, unfree_along, unfree_at, some_unfree};
ghost use Rattle.explain.specs.Settlers.{settles_alone, freely, settled_here, settled_by, settler_of};

use crate::Judged;
use crate::answers::{Held, Settled, Shape, Source};
use crate::operands::{Operand, free_at};
use crate::sources::{branched, index, next, past, picked, shape_of, stacked, stored, test};
use table::{Term, number_at};

// A source, where its term is not free.
fn unfree(truths: &[u32], s: Source) -> Option<Source>
    ensures { result ≡ unfree truths.now s }
{
    if free_at(truths, s.term()) {
        None
    } else {
        Some(s)
    }
}

// Term `k`, where it is not free.
fn unfree_term(truths: &[u32], k: u32) -> Option<Source>
    ensures { result ≡ unfree_term truths.now k }
{
    unfree(truths, Source::Operand(k))
}

// What is not free at term `a`, `x`, of an array: a store's index, or its value; a choice's test; the variable.
fn unfree_here(truths: &[u32], x: Term, a: u32) -> Option<Source>
    ensures { result ≡ unfree_here truths.now x a }
{
    if stacked(x, a) {
        unfree(truths, index(x, a)).or(unfree(truths, stored(x, a)))
    } else if branched(x, a) {
        unfree(truths, test(x, a))
    } else {
        unfree(truths, Source::Array(a))
    }
}

// The first thing in the whole of array term `a` that is not free: at a store before what is beneath it, at a choice
// before its branches, in q before r.
fn unfree_along(table: &[u32], truths: &[u32], a: u32) -> Option<Source>
    ensures { result ≡ unfree_along table.now truths.now a }
{
    let x = table::term_at(table, a);
    let own = unfree_here(truths, x, a);
    if own.is_some() {
        return own;
    }
    if stacked(x, a) {
        return unfree_along(table, truths, x.p);
    }
    if !branched(x, a) {
        return None;
    }
    let first = unfree_along(table, truths, x.q);
    if first.is_some() {
        return first;
    }
    unfree_along(table, truths, x.r)
}

// Operand `i`, from 0, of term `x` where it is not free.
#[tactic(auto, unfolding(crate::specs::Settlers::unfree_at))]
fn unfree_at(table: &[u32], truths: &[u32], x: Term, i: u32) -> Option<Source>
    ensures { result ≡ unfree_at table.now truths.now x i }
{
    match (shape_of(x), i) {
        (Shape::Leaf, _) => None,
        (Shape::Cell, 0) => unfree_along(table, truths, x.p),
        (_, 0) => unfree_term(truths, x.p),
        (Shape::Binary | Shape::Branches | Shape::Cell, 1) => unfree_term(truths, x.q),
        (Shape::Branches, 2) => unfree_term(truths, x.r),
        _ => None,
    }
}

// Operand i of term k, 0 to 2 for p, q, r, where it is not free. Of a read: 0 is the first thing in its whole array that
// is not free, from the outermost inward an index, a stored value, a test, a variable; 1 is its own index.
pub fn unfree_operand(table: &[u32], truths: &[u32], k: u32, i: u32) -> Option<Source>
    ensures { result ≡ unfree_at table.now truths.now (term_at table.now k) i }
{
    unfree_at(table, truths, table::term_at(table, k), i)
}

// Whether some operand of term `x` is not free.
fn some_unfree(table: &[u32], truths: &[u32], x: Term) -> bool
    ensures { result ≡ some_unfree table.now truths.now x }
{
    unfree_at(table, truths, x, 0).is_some()
        || unfree_at(table, truths, x, 1).is_some()
        || unfree_at(table, truths, x, 2).is_some()
}

impl Judged<'_> {
    // Whether operand p of term `x`, or q where second, is free and its value settles the operator.
    fn settles_alone(self, x: Term, second: bool) -> bool
        ensures { result ≡ settles_alone self.entry.table.now self.entry.values.now self.entry.truths.now x second }
    {
        matches!(self.operand_state(x, second), Operand::Settles)
    }

    // What settles a function of two operands.
    fn function_settler(self, x: Term) -> Option<Settled>
        ensures { result ≡ settled_by self.entry.table.now self.entry.values.now self.entry.truths.now x Binary }
    {
        if self.settles_alone(x, false) {
            Some(Settled::Alone(x.p))
        } else if self.settles_alone(x, true) {
            Some(Settled::Alone(x.q))
        } else {
            None
        }
    }

    // What settles a choice.
    fn choice_settler(self, x: Term) -> Settled
        ensures { Some result
            ≡ settled_by self.entry.table.now self.entry.values.now self.entry.truths.now x Branches }
    {
        if free_at(self.truths, x.p) {
            Settled::Picked {
                test: x.p,
                branch: picked(self.values, x),
            }
        } else {
            Settled::Equal {
                first: x.q,
                second: x.r,
            }
        }
    }

    // Whether a read at index `j` goes on from term `a` by a free test: past a store, or into a branch of a choice.
    fn freely(self, j: u32, a: u32) -> bool
        ensures { result ≡ freely self.entry.table.now self.entry.values.now self.entry.truths.now j a }
    {
        let x = table::term_at(self.table, a);
        past(self.table, self.values, a, j) && free_at(self.truths, x.q)
            || branched(x, a) && free_at(self.truths, x.p)
    }

    // What settles a read at term `a`, which it does not go on from so.
    fn settled_here(self, a: u32) -> Settled
        ensures { result ≡ settled_here self.entry.table.now self.entry.truths.now a }
    {
        let x = table::term_at(self.table, a);
        let held = Held {
            store: a,
            term: x.r,
        };
        if branched(x, a) {
            Settled::EqualBranches(a)
        } else if !stacked(x, a) {
            Settled::Unmarked(a)
        } else if free_at(self.truths, x.q) {
            Settled::AtIndex(held)
        } else {
            Settled::EqualBeneath(held)
        }
    }

    // What settles a read.
    fn read_settler(self, x: Term) -> Settled
        ensures { Some result ≡ settled_by self.entry.table.now self.entry.values.now self.entry.truths.now x Cell }
    {
        let j = number_at(self.values, x.q);
        let mut at = x.p;
        while self.freely(j, at) {
            at = next(self.table, self.values, at);
        }
        self.settled_here(at)
    }

    // What settles term `x`, where it is free and an operand is not.
    fn settled_by(self, x: Term) -> Option<Settled>
        ensures { result ≡ settled_by self.entry.table.now self.entry.values.now self.entry.truths.now x
            (shape_of (rank x)) }
    {
        match shape_of(x) {
            Shape::Leaf | Shape::Unary => None,
            Shape::Binary => self.function_settler(x),
            Shape::Branches => Some(self.choice_settler(x)),
            Shape::Cell => Some(self.read_settler(x)),
        }
    }

    // What settled term `k` that is free though an operand is not; nothing where it is not free, or every operand is.
    #[tactic(auto, unfolding(crate::specs::Settlers::settler_of))]
    pub fn settler(self, k: u32) -> Option<Settled>
        ensures { result ≡ settler_of self.entry.table.now self.entry.values.now self.entry.truths.now k }
    {
        let x = table::term_at(self.table, k);
        if free_at(self.truths, k) && some_unfree(self.table, self.truths, x) {
            self.settled_by(x)
        } else {
            None
        }
    }
}
