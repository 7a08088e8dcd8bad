// A read along its array, a tree of stores and choices over variables: value and truth.
ghost use Rattle.std.specs.Prelude.{◌≡◌, ◌&&◌, ◌+◌, ◌≤◌, length};
ghost use Rattle.table.specs.WellFormed.{WellFormed};
ghost use Rattle.judge.specs.Code.Leaves.{leaves_at};
ghost use Rattle.judge.specs.Code.Reach.{passed_by, reach_at};
ghost use Rattle.judge.specs.Code.Labelled.{truth_in, overlaid, picked_by, stored_by, either_of, labelled_at};

use crate::leaves::leaf_count;
use table::{Term, number_at};

// A value, and whether it ignores the marked inputs.
#[derive(Clone, Copy)]
pub struct Labelled {
    pub value: u32,
    pub free: bool,
}

// The truth of term k's condition.
pub fn truth_at(truths: &[u32], k: u32) -> bool
    ensures { result ≡ truth_in truths.now k }
{
    number_at(truths, k) == 1
}

// A store over what is read beneath it, at index `j` whose condition is `cj`.
fn overlay(front: &[u32], truths: &[u32], x: Term, j: u32, cj: bool, below: Labelled) -> Labelled
    ensures { result ≡ overlaid front.now truths.now x j cj below }
{
    let index = number_at(front, x.q);
    let stored = number_at(front, x.r);
    let beneath = below.value;
    let test = truth_at(truths, x.q) & cj;
    Labelled {
        value: ops::ite(index == j, stored, beneath),
        free: ops::chosen(
            test,
            index == j,
            truth_at(truths, x.r),
            below.free,
            stored == beneath,
        ),
    }
}

// Whether a store is picked by a free test: nothing beneath it counts.
pub fn picked(front: &[u32], truths: &[u32], x: Term, j: u32, cj: bool) -> bool
    ensures { result ≡ picked_by front.now truths.now x j cj }
{
    truth_at(truths, x.q) & cj & (number_at(front, x.q) == j)
}

// Whether a free test passes over a store: what it holds does not count.
fn passed(front: &[u32], truths: &[u32], x: Term, j: u32) -> bool
    ensures { result ≡ passed_by front.now truths.now x j }
{
    truth_at(truths, x.q) & (number_at(front, x.q) != j)
}

// Where free tests lead a read of the array term `a` at a free index `j`: past the stores at other indexes, into the
// branches that are picked, to a variable, a store that is picked or a test that is not free. The array's number falls.
pub fn reach(table: &[u32], front: &[u32], truths: &[u32], a: u32, j: u32) -> u32
    requires { WellFormed 80000 table.now }
    ensures { result
        ≡ reach_at table.now front.now truths.now j a }
{
    let x = table::term_at(table, a);
    if table::is_store(x) {
        if passed(front, truths, x, j) {
            return reach(table, front, truths, x.p, j);
        }
        return a;
    }
    if !table::is_choice(x) {
        return a;
    }
    if !truth_at(truths, x.p) {
        return a;
    }
    if number_at(front, x.p) == 1 {
        return reach(table, front, truths, x.q, j);
    }
    reach(table, front, truths, x.r, j)
}

// What a store holds.
fn stored(front: &[u32], truths: &[u32], x: Term) -> Labelled
    ensures { result ≡ stored_by front.now truths.now x }
{
    Labelled {
        value: number_at(front, x.r),
        free: truth_at(truths, x.r),
    }
}

// A choice between what is read in its two branches.
fn either(front: &[u32], truths: &[u32], x: Term, q: Labelled, r: Labelled) -> Labelled
    ensures { result ≡ either_of front.now truths.now x q r }
{
    let test = number_at(front, x.p) == 1;
    let first = q.value;
    let second = r.value;
    Labelled {
        value: ops::ite(test, first, second),
        free: ops::chosen(truth_at(truths, x.p), test, q.free, r.free, first == second),
    }
}

// The read of the array term `a` at index `j`, whose condition is `cj`: the outermost store or choice first, and the array's number
// falls. Cells holds what the variables hold there that it meets, from number `first` on. Below a store that is picked
// nothing counts; of a choice whose test is free the branch that it picks counts alone.
pub fn read(
    table: &[u32],
    front: &[u32],
    truths: &[u32],
    cells: &[u32],
    a: u32,
    j: u32,
    cj: bool,
    first: u32,
) -> Labelled
    requires well_formed { WellFormed 80000 table.now }
    requires a_bound { first + length (leaves_at table.now a) ≤ 17 }
    ensures { result
        ≡ labelled_at table.now front.now truths.now
        cells.now j cj a first }
{
    let x = table::term_at(table, a);
    if table::is_store(x) {
        if picked(front, truths, x, j, cj) {
            return stored(front, truths, x);
        }
        let below = read(table, front, truths, cells, x.p, j, cj, first);
        return overlay(front, truths, x, j, cj, below);
    }
    if !table::is_choice(x) {
        return Labelled {
            value: number_at(cells, first),
            free: truth_at(truths, a) & cj,
        };
    }
    let second = first + leaf_count(table, x.q);
    if truth_at(truths, x.p) {
        let taken = number_at(front, x.p) == 1;
        let branch = ops::ite(taken, x.q, x.r);
        let from = ops::ite(taken, first, second);
        let picked = read(table, front, truths, cells, branch, j, cj, from);
        return Labelled {
            value: picked.value,
            free: picked.free,
        };
    }
    let q = read(table, front, truths, cells, x.q, j, cj, first);
    let r = read(table, front, truths, cells, x.r, j, cj, second);
    either(front, truths, x, q, r)
}
