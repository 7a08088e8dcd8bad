// Writing the group of a read, from the inside: D0 of each variable that it meets, nine terms for each store, eight for
// each choice.
ghost use Rattle.std.specs.Prelude.{◌≡◌, ◌+◌, ◌*◌, ◌≤◌, ◌<◌, length, get_or};
ghost use Rattle.table.specs.Faults.{size};
ghost use Rattle.table.specs.WellFormed.{WellFormed};
ghost use Rattle.sheets.specs.Marks.{own_marks};
ghost use Rattle.groups.specs.Code.Writing.{placed_all, Numbered, after};
ghost use Rattle.groups.specs.Plans.{plan_at};

use crate::groups::{Written, array_choice, store, strict};

// The number at a place of a row, which has it.
fn number_in(row: &[u32], k: u32) -> u32
    requires { k < length row.now }
    ensures { result ≡ get_or row.now k 0 }
{
    row[k as usize]
}

// The group of a read of array `a` at index `j`, whose condition is `cj`, from number `b` on. The array's number falls.
pub fn read_group(
    table: &[u32],
    conditions: &[u32],
    room: &mut [u32],
    b: u32,
    a: u32,
    j: u32,
    cj: u32,
) -> Written
    requires well_formed { WellFormed 512 table.now }
    requires numbered { Numbered table.now conditions.now }
    requires a_in_bounds { (a < length conditions.now) × (b + 9 * size table.now a ≤ 80000) }
    ensures value { result ≡ after b ((plan_at table.now own_marks a).read_group b j cj) }
    ensures room_after { room.new
        ≡ placed_all room.old b ((plan_at table.now own_marks a).read_group b j cj) }
{
    let x = table::term_in(table, a);
    if table::is_store(x) {
        let below = read_group(table, conditions, room, b, x.p, j, cj);
        let ci = number_in(conditions, x.q);
        let ce = number_in(conditions, x.r);
        let d = below.condition;
        return store(room, below.next, x.sort.n, x.p, x.q, x.r, j, ci, ce, cj, d);
    }
    if !table::is_choice(x) {
        return strict(room, b, number_in(conditions, a), cj);
    }
    let q = read_group(table, conditions, room, b, x.q, j, cj);
    let r = read_group(table, conditions, room, q.next, x.r, j, cj);
    let cc = number_in(conditions, x.p);
    let dq = q.condition;
    let dr = r.condition;
    array_choice(room, r.next, x.sort.n, x.p, x.q, x.r, j, cc, dq, dr)
}
