// Writing the finished table into the room.
ghost use Rattle.std.specs.Prelude.{◌≡◌, ◌++◌, pred, ◌+◌, ◌*◌, ◌≤◌, length, drop};
ghost use Rattle.table.specs.Terms.{words, terms};
ghost use Rattle.table.specs.WellFormed.{WellFormed};
ghost use Rattle.sheets.specs.Marks.{own_marks};
ghost use Rattle.groups.specs.Code.Writing.{placed_all, written};
ghost use Rattle.groups.specs.Plans.{groups, plans};
ghost use Rattle.finish.specs.Finished.{condition_number, finished};

use groups::{Written, put_and, put_constant, write_group};

// The groups in ascending term order, after T and F. conditions has the numbers of the conditions so far.
fn write_groups(table: &[u32], room: &mut [u32]) -> Written
    requires { WellFormed 512 table.now }
    ensures value { result ≡ written table.now (pred (terms table.now)) }
    ensures room_after { room.new
        ≡ placed_all room.old (terms table.now + 2)
        (groups (plans table.now own_marks (terms table.now))) }
{
    let terms = table::count(table);
    let mut conditions = [0u32; 512];
    let mut condition = 0u32;
    let mut next = terms + 2;
    for i in 0..terms {
        let at = i as usize;
        let done = write_group(table, &conditions[..at], room, next, i, terms);
        conditions[at] = done.condition;
        condition = done.condition;
        next = done.next;
    }
    Written { condition, next }
}

// The finished table at the room's front; answers the number of C(rule).
pub fn fill(table: &[u32], room: &mut [u32]) -> u32
    requires well_formed { WellFormed 512 table.now }
    requires words_in_bounds { terms (finished table.now) * words ≤ length room.old }
    ensures value { result ≡ condition_number table.now (pred (terms table.now)) }
    ensures room_after { room.new
        ≡ finished table.now ++ drop (length (finished table.now)) room.old }
{
    let terms = table::count(table);
    table::copy(table, room);
    put_constant(room, terms, 0, 1);
    put_constant(room, terms + 1, 0, 0);
    let rule = write_groups(table, room);
    put_and(room, rule.next, terms - 1, rule.condition);
    rule.condition
}
