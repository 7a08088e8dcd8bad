// Writing the group of one term.
ghost use Rattle.std.specs.Prelude.{◌≡◌, cond, ◌+◌, ◌≤◌, ◌<◌, length};
ghost use Rattle.ops.specs.Meaning.{ones};
ghost use Rattle.ops.specs.Signed.{greatest, least};
ghost use Rattle.table.specs.Terms.{terms, sort_at};
ghost use Rattle.table.specs.WellFormed.{WellFormed};
ghost use Rattle.sheets.specs.Marks.{own_marks};
ghost use Rattle.groups.specs.Code.Writing.{placed_all, Numbered, less_group, after, written};
ghost use Rattle.groups.specs.Plans.{next, plans, plan_at};

use crate::groups::{
    Written, absorbing, bounds, choice, conjunction, disjunction, implication, shift, strict,
};
use crate::kinds::{GroupKind, kind_of};
use crate::reads::read_group;
use table::{Term, number_at};

// Nothing added before number `b`: C(t) is the term of this number.
fn taken(c: u32, b: u32) -> Written
    ensures { result ≡ record { condition = c; next = b } }
{
    Written {
        condition: c,
        next: b,
    }
}

// What a call answers, field by field: joined with the other kinds' answers as a whole it would stand in memory, and
// each term would wait for it.
fn apart(w: Written) -> Written
    ensures { result ≡ w }
{
    Written {
        condition: w.condition,
        next: w.next,
    }
}

// The number of a variable's condition: F if marked, else T, whose number is yes.
fn input(x: Term, yes: u32) -> u32
    requires { yes ≤ 512 }
    ensures { result ≡ cond (own_marks x) (yes + 1) yes }
{
    if x.q == 1 { yes + 1 } else { yes }
}

// The value that settles less as its first operand, of width `n`: nothing is above it; of signed less in the signed order.
fn highest(signed: bool, n: u32) -> u32
    requires { n ≤ 32 }
    ensures { result ≡ cond signed (greatest n) (ones n) }
{
    if signed {
        ops::greatest(n)
    } else {
        ops::ones(n)
    }
}

// As its second operand: nothing is below it.
fn lowest(signed: bool, n: u32) -> u32
    requires { n ≤ 32 }
    ensures { result ≡ cond signed (least n) 0 }
{
    if signed { ops::least(n) } else { 0 }
}

// The group of less, or of signed less: the constants have the operands' width.
fn less(table: &[u32], room: &mut [u32], b: u32, x: Term, cp: u32, cq: u32, signed: bool) -> Written
    requires well_formed { WellFormed 512 table.now }
    requires b_bound { b ≤ 80000 }
    ensures value { result ≡ after b (less_group b (sort_at table.now x.p).n signed x cp cq) }
    ensures room_after { room.new
        ≡ placed_all room.old b (less_group b (sort_at table.now x.p).n signed x cp cq) }
{
    let sort = table::sort_at(table, x.p);
    let n = sort.n;
    bounds(
        room,
        b,
        n,
        highest(signed, n),
        lowest(signed, n),
        x.p,
        x.q,
        cp,
        cq,
        cq,
    )
}

// The group of term `i`, from number `b` on; conditions has the numbers of the conditions before it. A choice between
// arrays adds nothing and has no condition, like a store.
pub fn write_group(
    table: &[u32],
    conditions: &[u32],
    room: &mut [u32],
    b: u32,
    i: u32,
    yes: u32,
) -> Written
    requires well_formed { WellFormed 512 table.now }
    requires numbered { Numbered table.now conditions.now }
    requires i_value { (i ≡ length conditions.now) × ((i < terms table.now) × (yes ≡ terms table.now)) }
    requires b_value { (b ≡ next table.now (plans table.now own_marks i)) × (b ≤ 79000) }
    ensures value { result ≡ written table.now i }
    ensures room_after { room.new
        ≡ placed_all room.old b (plan_at table.now own_marks i).group }
{
    let x = table::term_in(table, i);
    if table::is_choice(x) {
        return taken(0, b);
    }
    let cp = number_at(conditions, x.p);
    let cq = number_at(conditions, x.q);
    let n = x.sort.n;
    match kind_of(x.op) {
        GroupKind::Literal => taken(yes, b),
        GroupKind::Input => taken(input(x, yes), b),
        GroupKind::Unary => taken(cp, b),
        GroupKind::Strict => strict(room, b, cp, cq),
        GroupKind::Conjunction => conjunction(room, b, x.p, x.q, cp, cq),
        GroupKind::Disjunction => disjunction(room, b, x.p, x.q, cp, cq),
        GroupKind::Implication => implication(room, b, x.p, x.q, cp, cq),
        GroupKind::Zero => apart(absorbing(room, b, n, 0, x.p, x.q, cp, cq)),
        GroupKind::Ones => apart(absorbing(room, b, n, ops::ones(n), x.p, x.q, cp, cq)),
        GroupKind::Bounds => apart(less(table, room, b, x, cp, cq, false)),
        GroupKind::SignedBounds => apart(less(table, room, b, x, cp, cq, true)),
        GroupKind::Fixed => apart(bounds(room, b, n, 0, ops::ones(n), x.p, x.p, cp, cp, cq)),
        GroupKind::Shift => shift(room, b, n, x.q, cp, cq),
        GroupKind::Choice => choice(room, b, x.p, x.q, x.r, cp, cq, number_at(conditions, x.r)),
        GroupKind::Read => apart(read_group(table, conditions, room, b, x.p, x.q, cq)),
        GroupKind::Write => taken(0, b),
    }
}
