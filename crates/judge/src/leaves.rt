// The variables of the array that a read reaches, one after the other: of a choice those of q before those of r.
ghost use Rattle.std.specs.Prelude.{◌≡◌, ◌+◌, ◌≤◌, length};
ghost use Rattle.std.proofs.lemmas.List.Edits.{sets};
ghost use Rattle.table.specs.WellFormed.{WellFormed};
ghost use Rattle.judge.specs.Code.Leaves.{leaves_at};

// How many there are of array term `a`. The array's number falls.
pub fn leaf_count(table: &[u32], a: u32) -> u32
    requires { WellFormed 80000 table.now }
    ensures { result ≡ length (leaves_at table.now a) }
{
    let x = table::term_at(table, a);
    if table::is_store(x) {
        return leaf_count(table, x.p);
    }
    if !table::is_choice(x) {
        return 1;
    }
    let q = leaf_count(table, x.q);
    let r = leaf_count(table, x.r);
    q + r
}

// Writes their slots from number `first` on, and answers the number after the last.
fn put_leaves(table: &[u32], a: u32, slots: &mut [u32], first: u32) -> u32
    requires well_formed { WellFormed 80000 table.now }
    requires a_bound { first + length (leaves_at table.now a) ≤ 17 }
    requires slots_len { length slots.old ≡ 17 }
    ensures value { result ≡ first + length (leaves_at table.now a) }
    ensures slots_after { slots.new ≡ sets slots.old first (leaves_at table.now a) }
{
    let x = table::term_at(table, a);
    if table::is_store(x) {
        return put_leaves(table, x.p, slots, first);
    }
    if !table::is_choice(x) {
        slots[first as usize] = x.p;
        return first + 1;
    }
    let second = put_leaves(table, x.q, slots, first);
    put_leaves(table, x.r, slots, second)
}

// The slots of them all, from the front, and how many there are. The stores down to a choice or a variable are passed in a loop.
pub fn leaves(table: &[u32], a: u32, slots: &mut [u32]) -> u32
    requires well_formed { WellFormed 80000 table.now }
    requires slots_len { length slots.old ≡ 17 }
    ensures value { result ≡ length (leaves_at table.now a) }
    ensures slots_after { slots.new ≡ sets slots.old 0 (leaves_at table.now a) }
{
    let mut b = a;
    let mut x = table::term_at(table, a);
    while table::is_store(x) {
        b = x.p;
        x = table::term_at(table, b);
    }
    if table::is_choice(x) {
        return put_leaves(table, b, slots, 0);
    }
    slots[0] = x.p;
    1
}
