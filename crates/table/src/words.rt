// A table's numbers as terms.
ghost use Rattle.std.specs.Prelude.{◌≡◌, ◌++◌, ◌≤◌, length, get_or, drop};
ghost use Rattle.table.specs.Terms.{HasTerm, HasSort, word_at, sort_at, term_at};
ghost use Rattle.table.specs.Code.Writing.{placed};

// Boolean (0, 0); vector (0, n); array (m, n).
#[derive(Clone, Copy, PartialEq, Eq)]
pub struct Sort {
    pub m: u32,
    pub n: u32,
}

#[derive(Clone, Copy)]
pub struct Term {
    pub op: u32,
    pub sort: Sort,
    pub p: u32,
    pub q: u32,
    pub r: u32,
}

// The numbers of a term.
pub const WORDS: usize = 6;

// The number at a place of a row, 0 past its end.
pub fn number_at(row: &[u32], k: u32) -> u32
    ensures { result ≡ get_or row.now k 0 }
{
    row.get(k as usize).copied().unwrap_or(0)
}

// Number `j` of term `k`, 0 past the table's end.
fn word(table: &[u32], k: u32, j: u32) -> u32
    ensures { result ≡ word_at table.now k j }
{
    table
        .get((k as usize) * WORDS + (j as usize))
        .copied()
        .unwrap_or(0)
}

// The sort of term `k`, which the table has.
pub fn sort_in(table: &[u32], k: u32) -> Sort
    requires { HasSort table.now k }
    ensures { result ≡ sort_at table.now k }
{
    let at = (k as usize) * WORDS;
    Sort {
        m: table[at + 1],
        n: table[at + 2],
    }
}

// Term `k`, which the table has whole.
pub fn term_in(table: &[u32], k: u32) -> Term
    requires { HasTerm table.now k }
    ensures { result ≡ term_at table.now k }
{
    let at = (k as usize) * WORDS;
    Term {
        op: table[at],
        sort: Sort {
            m: table[at + 1],
            n: table[at + 2],
        },
        p: table[at + 3],
        q: table[at + 4],
        r: table[at + 5],
    }
}

// The sort of term `k`, 0 for each number past the table's end.
pub fn sort_at(table: &[u32], k: u32) -> Sort
    ensures { result ≡ sort_at table.now k }
{
    if (k as usize) * WORDS + 2 < table.len() {
        return sort_in(table, k);
    }
    Sort {
        m: word(table, k, 1),
        n: word(table, k, 2),
    }
}

// Term `k`, likewise.
pub fn term_at(table: &[u32], k: u32) -> Term
    ensures { result ≡ term_at table.now k }
{
    if (k as usize) * WORDS + 5 < table.len() {
        return term_in(table, k);
    }
    Term {
        op: word(table, k, 0),
        sort: sort_at(table, k),
        p: word(table, k, 3),
        q: word(table, k, 4),
        r: word(table, k, 5),
    }
}

// Writes term `k` of a table: op, m, n, p, q, r. Past the table's end nothing is written.
pub fn put(table: &mut [u32], k: u32, x: Term)
    ensures { table.new ≡ placed table.old k x }
{
    let at = (k as usize) * WORDS;
    if at + WORDS <= table.len() {
        table[at] = x.op;
        table[at + 1] = x.sort.m;
        table[at + 2] = x.sort.n;
        table[at + 3] = x.p;
        table[at + 4] = x.q;
        table[at + 5] = x.r;
    }
}

// A table's numbers, at a room's front. A loop over places: with `copy_from_slice` the archive for C needs `memmove` besides.
pub fn copy(table: &[u32], room: &mut [u32])
    requires { length table.now ≤ length room.old }
    ensures { room.new ≡ table.now ++ drop (length table.now) room.old }
{
    for i in 0..table.len() {
        room[i] = table[i];
    }
}
