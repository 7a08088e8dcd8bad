// The three sorts.
ghost use Rattle.std.specs.Prelude.{◌≡◌};
ghost use Rattle.table.specs.Terms.{boolean, vector, scalar, array, vector_of, same_sort};
ghost use Rattle.table.specs.Faults.{sorted};

use crate::words::Sort;

pub fn boolean(s: Sort) -> bool
    ensures { result ≡ boolean s }
{
    (s.m == 0) & (s.n == 0)
}

pub fn vector(s: Sort) -> bool
    ensures { result ≡ vector s }
{
    (s.m == 0) & (0 < s.n)
}

pub fn array(s: Sort) -> bool
    ensures { result ≡ array s }
{
    0 < s.m
}

// No array.
pub fn scalar(s: Sort) -> bool
    ensures { result ≡ scalar s }
{
    s.m == 0
}

pub fn vector_of(w: u32, s: Sort) -> bool
    ensures { result ≡ vector_of w s }
{
    (s.m == 0) & (s.n == w)
}

pub fn same_sort(a: Sort, b: Sort) -> bool
    ensures { result ≡ same_sort a b }
{
    a == b
}

// One of the three sorts: widths up to 32, and an array's not 0.
pub fn sorted(s: Sort) -> bool
    ensures { result ≡ sorted s }
{
    (s.m <= 32) & (s.n <= 32) & ((s.m == 0) | (0 < s.n))
}
