// Terms in rows, and the head above them.
use crate::{Names, OrDash, SortWords, Value, condition};
use page::Page;
use std::fmt;
use std::fmt::Write as _;
use table::Term;

// The head of the rows; those of a judgement are wider.
pub fn put_head(page: &mut Page, judged: bool) -> fmt::Result {
    let columns = "  term  operator                  sort         ";
    if judged {
        writeln!(page, "{columns}mark         value  condition")
    } else {
        writeln!(page, "{columns}       value")
    }
}

// A row's first column: the number of its term.
pub fn put_number(page: &mut Page, k: u32) -> fmt::Result {
    let indent = 5usize.saturating_sub(page::width_of(&k));
    write!(page, "{:indent$}t{k}  ", "")
}

// The number of a term, its operator and its sort.
fn put_term(page: &mut Page, names: Names, k: u32, x: Term) -> fmt::Result {
    put_number(page, k)?;
    page.put_column(26, &names.applied(x))?;
    page.put_column(13, &SortWords(x.sort))
}

// Term `k` with its value.
pub fn put_row(page: &mut Page, names: Names, k: u32, x: Term, value: u32) -> fmt::Result {
    put_term(page, names, k, x)?;
    writeln!(page, "{:>12}", OrDash(Value::of_sort(x.sort, value)))
}

// A variable's mark: it is marked where it is not free.
fn mark(x: Term, free: bool) -> &'static str {
    match (table::is_variable(x), free) {
        (false, _) => "",
        (true, false) => "marked",
        (true, true) => "-",
    }
}

// Term `k` with its mark, value and condition.
pub fn put_judged_row(
    page: &mut Page,
    names: Names,
    k: u32,
    x: Term,
    value: u32,
    free: bool,
) -> fmt::Result {
    put_term(page, names, k, x)?;
    let value = OrDash(Value::of_sort(x.sort, value));
    let condition = OrDash(condition(x, free));
    writeln!(page, "{:6}{value:>12}  {condition}", mark(x, free))
}
