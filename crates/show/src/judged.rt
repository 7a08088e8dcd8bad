// A judgement as it is shown.
ghost use Rattle.std.specs.Prelude.{◌≡◌, ◌<◌, ◌++◌, Some, None, get_or, length, min, eqb};
ghost use Rattle.show.specs.declared.values.Value.TheVariants.{Number};
ghost use Rattle.table.specs.Terms.{sort_at, term_at, terms};

use crate::{Label, Names, Value, front, terms_within};
use table::{Term, number_at};

// A table of up to 512 terms with its names, its terms' values and the truths of their conditions.
#[derive(Clone, Copy)]
pub struct Judged<'a> {
    pub names: Names<'a>,
    pub table: &'a [u32],
    pub values: &'a [u32],
    pub truths: &'a [u32],
    pub terms: u32,
}

impl<'a> Judged<'a> {
    // Of a judgement whose room is the values, then the conditions' truths.
    pub fn new(names: Names<'a>, table: &'a [u32], room: &'a [u32]) -> Judged<'a>
        ensures table { result.table.now ≡ table.now }
        ensures terms { result.terms ≡ min (terms table.now) 512 }
        ensures values { length result.values.now ≡ min result.terms (length room.now) }
        ensures room { result.values.now ++ result.truths.now ≡ room.now }
    {
        let terms = terms_within(table, 512);
        let (values, truths) = room.split_at(front(terms, room));
        Judged {
            names,
            table,
            values,
            truths,
            terms,
        }
    }

    pub fn term(&self, k: u32) -> Term
        ensures { result ≡ term_at self.now.table.now k }
    {
        table::term_at(self.table, k)
    }

    pub fn value(&self, k: u32) -> u32
        ensures { result ≡ get_or self.now.values.now k 0 }
    {
        number_at(self.values, k)
    }

    // The value of term `k` as it is shown; of an array none.
    pub fn shown_value(&self, k: u32) -> Option<Value>
        ensures array { 0 < (sort_at self.now.table.now k).m → result ≡ None }
        ensures number { (sort_at self.now.table.now k).m ≡ 0 → 0 < (sort_at self.now.table.now k).n → result ≡ Some (Number (get_or self.now.values.now k 0)) }
    {
        Value::of_sort(table::sort_at(self.table, k), self.value(k))
    }

    // Whether term `k` is free: its value is the same whatever the marked inputs are.
    pub fn is_free(&self, k: u32) -> bool
        ensures { result ≡ eqb (get_or self.now.truths.now k 0) 1 }
    {
        number_at(self.truths, k) == 1
    }

    // Term `k` with its value.
    pub fn label(&self, k: u32) -> Label<'_> {
        Label {
            judged: self,
            term: k,
        }
    }
}
