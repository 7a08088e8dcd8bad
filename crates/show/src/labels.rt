// Terms with their values.
use crate::{Judged, Operator, Value, is_bare};
use std::fmt;
use std::fmt::{Display, Formatter};

// A term by its number, its operator or slot, and its value: "t3 bvadd = 7", "t0 slot 1 = true", "t1 slot 2: array",
// "t5 store".
#[derive(Clone, Copy)]
pub struct Label<'a> {
    pub(crate) judged: &'a Judged<'a>,
    pub(crate) term: u32,
}

impl Display for Label<'_> {
    fn fmt<W: fmt::Write>(&self, f: &mut Formatter<W>) -> fmt::Result {
        let k = self.term;
        let x = self.judged.term(k);
        let value = Value::of_width(x.sort.n, self.judged.value(k));
        // A name is looked up among all of the rule's: for a variable alone.
        let names = self.judged.names;
        match (table::is_variable(x), x.sort.m) {
            _ if is_bare(x) => write!(f, "t{k} {}", Operator(x.op)),
            (false, _) => write!(f, "t{k} {} = {value}", Operator(x.op)),
            (true, 0) => write!(f, "t{k} {} = {value}", names.slot(x.p)),
            (true, _) => write!(f, "t{k} {}: array", names.slot(x.p)),
        }
    }
}
