// How far a text is read.
ghost use Rattle.std.specs.Prelude.{◌≡◌};
ghost use Rattle.parser.specs.Expressions.{fault_number};

use table::Sort;

// What refuses a word: it is not expected; a name is declared twice, or not at all; too many parentheses are open; a
// list has too few operands or too many; check-sat has no assert before it.
#[derive(Clone, Copy, PartialEq, Eq)]
pub enum Fault {
    Unexpected,
    Undeclared,
    TooDeep,
    Miscounted,
    Unasserted,
}

impl Fault {
    // Its number in a refusal.
    pub fn number(self) -> u32
        ensures { result ≡ fault_number self }
    {
        match self {
            Fault::Unexpected => 31,
            Fault::Undeclared => 32,
            Fault::TooDeep => 33,
            Fault::Miscounted => 34,
            Fault::Unasserted => 35,
        }
    }
}

// The place; the terms so far, 513 for more than 512; the number of the last expression's term; what refuses the word
// at the place. It is no Result: the contract of `rule` says place and counts of a text that is refused too.
#[derive(Clone, Copy)]
pub struct State {
    pub at: usize,
    pub count: u32,
    pub root: u32,
    pub fault: Option<Fault>,
}

// The operands of a list that were read, and how many. They are named as in table's Term, which they become: an array
// would be taken apart there.
#[derive(Clone, Copy)]
pub struct Listed {
    pub state: State,
    pub n: u32,
    pub p: u32,
    pub q: u32,
    pub r: u32,
}

// How an expression begins: it is done, it is a constant of a width and a value, or a list of an operator follows.
#[derive(Clone, Copy)]
pub enum Head {
    Done(State),
    Constant(u32, u32, usize),
    Call(u32, usize),
}

// How far a rule is read: how many names are declared; how many asserts there were, 2 for more; the number of the
// joined rule's term; whether the only assert is a bare name; whether check-sat was read.
#[derive(Clone, Copy)]
pub struct Progress {
    pub state: State,
    pub names: usize,
    pub asserts: u32,
    pub rule: u32,
    pub bare: bool,
    pub ended: bool,
}

// A sort that was read.
#[derive(Clone, Copy)]
pub struct Sorted {
    pub state: State,
    pub sort: Sort,
}
