// What is answered of a term.
ghost use Rattle.std.specs.Prelude.{◌≡◌};
ghost use Rattle.explain.specs.Sources.{term_of};

// A store, and its index or value; a choice between arrays, and its test.
#[derive(Clone, Copy, Drop)]
pub struct Held {
    pub store: u32,
    pub term: u32,
}

// One thing that a term's value comes from: an operand of its own; of a read also the index of a store, the value that
// a store holds, the test of a choice between arrays, the array at the end.
#[derive(Clone, Copy, Drop)]
pub enum Source {
    Operand(u32),
    Index(Held),
    Stored(Held),
    Test(Held),
    Array(u32),
}

impl Source {
    // The term that it names.
    pub fn term(self) -> u32
        ensures { result ≡ term_of self }
    {
        match self {
            Source::Operand(k) | Source::Array(k) => k,
            Source::Index(held) | Source::Stored(held) | Source::Test(held) => held.term,
        }
    }
}

// A term by its operands: none to look at, one, two; a test and two branches; an array and an index.
#[derive(Clone, Copy)]
pub enum Shape {
    Leaf,
    Unary,
    Binary,
    Branches,
    Cell,
}

// What settled a term that is free though an operand is not: this operand alone; the test and the branch that it picks;
// two branches that are equal; of a read the store at its index, a store whose value equals what is read beneath it, a
// choice between arrays that are equal there, the variable at the end.
#[derive(Clone, Copy, Drop)]
pub enum Settled {
    Alone(u32),
    Picked { test: u32, branch: u32 },
    Equal { first: u32, second: u32 },
    AtIndex(Held),
    EqualBeneath(Held),
    EqualBranches(u32),
    Unmarked(u32),
}
