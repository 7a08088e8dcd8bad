// What each operator asks of its fields and sorts.
ghost use Rattle.std.specs.Prelude.{◌≡◌};
ghost use Rattle.ops.specs.Numbers.{op_of};
ghost use Rattle.table.specs.Ranks.{rank_of, fields_of};
ghost use Rattle.table.specs.Faults.{is_variable, is_constant, is_read, is_store, is_choice};

use crate::sorts::array;
use crate::words::Term;

// The lines of paper 01's table of operators, by the sorts that they ask (SMT-LIB: ranks).
#[derive(Clone, Copy)]
pub enum Rank {
    Literal,
    Input,
    BoolUnary,
    BoolBinary,
    Equality,
    Choice,
    BvUnary,
    BvBinary,
    BvCompare,
    Read,
    Write,
    Other,
}

// What the fields p, q, r hold: a value; a slot and a mark; one, two or three operands.
#[derive(Clone, Copy)]
pub enum Fields {
    Value,
    Slot,
    One,
    Two,
    Three,
}

// The operators' ranks by their numbers.
pub fn rank_of(op: u32) -> Rank
    ensures { result ≡ rank_of (op_of op) }
{
    match op {
        0 => Rank::Literal,
        1 => Rank::Input,
        2 => Rank::BoolUnary,
        3 => Rank::BoolBinary,
        4 => Rank::BoolBinary,
        5 => Rank::BoolBinary,
        6 => Rank::Equality,
        7 => Rank::Choice,
        8 => Rank::BvUnary,
        9 => Rank::BvBinary,
        10 => Rank::BvBinary,
        11 => Rank::BvBinary,
        12 => Rank::BvBinary,
        13 => Rank::BvBinary,
        14 => Rank::BvCompare,
        15 => Rank::Read,
        16 => Rank::Write,
        17 => Rank::BvUnary,
        18 => Rank::BvBinary,
        19 => Rank::BvCompare,
        20 => Rank::BvBinary,
        _ => Rank::Other,
    }
}

impl Rank {
    #[inline(always)]
    pub fn fields(self) -> Fields
        ensures { result ≡ fields_of self }
    {
        match self {
            Rank::Literal => Fields::Value,
            Rank::Input => Fields::Slot,
            Rank::BoolUnary | Rank::BvUnary => Fields::One,
            Rank::BoolBinary | Rank::Equality | Rank::BvBinary | Rank::BvCompare | Rank::Read => {
                Fields::Two
            }
            Rank::Choice | Rank::Write | Rank::Other => Fields::Three,
        }
    }
}

// What an operator's fields hold.
pub fn fields_of(op: u32) -> Fields
    ensures { result ≡ fields_of (rank_of (op_of op)) }
{
    rank_of(op).fields()
}

// The numbers of the operators that are known by themselves.
const OP_CONSTANT: u32 = 0;

const OP_VARIABLE: u32 = 1;

const OP_ITE: u32 = 7;

const OP_SELECT: u32 = 15;

const OP_STORE: u32 = 16;

// Whether a term is a variable.
pub fn is_variable(x: Term) -> bool
    ensures { result ≡ is_variable x }
{
    x.op == OP_VARIABLE
}

// Whether a term is a constant.
pub fn is_constant(x: Term) -> bool
    ensures { result ≡ is_constant x }
{
    x.op == OP_CONSTANT
}

// Whether a term is a read.
pub fn is_read(x: Term) -> bool
    ensures { result ≡ is_read x }
{
    x.op == OP_SELECT
}

// Whether a term is a store.
pub fn is_store(x: Term) -> bool
    ensures { result ≡ is_store x }
{
    x.op == OP_STORE
}

// Whether a term is a choice between two arrays.
pub fn is_choice(x: Term) -> bool
    ensures { result ≡ is_choice x }
{
    (x.op == OP_ITE) & array(x.sort)
}
