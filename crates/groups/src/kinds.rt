// The kinds of groups (paper 01, "The condition of each term"; of less and the signed operators paper 02, requests 03 and 05), and which of them an operator has.
ghost use Rattle.std.specs.Prelude.{◌≡◌};
ghost use Rattle.ops.specs.Numbers.{op_of};
ghost use Rattle.groups.specs.FunctionGroups.{kind_of};

#[derive(Clone, Copy)]
pub enum GroupKind {
    Literal, // constant
    Input, // variable
    Unary, // not, vector not, negate
    Strict, // equal, sum, difference
    Conjunction, // and
    Disjunction, // or
    Implication, // implies
    Zero, // vector and, product: settled by 0
    Ones, // vector or: settled by 2^n - 1
    Bounds, // less: settled by 2^n - 1 on the left, by 0 on the right
    SignedBounds, // signed less: by the greatest on the left, the least on the right
    Fixed, // right shift: by 0 or 2^n - 1 on the left
    Shift,
    Choice,
    Read,
    Write, // store
}

// The operators' kinds by their numbers. A constant array would be copied to the stack at each use.
pub fn kind_of(op: u32) -> GroupKind
    ensures { result ≡ kind_of (op_of op) }
{
    match op {
        0 => GroupKind::Literal,
        1 => GroupKind::Input,
        2 => GroupKind::Unary,
        3 => GroupKind::Conjunction,
        4 => GroupKind::Disjunction,
        5 => GroupKind::Implication,
        6 => GroupKind::Strict,
        7 => GroupKind::Choice,
        8 => GroupKind::Unary,
        9 => GroupKind::Zero,
        10 => GroupKind::Ones,
        11 => GroupKind::Strict,
        12 => GroupKind::Zero,
        13 => GroupKind::Shift,
        14 => GroupKind::Bounds,
        15 => GroupKind::Read,
        16 => GroupKind::Write,
        17 => GroupKind::Unary,
        18 => GroupKind::Strict,
        19 => GroupKind::SignedBounds,
        20 => GroupKind::Fixed,
        _ => GroupKind::Write,
    }
}
