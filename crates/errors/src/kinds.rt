// What can be expected at a place of a text, what can stand there, and the reasons that can be told.

// What is expected.
#[derive(Clone, Copy, Debug, PartialEq, Eq)]
pub enum Expected {
    Opening,
    Command,
    Symbol,
    Sort,
    Width,
    DeclarationEnd,
    Expression,
    AssertEnd,
    Operator,
    Operand,
    CheckSatEnd,
    Nothing,
}

// What stands there.
#[derive(Clone, Copy, Debug, PartialEq, Eq)]
pub enum Found {
    TextEnd,
    Semicolon,
    LeftParenthesis,
    RightParenthesis,
    DeclareConst,
    // assert, or an underscore
    OtherKeyword,
    OperatorName,
    Constant,
    Reserved,
    // a word that begins like a number or a constant
    Numeric,
    Name,
    Unknown,
    CheckSat,
}

// Why a rule is refused.
#[derive(Clone, Copy, Debug, PartialEq, Eq)]
pub enum Reason {
    // this is expected, and nothing else is to be said
    NotExpected(Expected),
    Comment,
    EndsEarly(Expected),
    LateDeclaration,
    ReservedForName,
    OperatorForName,
    ConstantForName,
    BadConstant,
    OperatorForOperand,
    ReservedForOperand,
    NameForOperator,
    NotDeclared,
    DeclaredTwice,
    TooDeep,
    TooFewOperands,
    TooManyOperands,
    NoAssert,
    TooManyTerms,
    TooManyNames,
}
