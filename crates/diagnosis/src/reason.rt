// The reasons for a refusal, with what is seen.
ghost use Rattle.std.specs.Prelude.{◌≡◌};
ghost use Rattle.diagnosis.specs.Telling.{vector_sort};

use table::Sort;

// A term itself, or one of its fields.
#[derive(Clone, Copy, PartialEq, Eq, Debug, Drop)]
pub enum Part {
    Whole,
    P,
    Q,
    R,
}

// What is asked of a sort.
#[derive(Clone, Copy, Drop)]
pub enum Asked {
    Exactly(Sort),
    AnyVector,
    AnyArray,
    NoArray,
}

// Why a refusal applies: a term by its number, an input by its slot, a sort's most by its width.
#[derive(Clone, Copy, Drop)]
pub enum Reason {
    // 1
    EmptyTable,
    UnevenTable {
        numbers: usize,
    },
    // 2
    TooManyTerms {
        terms: usize,
    },
    // 3
    UnknownOp {
        op: u32,
        last: u32,
    },
    // 4
    IndexTooWide {
        width: u32,
    },
    TooWide {
        width: u32,
    },
    NoElementWidth,
    // 5: an operand that is not below its term; a field that the operator doesn't have.
    LateOperand {
        part: Part,
        operand: u32,
        term: u32,
    },
    StrayField {
        part: Part,
        number: u32,
    },
    // 6: the part, which is this term.
    WrongSort {
        part: Part,
        term: u32,
        found: Sort,
        asked: Asked,
    },
    // 7
    ConstantTooLarge {
        value: u32,
        most: u32,
        sort: Sort,
    },
    SlotTooLarge {
        slot: u32,
    },
    MarkTooLarge {
        mark: u32,
    },
    // 8: the first term that has the slot, as another sort or with another mark.
    OtherSort {
        term: u32,
        slot: u32,
        there: Sort,
        here: Sort,
    },
    OtherMark {
        term: u32,
        slot: u32,
        there: u32,
        here: u32,
    },
    // 9
    TooManyStores {
        stores: u32,
    },
    // 10
    RuleNotBool {
        sort: Sort,
    },
    // 11
    UnevenCells {
        numbers: usize,
    },
    // 12
    NoValue {
        slot: u32,
        values: usize,
    },
    // 13
    ValueTooLarge {
        slot: u32,
        value: u32,
        most: u32,
        sort: Sort,
    },
    // 14
    NotAnArray {
        slot: u32,
    },
    // 15
    CellIndexTooLarge {
        index: u32,
        most: u32,
        sort: Sort,
    },
    CellValueTooLarge {
        value: u32,
        most: u32,
        sort: Sort,
    },
    // 16
    CutLine {
        numbers: usize,
    },
    UnknownKind {
        kind: u32,
    },
    ReversedSlots {
        lowest: u32,
        highest: u32,
    },
    LineSlotTooLarge {
        slot: u32,
    },
    // 23
    AllowanceTooSmall {
        allowance: u64,
        needed: u32,
    },
}

pub const BOOLEAN: Sort = Sort { m: 0, n: 0 };

pub fn vector_sort(n: u32) -> Sort
    ensures { result ≡ vector_sort n }
{
    Sort { m: 0, n }
}
