// The reason for a refusal (crate diagnosis) in words.
use diagnosis::{Asked, Part, Reason};
use page::Page;
use show::{Names, SortWords};
use std::fmt;
use std::fmt::Write as _;
use table::Sort;

// The end of a noun that is counted.
fn plural(count: u64) -> &'static str {
    if count == 1 { "" } else { "s" }
}

fn field(part: Part) -> &'static str {
    match part {
        Part::Whole => "the term",
        Part::P => "p",
        Part::Q => "q",
        Part::R => "r",
    }
}

// A part of a term, which is a term itself.
fn put_part(page: &mut Page, names: Names, part: Part, term: u32) -> fmt::Result {
    if part == Part::Whole {
        return write!(page, "the term");
    }
    write!(page, "operand {}, {},", field(part), names.term(term))
}

fn put_asked(page: &mut Page, asked: Asked) -> fmt::Result {
    match asked {
        Asked::Exactly(sort) => write!(page, "{}", SortWords(sort)),
        Asked::AnyVector => write!(page, "a BitVec"),
        Asked::AnyArray => write!(page, "an Array"),
        Asked::NoArray => write!(page, "no Array"),
    }
}

// 6
fn put_sorts(
    page: &mut Page,
    names: Names,
    part: Part,
    term: u32,
    found: Sort,
    asked: Asked,
) -> fmt::Result {
    put_part(page, names, part, term)?;
    write!(page, " is {}, and ", SortWords(found))?;
    put_asked(page, asked)?;
    write!(page, " is asked")
}

// "the index is 256, at most 255 fits BitVec 8"
fn put_large(page: &mut Page, what: &str, value: u32, most: u32, sort: Sort) -> fmt::Result {
    write!(
        page,
        "{what} is {value}, at most {most} fits {}",
        SortWords(sort)
    )
}

// 16, of a sheet; 23, of an allowance.
fn put_of_sheet(page: &mut Page, reason: Reason) -> fmt::Result {
    match reason {
        Reason::CutLine { numbers } => {
            let s = plural(numbers as u64);
            write!(page, "the last line has {numbers} number{s}, not three")
        }
        Reason::UnknownKind { kind } => {
            write!(
                page,
                "the kind is {kind}, and 1 (mark) or 0 (keep) is asked"
            )
        }
        Reason::ReversedSlots { lowest, highest } => write!(
            page,
            "the slots go from {lowest} down to {highest}, and the lowest comes first"
        ),
        Reason::LineSlotTooLarge { slot } => {
            write!(page, "the slot is {slot}, at most 255 is allowed")
        }
        Reason::AllowanceTooSmall { allowance, needed } => {
            let s = plural(needed as u64);
            write!(
                page,
                "the allowance is {allowance}, the reads take {needed} step{s}"
            )
        }
        _ => Ok(()),
    }
}

// 11 to 15, of a setting.
fn put_of_setting(page: &mut Page, names: Names, reason: Reason) -> fmt::Result {
    match reason {
        Reason::UnevenCells { numbers } => {
            let s = plural(numbers as u64);
            write!(
                page,
                "the cells have {numbers} number{s}, not three for each cell"
            )
        }
        Reason::NoValue { slot, values: 1 } => {
            write!(page, "the slot is {slot}, and there is 1 value")
        }
        Reason::NoValue { slot, values } => {
            write!(page, "the slot is {slot}, and there are {values} values")
        }
        Reason::ValueTooLarge {
            slot,
            value,
            most,
            sort,
        } => {
            write!(page, "the value of {} is {value}, ", names.slot(slot))?;
            write!(page, "at most {most} fits {}", SortWords(sort))
        }
        Reason::NotAnArray { slot } => {
            write!(page, "{} is no array of the table", names.slot(slot))
        }
        Reason::CellIndexTooLarge { index, most, sort } => {
            put_large(page, "the index", index, most, sort)
        }
        Reason::CellValueTooLarge { value, most, sort } => {
            put_large(page, "the value", value, most, sort)
        }
        _ => put_of_sheet(page, reason),
    }
}

// Of an input: its slot and its mark.
fn put_of_input(page: &mut Page, names: Names, reason: Reason) -> fmt::Result {
    match reason {
        Reason::SlotTooLarge { slot } => {
            write!(page, "the slot is {slot}, at most 255 is allowed")
        }
        Reason::MarkTooLarge { mark } => write!(page, "the mark is {mark}, at most 1 is allowed"),
        Reason::OtherSort {
            term,
            slot,
            there,
            here,
        } => {
            let term = names.term(term);
            write!(page, "{term} has slot {slot} as {}, ", SortWords(there))?;
            write!(page, "and here it is {}", SortWords(here))
        }
        Reason::OtherMark {
            term,
            slot,
            there,
            here,
        } => {
            let term = names.term(term);
            write!(page, "{term} has slot {slot} with mark {there}, ")?;
            write!(page, "and here it is {here}")
        }
        _ => put_of_setting(page, names, reason),
    }
}

// 7 to 10, of a term and those that it stands on.
fn put_of_term(page: &mut Page, names: Names, reason: Reason) -> fmt::Result {
    match reason {
        Reason::ConstantTooLarge { value, most, sort } => {
            put_large(page, "the constant", value, most, sort)
        }
        Reason::TooManyStores { stores } => write!(
            page,
            "{stores} stores and choices in the array, at most 16 are allowed"
        ),
        Reason::RuleNotBool { sort } => {
            write!(page, "the rule is {}, and Bool is asked", SortWords(sort))
        }
        _ => put_of_input(page, names, reason),
    }
}

// Of a table.
fn put_reason(page: &mut Page, names: Names, reason: Reason) -> fmt::Result {
    match reason {
        Reason::EmptyTable => write!(page, "the table has no numbers"),
        Reason::UnevenTable { numbers } => {
            let s = plural(numbers as u64);
            write!(
                page,
                "the table has {numbers} number{s}, not six for each term"
            )
        }
        Reason::TooManyTerms { terms } => {
            write!(page, "the table has {terms} terms, at most 512 are allowed")
        }
        Reason::UnknownOp { op, last } => write!(page, "the op is {op}, at most {last} is allowed"),
        Reason::IndexTooWide { width } => {
            write!(page, "the index width is {width}, at most 32 is allowed")
        }
        Reason::TooWide { width } => write!(page, "the width is {width}, at most 32 is allowed"),
        Reason::NoElementWidth => write!(page, "the width is 0, and an array's is 1 to 32"),
        Reason::LateOperand {
            part,
            operand,
            term,
        } => {
            write!(page, "operand {} is {}, ", field(part), names.term(operand))?;
            write!(page, "which is not below {}", names.term(term))
        }
        Reason::StrayField { part, number } => {
            let field = field(part);
            write!(
                page,
                "field {field} is {number}, and this operator has no such operand"
            )
        }
        Reason::WrongSort {
            part,
            term,
            found,
            asked,
        } => put_sorts(page, names, part, term, found, asked),
        _ => put_of_term(page, names, reason),
    }
}

// A reason, where one is known.
pub fn put_why(page: &mut Page, names: Names, reason: Option<Reason>) -> fmt::Result {
    match reason {
        Some(reason) => put_reason(page, names, reason),
        None => write!(page, "no reason is known"),
    }
}
