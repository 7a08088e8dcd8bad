// The refusal of a rule: its place in the text, its reason, and the line with a caret.
ghost use Rattle.std.specs.Prelude.{◌≡◌};
ghost use Rattle.report.specs.Outcomes.{by_operand};

use crate::json::put_json_rule;
use crate::why::put_why;
use crate::{Files, Given};
use diagnosis::{Part, Reason};
use page::Page;
use show::Names;
use std::fmt;
use std::fmt::Write as _;
use table::{Refusal, Term};

// A rule that is refused: its text, its table, which is built again, and the names that it declares.
#[derive(Clone, Copy)]
pub struct RefusedRule<'a> {
    pub names: Names<'a>,
    pub text: &'a [u8],
    pub table: &'a [u32],
    pub refusal: Refusal,
}

// A typed list has the sort of one of its operands: where its own is at fault, that operand is told.
fn by_operand(reason: Reason, x: Term) -> Reason
    ensures { result ≡ by_operand reason x }
{
    match reason {
        Reason::WrongSort {
            part: Part::Whole,
            term: _,
            found,
            asked,
        } => Reason::WrongSort {
            part: if x.op == 7 { Part::Q } else { Part::P },
            term: if x.op == 7 { x.q } else { x.p },
            found,
            asked,
        },
        _ => reason,
    }
}

impl RefusedRule<'_> {
    // The byte at which it is refused.
    fn place(self) -> usize {
        errors::place_of(self.text, self.refusal.number, self.refusal.place)
    }

    // Refusal 6: the operator, and its operand at fault with the sorts found and asked.
    fn put_sorts(self, page: &mut Page) -> fmt::Result {
        let x = table::term_at(self.table, (self.refusal.place % 4294967296) as u32);
        let reason = Given::of_table(self.table).reason(self.refusal);
        errors::put_head(page, self.text, self.place())?;
        put_why(page, self.names, reason.map(|told| by_operand(told, x)))
    }

    // The reason: of the text, 31 to 35, by 2 or by 7; of the built table, where by 6 the operator stands before it.
    fn put_reason(self, page: &mut Page) -> fmt::Result {
        match self.refusal.number {
            number @ (2 | 7 | 31..) => errors::put_reason(page, self.text, number, self.place()),
            6 => self.put_sorts(page),
            _ => put_why(
                page,
                self.names,
                Given::of_table(self.table).reason(self.refusal),
            ),
        }
    }
}

// "RULE:LINE:COLUMN: N: ", the reason, the line and a caret.
pub fn put_rule_refusal(page: &mut Page, path: &[u8], refused: RefusedRule) -> fmt::Result {
    let place = refused.place();
    let line = outline::line_of(refused.text, place);
    let column = outline::column_of(refused.text, place);
    page.put_all(path)?;
    write!(page, ":{line}:{column}: {}: ", refused.refusal.number)?;
    refused.put_reason(page)?;
    writeln!(page, "")?;
    errors::put_excerpt(page, refused.text, place)
}

// The same in JSON.
pub fn put_json_rule_refusal(page: &mut Page, files: Files, refused: RefusedRule) -> fmt::Result {
    let mut draft = Page::draft();
    refused.put_reason(&mut draft)?;
    let place = refused.place();
    let line = outline::line_of(refused.text, place);
    let column = outline::column_of(refused.text, place);
    put_json_rule(page, files, line, column, refused.refusal, draft.text())
}
