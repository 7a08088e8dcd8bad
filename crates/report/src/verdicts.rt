// What a judgement comes to.
ghost use Rattle.std.specs.Prelude.{◌≡◌};
ghost use Rattle.report.specs.Outcomes.{outcome_of};

use crate::Files;
use judge::Verdict;
use page::Page;
use std::fmt;
use std::fmt::Write as _;

// Whether a setting passes; if not, whether its rule alone is false, its condition alone, or both.
#[derive(Clone, Copy, Debug, PartialEq, Eq)]
pub enum Outcome {
    Passes,
    RuleFalse,
    ConditionFalse,
    BothFalse,
}

impl From<Verdict> for Outcome {
    ghost from_gives = { λ v outcome. outcome ≡ outcome_of v };

    fn from(v: Verdict) -> Outcome {
        match (v.rule, v.condition) {
            (true, true) => Outcome::Passes,
            (false, true) => Outcome::RuleFalse,
            (true, false) => Outcome::ConditionFalse,
            (false, false) => Outcome::BothFalse,
        }
    }
}

impl Outcome {
    // Whether the setting passes.
    fn answer(self) -> &'static str {
        match self {
            Outcome::Passes => "yes",
            Outcome::RuleFalse => "no: the rule is false",
            Outcome::ConditionFalse => "no: the marked inputs may matter",
            Outcome::BothFalse => "no: the rule is false and the marked inputs may matter",
        }
    }

    // What the setting does.
    fn predicate(self) -> &'static str {
        match self {
            Outcome::Passes => "passes",
            Outcome::RuleFalse => "does not pass: the rule is false",
            Outcome::ConditionFalse => "does not pass: the marked inputs may matter",
            Outcome::BothFalse => {
                "does not pass: the rule is false and the marked inputs may matter"
            }
        }
    }

    // The sentence below a judgement's rows.
    fn sentence(self) -> &'static str {
        match self {
            Outcome::Passes => {
                "The setting passes: the rule is true whatever the marked inputs are."
            }
            Outcome::RuleFalse => {
                "The setting does not pass: the rule is false whatever the marked inputs are."
            }
            Outcome::ConditionFalse => "The setting does not pass: the marked inputs may matter.",
            Outcome::BothFalse => {
                "The setting does not pass: the rule is false, and the marked inputs may matter."
            }
        }
    }
}

// A judgement, in five lines.
pub fn put_verdict(page: &mut Page, v: Verdict) -> fmt::Result {
    writeln!(page, "rule       {}", v.rule)?;
    writeln!(page, "condition  {}", v.condition)?;
    writeln!(page, "passes     {}", Outcome::from(v).answer())?;
    put_spent(page, v.steps, v.left)
}

// A judgement among others, in a line.
pub fn put_outcome(page: &mut Page, files: Files, v: Verdict) -> fmt::Result {
    files.put_title(page)?;
    writeln!(page, ": {}", Outcome::from(v).predicate())
}

// A judgement below its rows.
pub fn put_told(page: &mut Page, v: Verdict, rule: u32) -> fmt::Result {
    writeln!(
        page,
        "\nThe rule, t{rule}, is {}. Its condition is {}.",
        v.rule, v.condition
    )?;
    writeln!(page, "{}", Outcome::from(v).sentence())?;
    writeln!(page, "Steps {}, left {}.", v.steps, v.left)
}

// Steps and what is left.
pub fn put_spent(page: &mut Page, steps: u64, left: u64) -> fmt::Result {
    writeln!(page, "steps      {steps}\nleft       {left}")
}

// The line before an answer, one of several; an empty line between two.
pub fn put_heading(page: &mut Page, files: Files, first: bool) -> fmt::Result {
    write!(page, "{}==> ", if first { "" } else { "\n" })?;
    files.put_title(page)?;
    writeln!(page, " <==")
}
