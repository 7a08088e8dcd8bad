// The parts of a case.
ghost use Rattle.std.specs.Prelude.{◌≡◌};
ghost use Rattle.cases.specs.Parts.{number, number_or_none, index};

#[derive(Clone, Copy, Debug, PartialEq, Eq)]
pub enum Part {
    Table,
    Values,
    Cells,
    Allowance,
    Sheet,
}

impl Part {
    // The part's number, by which callers name it.
    pub fn number(self) -> u32
        ensures { result ≡ number self }
    {
        match self {
            Part::Table => 1,
            Part::Values => 2,
            Part::Cells => 3,
            Part::Allowance => 4,
            Part::Sheet => 5,
        }
    }

    // Its place among the five.
    pub fn index(self) -> usize
        ensures { result ≡ index self }
    {
        match self {
            Part::Table => 0,
            Part::Values => 1,
            Part::Cells => 2,
            Part::Allowance => 3,
            Part::Sheet => 4,
        }
    }
}

// The number of a part, 0 before any heading.
pub fn number_or_none(part: Option<Part>) -> u32
    ensures { result ≡ number_or_none part }
{
    match part {
        Some(part) => part.number(),
        None => 0,
    }
}
