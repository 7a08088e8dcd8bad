// Where in a case a refusal points.
ghost use Rattle.std.specs.Prelude.{◌≡◌};
ghost use Rattle.diagnosis.specs.Spots.{spot_at};

// A section of a case's text, by its number (crate cases).
#[derive(Clone, Copy, PartialEq, Eq, Debug, Drop)]
pub enum Section {
    Table = 1,
    Values = 2,
    Cells = 3,
    Allowance = 4,
    Sheet = 5,
}

// The word that begins a section, or one of its numbers.
#[derive(Clone, Copy, PartialEq, Eq, Debug, Drop)]
pub enum Spot {
    Heading(Section),
    Number(Section, usize),
}

// Of term, cell or line `i`, by the number that refuses it.
#[tactic(auto, unfolding(crate::specs::Spots::spot_at))]
pub fn spot_at(table: &[u32], number: u32, i: u32) -> Option<Spot>
    ensures { result ≡ spot_at table.now number i }
{
    let k = i as usize;
    match number {
        1 | 2 => Some(Spot::Heading(Section::Table)),
        11 => Some(Spot::Heading(Section::Cells)),
        3..=12 => Some(Spot::Number(Section::Table, k * 6)),
        13 => Some(Spot::Number(Section::Values, table::term_at(table, i).p as usize)),
        14 | 15 => Some(Spot::Number(Section::Cells, k * 3)),
        16 => Some(Spot::Number(Section::Sheet, k * 3)),
        23 => Some(Spot::Number(Section::Allowance, 0)),
        _ => None,
    }
}
