// Which reason for a refusal applies, with the numbers seen, and where in the case it stands.
#![tactic(auto)]

mod asking; // refusal 6
mod marks; // refusal 16
mod reason; // a reason with what is seen
mod settings; // refusals 11 to 15 and 23
mod spots; // where in the case
mod terms; // refusals 3 to 10

ghost use Rattle.std.specs.Prelude.{◌≡◌};
ghost use Rattle.diagnosis.specs.Telling.{tell};
ghost use Rattle.diagnosis.specs.Reasons.{length_lines, count_lines, table_reasons, small, diagnosis};
ghost use Rattle.diagnosis.specs.Spots.{spot};

pub use reason::{Asked, Part, Reason};
pub use spots::{Section, Spot};

// 1
fn length_told(numbers: usize) -> Option<Reason>
    ensures { result ≡ tell (length_lines numbers) }
{
    if numbers == 0 {
        Some(Reason::EmptyTable)
    } else if numbers % 6 != 0 {
        Some(Reason::UnevenTable { numbers })
    } else {
        None
    }
}

// 2
fn count_told(terms: usize) -> Option<Reason>
    ensures { result ≡ tell (count_lines terms) }
{
    if 512 < terms {
        Some(Reason::TooManyTerms { terms })
    } else {
        None
    }
}

// The reason for a refusal by this number at this place.
#[tactic(auto, unfolding(crate::specs::Reasons::reasons, crate::specs::Reasons::table_reasons))]
pub fn diagnose(
    table: &[u32],
    sheet: &[u32],
    values: &[u32],
    cells: &[u32],
    allowance: u64,
    number: u32,
    place: u64,
) -> Option<Reason>
    ensures { result ≡ diagnosis table.now sheet.now values.now
        cells.now allowance number place }
{
    let i = u32::try_from(place).ok()?;
    let terms = table.len() / table::WORDS;
    u32::try_from(terms).ok()?;
    match number {
        0 => None,
        1 => length_told(table.len()),
        2 => count_told(terms),
        3..=10 => terms::term_told(table, number, i),
        16 => marks::sheet_told(sheet, i),
        _ => settings::setting_told(table, values, cells, allowance, number, i),
    }
}

// Where a refusal by this number at this place points.
pub fn spot(table: &[u32], number: u32, place: u64) -> Option<Spot>
    ensures { result ≡ spot table.now number place }
{
    spots::spot_at(table, number, u32::try_from(place).ok()?)
}
