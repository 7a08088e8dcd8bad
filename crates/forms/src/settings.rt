// Settings of rules.
ghost use Rattle.io.specs.Counts.{IsPrefixLen};

use crate::reading::copy;
use diagnosis::{Section, Spot};
use table::Refusal;

// The word table after so many bytes of a text, on a line of its own, as far as the text goes; the bytes then.
pub fn put_table_word(text: &mut [u8], at: usize) -> usize
    ensures { IsPrefixLen result text.new }
{
    let start = page::filled(text, at);
    start + copy(b"\ntable\n", &mut text[start..])
}

// The line of a setting in parts that a refusal is about.
fn part_line(text: &[u8], table: &[u32], r: Refusal) -> Option<u64> {
    if r.number == 12 {
        return cases::heading_line(text, Section::Values as u32);
    }
    match diagnosis::spot(table, r.number, r.place)? {
        Spot::Heading(section) => cases::heading_line(text, section as u32),
        Spot::Number(section, k) => cases::number_line(text, section as u32, k),
    }
}

// The byte of a setting by name: of a value, of a cell, of the allowance.
fn name_place(text: &[u8], names: &[u8], table: &[u32], r: Refusal) -> usize {
    let i = u32::try_from(r.place).unwrap_or(u32::MAX);
    match r.number {
        13 => assignments::value_place(names, text, table::term_at(table, i).p),
        14 | 15 => assignments::cell_place(text, i),
        _ => assignments::allowance_place(text),
    }
}

// The line of a setting that a refusal is about.
pub fn setting_line(text: &[u8], names: &[u8], table: &[u32], r: Refusal) -> Option<u64> {
    if assignments::by_parts(text) {
        return part_line(text, table, r);
    }
    Some(outline::line_of(text, name_place(text, names, table, r)))
}
