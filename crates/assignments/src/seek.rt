// Where the values of names, of cells and of the allowance stand in a text.
ghost use Rattle.std.specs.Prelude.{◌≡◌};
ghost use Rattle.assignments.specs.Seeking.{met_after, valued, place_after, value_place, cell_place};
ghost use Rattle.assignments.specs.Seeking.{allowance_place, heading, neutral, by_parts};

use crate::names::name_at;
use crate::tokens::{Kind, Tokens, decimal_of};
use smtlib::same_bytes;

// What was met of a word and the equals sign after it.
#[derive(Clone, Copy, Debug, PartialEq, Eq)]
enum Met {
    Nothing,
    Word,
    Both,
    // mark or keep, after which a word is the name that is marked
    Marking,
}

impl Met {
    fn after(self, sought: &[u8], word: &[u8]) -> Met
        ensures { result ≡ met_after sought.now self word.now }
    {
        let kind = Kind::of(word);
        match self {
            Met::Word if kind == Kind::Equals => Met::Both,
            Met::Marking => Met::Nothing,
            _ if same_bytes(word, sought) => Met::Word,
            _ if matches!(kind, Kind::Mark | Kind::Keep) => Met::Marking,
            _ => Met::Nothing,
        }
    }

    // A token is a value.
    fn valued(self, equals: bool, word: &[u8]) -> bool
        ensures { result ≡ valued equals self word.now }
    {
        if equals {
            self == Met::Both
        } else {
            self == Met::Word && !Kind::of(word).assigns()
        }
    }
}

/// The place of value `k` after a word, and an equals sign where one is asked for; the text's length where there is none.
pub fn place_after(text: &[u8], sought: &[u8], equals: bool, k: u32) -> usize
    ensures { result ≡ place_after text.now sought.now equals k }
{
    // No Option: whoever asks takes the line of the place, and where there is none that of the text's end.
    let mut left = k;
    let mut met = Met::Nothing;
    for token in Tokens::new(text) {
        let word = token.of(text);
        if met.valued(equals, word) {
            if left == 0 {
                return token.from;
            }
            left -= 1;
        }
        met = met.after(sought, word);
    }
    text.len()
}

/// The place of the value of a name; the text's length where there is none.
pub fn value_place(names: &[u8], text: &[u8], slot: u32) -> usize
    ensures { result ≡ value_place names.now text.now slot }
{
    place_after(text, name_at(names, slot), true, 0)
}

/// The same of cell `k`.
pub fn cell_place(text: &[u8], k: u32) -> usize
    ensures { result ≡ cell_place text.now k }
{
    place_after(text, b"]", true, k)
}

/// The same of the allowance.
pub fn allowance_place(text: &[u8]) -> usize
    ensures { result ≡ allowance_place text.now }
{
    place_after(text, b"allowance", false, 0)
}

// table, sheet, values, cells.
fn heading(word: &[u8]) -> bool
    ensures { result ≡ heading word.now }
{
    same_bytes(word, b"table")
        || same_bytes(word, b"sheet")
        || same_bytes(word, b"values")
        || same_bytes(word, b"cells")
}

// allowance, or a decimal number.
fn neutral(word: &[u8]) -> bool
    ensures { result ≡ neutral word.now }
{
    Kind::of(word) == Kind::Allowance || decimal_of(word).is_some()
}

/// The setting is in the parts of a case file: its first token that is neither allowance nor a number is sheet, values,
/// cells or table, and neither = nor [ follows.
pub fn by_parts(text: &[u8]) -> bool
    ensures { result ≡ by_parts text.now }
{
    let mut found = false;
    for token in Tokens::new(text) {
        let word = token.of(text);
        if found {
            return !Kind::of(word).assigns();
        }
        if !neutral(word) {
            if !heading(word) {
                return false;
            }
            found = true;
        }
    }
    found
}
