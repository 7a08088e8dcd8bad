// Names by their lines: name k is line k.
ghost use Rattle.std.specs.Prelude.{◌≡◌, [], get_or};
ghost use Rattle.std.specs.Iterator.{YieldsFirstRef, item_count};
ghost use Rattle.assignments.specs.Seeking.{slot_at, slot_of, names_of, names_left};

use outline::{Span, line_end};
use smtlib::same_bytes;

/// The names from a place on.
#[derive(Clone, Copy)]
pub struct Names<'a> {
    text: &'a [u8],
    at: usize,
}

impl<'a> Names<'a> {
    /// All of them.
    pub fn new(text: &'a [u8]) -> Self
        ensures { names_left result.text.now result.at ≡ names_of text.now }
    {
        Names { text, at: 0 }
    }
}

impl<'a> Iterator for Names<'a> {
    type Item = &'a [u8];

    ghost next_gives = { YieldsFirstRef (λ s. names_left s.text.now s.at) };

    ghost remaining = { item_count (λ s. names_left s.text.now s.at) };

    fn next(&mut self) -> Option<&'a [u8]> {
        if self.at < self.text.len() {
            let end = line_end(self.text, self.at);
            let name = Span {
                from: self.at,
                to: end,
            };
            self.at = end + 1;
            Some(name.of(self.text))
        } else {
            None
        }
    }
}

// The slot of name `k`: there are 2^32 - 1 slots.
fn slot_at(k: u32) -> Option<u32>
    ensures { result ≡ slot_at k }
{
    if k < u32::MAX { Some(k) } else { None }
}

/// The slot of a name; none where it is not declared.
pub fn slot_of(names: &[u8], word: &[u8]) -> Option<u32>
    ensures { result ≡ slot_of names.now word.now }
{
    let mut k = 0u32;
    for name in Names::new(names) {
        if same_bytes(name, word) {
            return slot_at(k);
        }
        k = k.saturating_add(1);
    }
    None
}

/// The bytes of name `k`; none where there is no such name.
pub fn name_at(names: &[u8], k: u32) -> &[u8]
    ensures { result.now ≡ get_or (names_of names.now) k [] }
{
    let mut left = k;
    for name in Names::new(names) {
        if left == 0 {
            return name;
        }
        left -= 1;
    }
    &[]
}
