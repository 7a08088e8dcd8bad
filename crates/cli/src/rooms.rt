// Rooms on the stack. One comes from a function, since one that is written in place is slow to prove.
ghost use Rattle.std.specs.Prelude.{◌≡◌, replicate};

// A small text, of up to 65,535 bytes and a byte more; a large one.
pub const SMALL: usize = 65536;

pub const LARGE: usize = cases::BYTE_LIMIT + 1;

// The numbers of a text, which are at most half as many as its bytes.
pub const SMALL_NUMBERS: usize = 32768;

pub const LARGE_NUMBERS: usize = cases::NUMBER_LIMIT;

// For the work of a command: a value for each of 5,461 terms, or of 80,000; a finished table, of up to 512 + 3 + 145 *
// 512 terms.
pub const SMALL_ROOM: usize = 8190;

pub const LARGE_ROOM: usize = 80000;

pub const FINISHED: usize = 448530;

// For solver text: short, and of 80,000 terms, which have at most 14,639 + 88 * 80,000 bytes.
pub const SHORT_LETTERS: usize = 65536;

pub const LONG_LETTERS: usize = 7054639;

// The table of a rule, of up to 512 terms; its names, which are shorter than its text.
pub const RULE_TABLE: usize = 3072;

pub const RULE_NAMES: usize = SMALL;

// The text of a setting, with room for the word that ends it.
pub const SMALL_SETTING: usize = 65552;

pub const LARGE_SETTING: usize = 4194320;

// For the lines of a sheet by name, at most 4,096.
pub const SHEET: usize = 12288;

pub fn bytes<const N: usize>() -> [u8; N]
    ensures { result ≡ replicate N 0 }
{
    [0u8; N]
}

pub fn numbers<const N: usize>() -> [u32; N]
    ensures { result ≡ replicate N 0 }
{
    [0u32; N]
}
