// The whole text, line by line.
ghost use Rattle.std.specs.Prelude.{◌≡◌};
ghost use Rattle.smtlib.specs.Bytes.{each};
ghost use Rattle.smtlib.specs.Writing.{page, Wrote};
ghost use Rattle.table.specs.Terms.{terms};
ghost use Rattle.table.specs.WellFormed.{WellFormed};
ghost use Rattle.printer.specs.Scripts.{commands_text};
ghost use Rattle.printer.specs.Printed.{first_use, declaration, definition, text};

use crate::lines::{declare_line, define_line, name};
use crate::slots::first_uses;
use smtlib::word;

// Of slot `s`, whose first use is term `k`; there are `n`.
fn declaration(table: &[u32], room: &mut [u8], at: usize, n: u32, s: u32, k: u32) -> usize
    requires { (n ≡ terms table.now) × (k ≡ first_use table.now s) }
    ensures { Wrote (page room.old at)
        (commands_text (declaration table.now s)) (page room.new result) }
{
    if k == n {
        return at;
    }
    declare_line(room, at, s, table::sort_at(table, k))
}

fn declarations(table: &[u32], room: &mut [u8], at: usize, n: u32) -> usize
    requires { n ≡ terms table.now }
    ensures { Wrote (page room.old at)
        (each (λ s. commands_text (declaration table.now s)) 256) (page room.new result) }
{
    let row = first_uses(table, n);
    let mut to = at;
    for s in 0..256u32 {
        let k = row[s as usize];
        to = declaration(table, room, to, n, s, k);
    }
    to
}

fn definition(table: &[u32], room: &mut [u8], at: usize, k: u32) -> usize
    ensures { Wrote (page room.old at)
        (commands_text (definition table.now k)) (page room.new result) }
{
    let x = table::term_at(table, k);
    if table::is_variable(x) {
        return at;
    }
    define_line(table, room, at, k, x)
}

fn definitions(table: &[u32], room: &mut [u8], at: usize, n: u32) -> usize
    ensures { Wrote (page room.old at)
        (each (λ k. commands_text (definition table.now k)) n) (page room.new result) }
{
    let mut to = at;
    for k in 0..n {
        to = definition(table, room, to, k);
    }
    to
}

// From the room's start; answers the place after it.
pub fn write(table: &[u32], room: &mut [u8]) -> usize
    requires { WellFormed 80000 table.now }
    ensures { Wrote (page room.old 0) (text table.now) (page room.new result) }
{
    let n = table::count(table);
    let a = word(room, 0, b"(set-logic QF_ABV)\n");
    let b = declarations(table, room, a, n);
    let c = definitions(table, room, b, n);
    let d = word(room, c, b"(assert ");
    let e = name(table, room, d, n - 1);
    word(room, e, b")\n(check-sat)\n")
}
