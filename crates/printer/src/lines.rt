// Names, bodies and lines, written at a place. Each answers the next place.
ghost use Rattle.std.specs.Prelude.{◌≡◌, [], ◌∷◌, map};
ghost use Rattle.smtlib.specs.Writing.{page, Wrote};
ghost use Rattle.table.specs.Faults.{fields};
ghost use Rattle.printer.specs.Scripts.{name_text, operands_text, body_text, command_text};
ghost use Rattle.printer.specs.Scripts as scripts;
ghost use Rattle.printer.specs.Printed as printed;

use smtlib::{constant, numeral, operator, sort, word};
use table::{Fields, Sort, Term};

fn slot_name(room: &mut [u8], at: usize, s: u32) -> usize
    ensures { Wrote (page room.old at)
        (name_text (scripts.Name.input s)) (page room.new result) }
{
    let to = word(room, at, b"v");
    numeral(room, to, s)
}

fn term_name(room: &mut [u8], at: usize, k: u32) -> usize
    ensures { Wrote (page room.old at)
        (name_text (scripts.Name.defined k)) (page room.new result) }
{
    let to = word(room, at, b"t");
    numeral(room, to, k)
}

// The name of term `k`, as an operand and in the assert.
pub fn name(table: &[u32], room: &mut [u8], at: usize, k: u32) -> usize
    ensures { Wrote (page room.old at)
        (name_text (printed.name table.now k)) (page room.new result) }
{
    let x = table::term_at(table, k);
    if table::is_variable(x) {
        return slot_name(room, at, x.p);
    }
    term_name(room, at, k)
}

// The name of term `k` after a space.
fn operand(table: &[u32], room: &mut [u8], at: usize, k: u32) -> usize
    ensures { Wrote (page room.old at)
        (operands_text (printed.name table.now k ∷ [])) (page room.new result) }
{
    let to = word(room, at, b" ");
    name(table, room, to, k)
}

// The operands of `x`.
fn operands(table: &[u32], room: &mut [u8], at: usize, x: Term) -> usize
    ensures { Wrote (page room.old at)
        (operands_text (map (printed.name table.now) (printed.operands (fields x) x)))
        (page room.new result) }
{
    match table::fields_of(x.op) {
        Fields::Value => at,
        Fields::Slot => at,
        Fields::One => operand(table, room, at, x.p),
        Fields::Two => {
            let a = operand(table, room, at, x.p);
            operand(table, room, a, x.q)
        }
        Fields::Three => {
            let a = operand(table, room, at, x.p);
            let b = operand(table, room, a, x.q);
            operand(table, room, b, x.r)
        }
    }
}

// The operator of `x` with its operands.
fn application(table: &[u32], room: &mut [u8], at: usize, x: Term) -> usize
    ensures { Wrote (page room.old at)
        (body_text x.sort.n (scripts.Body.application x.op
        (map (printed.name table.now) (printed.operands (fields x) x))))
        (page room.new result) }
{
    let a = word(room, at, b"(");
    let b = operator(room, a, x.op);
    let c = operands(table, room, b, x);
    word(room, c, b")")
}

fn body(table: &[u32], room: &mut [u8], at: usize, x: Term) -> usize
    ensures { Wrote (page room.old at)
        (body_text x.sort.n (printed.body table.now x)) (page room.new result) }
{
    if table::is_constant(x) {
        return constant(room, at, x.sort.n, x.p);
    }
    application(table, room, at, x)
}

// The declaration of slot `s`.
pub fn declare_line(room: &mut [u8], at: usize, s: u32, x: Sort) -> usize
    ensures { Wrote (page room.old at)
        (command_text (scripts.Command.declare s x)) (page room.new result) }
{
    let a = word(room, at, b"(declare-const ");
    let b = slot_name(room, a, s);
    let c = word(room, b, b" ");
    let d = sort(room, c, x.m, x.n);
    word(room, d, b")\n")
}

// The definition of term `k`, which is `x`.
pub fn define_line(table: &[u32], room: &mut [u8], at: usize, k: u32, x: Term) -> usize
    ensures { Wrote (page room.old at)
        (command_text (scripts.Command.define k x.sort (printed.body table.now x)))
        (page room.new result) }
{
    let a = word(room, at, b"(define-fun ");
    let b = term_name(room, a, k);
    let c = word(room, b, b" () ");
    let d = sort(room, c, x.sort.m, x.sort.n);
    let e = word(room, d, b" ");
    let f = body(table, room, e, x);
    word(room, f, b")\n")
}
