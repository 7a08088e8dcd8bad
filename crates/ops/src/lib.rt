// The operators on numbers: their values, as SMT-LIB 2.6 has them, and their conditions, as paper 01 does.
#![tactic(auto)]

ghost use Rattle.std.specs.Prelude.{◌≡◌, ◌+◌, ◌-◌, ◌*◌, ◌/◌, ◌%◌, ◌^◌, ◌<◌, ◌≤◌, true, false, not, ◌&&◌, ◌||◌, ◌-ℤ◌, neg_ℤ, if◌then◌else◌, ◌==◌, int_lt};
ghost use Rattle.std.specs.Int.Signed.{shr_z};
ghost use Rattle.ops.specs.Numbers.{op_of};
ghost use Rattle.ops.specs.Signed.{greatest, least, signed, wrap};
ghost use Rattle.ops.specs.Meaning.{bit, holds, value_of, apply};
ghost use Rattle.ops.specs.Condition.{absorbed, shifted, fixed_by, chosen, condition_of, settles};
ghost use Rattle.ops.specs.Fits.{fits};

// The functions on numbers, by SMT-LIB's names (Core, FixedSizeBitVectors).
#[derive(Clone, Copy)]
pub enum Function {
    Not,
    And,
    Or,
    Implies,
    Equal,
    BvNot,
    BvAnd,
    BvOr,
    BvAdd,
    BvMul,
    BvShl,
    BvUlt,
    BvNeg,
    BvSub,
    BvSlt,
    BvAshr,
}

// What a term is: a function of its operands, one of the others, or a number that has no operator.
#[derive(Clone, Copy)]
pub enum Op {
    Constant,
    Variable,
    Apply(Function),
    Ite,
    Select,
    Store,
    Unknown,
}

// The last op number.
pub const LAST_OP: u32 = 20;

// The operator of an op number.
pub fn op_of(number: u32) -> Op
    ensures { result ≡ op_of number }
{
    match number {
        0 => Op::Constant,
        1 => Op::Variable,
        2 => Op::Apply(Function::Not),
        3 => Op::Apply(Function::And),
        4 => Op::Apply(Function::Or),
        5 => Op::Apply(Function::Implies),
        6 => Op::Apply(Function::Equal),
        7 => Op::Ite,
        8 => Op::Apply(Function::BvNot),
        9 => Op::Apply(Function::BvAnd),
        10 => Op::Apply(Function::BvOr),
        11 => Op::Apply(Function::BvAdd),
        12 => Op::Apply(Function::BvMul),
        13 => Op::Apply(Function::BvShl),
        14 => Op::Apply(Function::BvUlt),
        15 => Op::Select,
        16 => Op::Store,
        17 => Op::Apply(Function::BvNeg),
        18 => Op::Apply(Function::BvSub),
        19 => Op::Apply(Function::BvSlt),
        20 => Op::Apply(Function::BvAshr),
        _ => Op::Unknown,
    }
}

pub fn bit(b: bool) -> u32
    ensures { result ≡ bit b }
{
    if b { 1 } else { 0 }
}

// `v` modulo 2^`n`.
fn reduce(n: u32, v: u32) -> u32
    ensures { result ≡ v % 2 ^ n }
{
    if n < 32 { v % (1u32 << n) } else { v }
}

// The vector of `n` ones.
pub fn ones(n: u32) -> u32
    requires { n ≤ 32 }
    ensures { result ≡ 2 ^ n - 1 }
{
    if n < 32 { (1u32 << n) - 1 } else { 4294967295 }
}

// Whether `x` is the vector of `n` ones; over 32 it is none.
fn all_ones(n: u32, x: u32) -> bool
    ensures { result ≡ (x == 2 ^ n - 1) }
{
    if n <= 32 { x == ones(n) } else { false }
}

fn bvnot(n: u32, x: u32) -> u32
    requires { n ≤ 32 }
    ensures { result ≡ (2 ^ n - 1) - x % 2 ^ n }
{
    ones(n) - reduce(n, x)
}

// The sum: it wraps at the word, and then at the width.
fn bvadd(n: u32, x: u32, y: u32) -> u32
    requires { n ≤ 32 }
    ensures { result ≡ (x + y) % 2 ^ n }
{
    reduce(n, std::num::wrapping_add_u32(x, y))
}

// The halves of a word, of 16 bits each.
fn low_half(x: u32) -> u32
    ensures { result ≡ x % 65536 }
{
    x % 65536
}

fn high_half(x: u32) -> u32
    ensures { result ≡ x / 65536 }
{
    x >> 16
}

// The low half, in the place of the high one.
fn moved_up(x: u32) -> u32
    ensures { result ≡ x % 65536 * 65536 }
{
    low_half(x) << 16
}

// The only multiplication: 16 by 16 bits.
fn product_of_halves(a: u32, b: u32) -> u32
    requires { (a < 65536) × (b < 65536) }
    ensures { result ≡ a * b }
{
    a * b
}

// The product as it wraps at the word. The high halves' product lies above the word, and so do the high halves of the
// cross products.
fn wrapping_product(x: u32, y: u32) -> u32
    ensures { result ≡ (x * y) % 2 ^ 32 }
{
    let xl = low_half(x);
    let xh = high_half(x);
    let yl = low_half(y);
    let yh = high_half(y);
    let cross = std::num::wrapping_add_u32(product_of_halves(xl, yh), product_of_halves(xh, yl));
    std::num::wrapping_add_u32(product_of_halves(xl, yl), moved_up(cross))
}

fn bvmul(n: u32, x: u32, y: u32) -> u32
    requires { n ≤ 32 }
    ensures { result ≡ (x * y) % 2 ^ n }
{
    reduce(n, wrapping_product(x, y))
}

fn bvshl(n: u32, x: u32, y: u32) -> u32
    requires { n ≤ 32 }
    ensures { result ≡ (x * 2 ^ y) % 2 ^ n }
{
    if y < n { reduce(n, x << y) } else { 0 }
}

fn bvneg(n: u32, x: u32) -> u32
    requires { n ≤ 32 }
    ensures { result ≡ wrap n (neg_ℤ (signed n x)) }
{
    bvadd(n, bvnot(n, x), 1)
}

fn bvsub(n: u32, x: u32, y: u32) -> u32
    requires { n ≤ 32 }
    ensures { result ≡ wrap n (signed n x -ℤ signed n y) }
{
    bvadd(n, x, bvneg(n, y))
}

// The place of the top bit; width 0 has none.
fn top(n: u32) -> u32
    ensures { result ≡ n - 1 }
{
    if n == 0 { 0 } else { n - 1 }
}

// The bounds of the signed order: all bits but the top one, and the top bit alone.
pub fn greatest(n: u32) -> u32
    requires { n ≤ 32 }
    ensures { result ≡ greatest n }
{
    ones(top(n))
}

pub fn least(n: u32) -> u32
    requires { n ≤ 32 }
    ensures { result ≡ least n }
{
    greatest(n) + 1
}

// Whether `x` is the top bit alone; over 32 it is none.
fn is_least(n: u32, x: u32) -> bool
    ensures { result ≡ (x == least n) }
{
    if n <= 32 { x == least(n) } else { false }
}

// The vector with its top bit turned: the signed order becomes the unsigned one.
fn turned(n: u32, x: u32) -> u32
    requires { n ≤ 32 }
    ensures { result ≡ (x + least n) % 2 ^ n }
{
    bvadd(n, x, least(n))
}

fn bvslt(n: u32, x: u32, y: u32) -> bool
    requires { n ≤ 32 }
    ensures { result ≡ int_lt (signed n x) (signed n y) }
{
    turned(n, x) < turned(n, y)
}

fn shift_right(x: u32, y: u32) -> u32
    ensures { result ≡ x / 2 ^ y }
{
    if y < 32 { x >> y } else { 0 }
}

// A vector whose top bit is 1 is shifted between two nots, so that ones come in.
fn bvashr(n: u32, x: u32, y: u32) -> u32
    requires { n ≤ 32 }
    ensures { result ≡ wrap n (shr_z (signed n x) (2 ^ y)) }
{
    let u = reduce(n, x);
    ite(
        u < least(n),
        shift_right(u, y),
        bvnot(n, shift_right(bvnot(n, x), y)),
    )
}

pub fn ite(test: bool, y: u32, z: u32) -> u32
    ensures { result ≡ (if test then y else z) }
{
    if test { y } else { z }
}

// The value of a function, from the first operand's width and the operands' values.
fn value_of(f: Function, n: u32, x: u32, y: u32) -> u32
    requires { n ≤ 32 }
    ensures { result ≡ value_of f n x y }
{
    match f {
        Function::Not => bit(x != 1),
        Function::And => bit((x == 1) & (y == 1)),
        Function::Or => bit((x == 1) | (y == 1)),
        Function::Implies => bit((x != 1) | (y == 1)),
        Function::Equal => bit(x == y),
        Function::BvNot => bvnot(n, x),
        Function::BvAnd => reduce(n, x & y),
        Function::BvOr => reduce(n, x | y),
        Function::BvAdd => bvadd(n, x, y),
        Function::BvMul => bvmul(n, x, y),
        Function::BvShl => bvshl(n, x, y),
        Function::BvUlt => bit(x < y),
        Function::BvNeg => bvneg(n, x),
        Function::BvSub => bvsub(n, x, y),
        Function::BvSlt => bit(bvslt(n, x, y)),
        Function::BvAshr => bvashr(n, x, y),
    }
}

// An operand that is free and settles the result, or both operands free.
fn absorbed(c: bool, a: bool, d: bool, b: bool) -> bool
    ensures { result ≡ absorbed c a d b }
{
    ((c & a) | (d & b)) | (c & d)
}

fn shifted(c: bool, d: bool, out: bool) -> bool
    ensures { result ≡ shifted c d out }
{
    (d & out) | (c & d)
}

// A first operand that is free and one of two values, or both operands free.
fn fixed_by(c: bool, d: bool, a: bool, b: bool) -> bool
    ensures { result ≡ fixed_by c d a b }
{
    ((c & a) | (c & b)) | (c & d)
}

// A free test picks the branch that must be free; else both branches are free and equal.
pub fn chosen(c: bool, test: bool, d: bool, e: bool, same: bool) -> bool
    ensures { result ≡ chosen c test d e same }
{
    (c & ((test & d) | (!test & e))) | ((d & e) & same)
}

// The condition of a function, from the first operand's width and the operands' values and conditions.
fn condition_of(f: Function, n: u32, x: u32, y: u32, c: bool, d: bool) -> bool
    ensures { result ≡ condition_of f n x y c d }
{
    match f {
        Function::Not => c,
        Function::And => absorbed(c, x != 1, d, y != 1),
        Function::Or => absorbed(c, x == 1, d, y == 1),
        Function::Implies => absorbed(c, x != 1, d, y == 1),
        Function::Equal => c & d,
        Function::BvNot => c,
        Function::BvAnd => absorbed(c, x == 0, d, y == 0),
        Function::BvOr => absorbed(c, all_ones(n, x), d, all_ones(n, y)),
        Function::BvAdd => c & d,
        Function::BvMul => absorbed(c, x == 0, d, y == 0),
        Function::BvShl => shifted(c, d, n <= y),
        Function::BvUlt => absorbed(c, all_ones(n, x), d, y == 0),
        Function::BvNeg => c,
        Function::BvSub => c & d,
        Function::BvSlt => absorbed(c, all_ones(top(n), x), d, is_least(n, y)),
        Function::BvAshr => fixed_by(c, d, x == 0, all_ones(n, x)),
    }
}

// The value of an operator, from the first operand's width and the operands' values.
fn apply(op: Op, n: u32, x: u32, y: u32, z: u32) -> u32
    requires { n ≤ 32 }
    ensures { result ≡ apply op n x y z }
{
    match op {
        Op::Constant => 0,
        Op::Variable => 0,
        Op::Apply(f) => value_of(f, n, x, y),
        Op::Ite => ite(x == 1, y, z),
        Op::Select => 0,
        Op::Store => 0,
        Op::Unknown => 0,
    }
}

// The value of the operator with a number. What evaluates a table calls this one: the numbers become operators here,
// where the value is picked.
pub fn apply_number(number: u32, n: u32, x: u32, y: u32, z: u32) -> u32
    requires { n ≤ 32 }
    ensures { result ≡ apply (op_of number) n x y z }
{
    apply(op_of(number), n, x, y, z)
}

// The condition of an operator, from the first operand's width and the operands' values and conditions.
pub fn settles(op: Op, n: u32, x: u32, y: u32, z: u32, c: bool, d: bool, e: bool) -> bool
    ensures { result ≡ settles op n x y z c d e }
{
    match op {
        Op::Constant => false,
        Op::Variable => false,
        Op::Apply(f) => condition_of(f, n, x, y, c, d),
        Op::Ite => chosen(c, x == 1, d, e, y == z),
        Op::Select => false,
        Op::Store => false,
        Op::Unknown => false,
    }
}

// The condition of the operator with a number.
fn settles_number(number: u32, n: u32, x: u32, y: u32, z: u32, c: bool, d: bool, e: bool) -> bool
    ensures { result ≡ settles (op_of number) n x y z c d e }
{
    settles(op_of(number), n, x, y, z, c, d, e)
}

// Value and condition together.
#[derive(Clone, Copy)]
pub struct Outcome {
    pub value: u32,
    pub free: bool,
}

fn outcome_of(number: u32, n: u32, x: u32, y: u32, z: u32, c: bool, d: bool, e: bool) -> Outcome
    requires { n ≤ 32 }
    ensures { result
        ≡ record { value = apply (op_of number) n x y z; free = settles (op_of number) n x y z c d e } }
{
    Outcome {
        value: apply_number(number, n, x, y, z),
        free: settles_number(number, n, x, y, z, c, d, e),
    }
}

// The same with an arm for each operator, in which its number is known: one jump finds both. What judges a table calls
// this one.
pub fn outcome_number(
    number: u32,
    n: u32,
    x: u32,
    y: u32,
    z: u32,
    c: bool,
    d: bool,
    e: bool,
) -> Outcome
    requires { n ≤ 32 }
    ensures { result
        ≡ record { value = apply (op_of number) n x y z; free = settles (op_of number) n x y z c d e } }
{
    match number {
        2 => outcome_of(2, n, x, y, z, c, d, e),
        3 => outcome_of(3, n, x, y, z, c, d, e),
        4 => outcome_of(4, n, x, y, z, c, d, e),
        5 => outcome_of(5, n, x, y, z, c, d, e),
        6 => outcome_of(6, n, x, y, z, c, d, e),
        7 => outcome_of(7, n, x, y, z, c, d, e),
        8 => outcome_of(8, n, x, y, z, c, d, e),
        9 => outcome_of(9, n, x, y, z, c, d, e),
        10 => outcome_of(10, n, x, y, z, c, d, e),
        11 => outcome_of(11, n, x, y, z, c, d, e),
        12 => outcome_of(12, n, x, y, z, c, d, e),
        13 => outcome_of(13, n, x, y, z, c, d, e),
        14 => outcome_of(14, n, x, y, z, c, d, e),
        17 => outcome_of(17, n, x, y, z, c, d, e),
        18 => outcome_of(18, n, x, y, z, c, d, e),
        19 => outcome_of(19, n, x, y, z, c, d, e),
        20 => outcome_of(20, n, x, y, z, c, d, e),
        _ => outcome_of(number, n, x, y, z, c, d, e),
    }
}

// Whether `v` fits width `n`, which is 0 for a Boolean.
pub fn fits(n: u32, v: u32) -> bool
    ensures { result ≡ fits n v }
{
    if n == 0 {
        v <= 1
    } else if n < 32 {
        (v >> n) == 0
    } else {
        true
    }
}
