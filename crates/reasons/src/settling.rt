// The value of an operand that settles an operator.
ghost use Rattle.std.specs.Prelude.{◌≡◌};
ghost use Rattle.reasons.specs.Settling.{settling_value, settled};

// The value of the first or second operand that settles an operator: the first that does of 0, 1, the width, all ones and
// the bounds of the signed order. Tested one by one and not by a search of a list: all ones and the bounds are asked only
// of a width up to 32.
pub fn settling(op: u32, second: bool, width: u32) -> u32
    ensures { result ≡ settling_value op second width }
{
    let f = ops::op_of(op);
    if explain::would_settle(f, width, 0, second) {
        return 0;
    }
    if explain::would_settle(f, width, 1, second) {
        return 1;
    }
    if explain::would_settle(f, width, width, second) | (32 < width) {
        return width;
    }
    let all = ops::ones(width);
    if explain::would_settle(f, width, all, second) {
        return all;
    }
    let top = ops::greatest(width);
    if explain::would_settle(f, width, top, second) {
        return top;
    }
    ops::least(width)
}

// Whether any does.
pub fn settled(op: u32, second: bool, width: u32) -> bool
    ensures { result ≡ settled op second width }
{
    explain::would_settle(ops::op_of(op), width, settling(op, second, width), second)
}
