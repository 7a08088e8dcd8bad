// The first use of each slot.
ghost use Rattle.std.specs.Prelude.{◌≡◌};
ghost use Rattle.printer.specs.Code.Slots.{slotted, FirstUses};

use table::Term;

// Whether a term is a variable of a slot up to 255.
fn slotted(x: Term) -> bool
    ensures { result ≡ slotted x }
{
    table::is_variable(x) & (x.p < 256)
}

// The first of `n` terms that is a variable of each slot; `n` where none is. From the last term to the first: the first
// stays.
pub fn first_uses(table: &[u32], n: u32) -> [u32; 256]
    ensures { FirstUses table.now n result }
{
    let mut row = [n; 256];
    for i in 0..n {
        let k = n - 1 - i;
        let x = table::term_at(table, k);
        if !slotted(x) {
            continue;
        }
        let at = (x.p % 256) as usize;
        row[at] = k;
    }
    row
}
