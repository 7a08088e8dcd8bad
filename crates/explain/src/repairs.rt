// What would mend a rule's condition.
ghost use Rattle.std.specs.Prelude.{◌≡◌};
ghost use Rattle.explain.specs.Repairs.{repair_of};

use crate::ways::{mark, on_way};

// 1 for each slot of a variable on the way down, among so many terms, 0 else: without the marks of these inputs the
// rule's condition is true. A slot past 255 has no place.
#[tactic(auto, unfolding(crate::specs::Repairs::repair_of))]
pub fn repair(table: &[u32], way: &[u32; 512], terms: u32) -> [u32; 256]
    ensures { result ≡ repair_of table.now way.now terms }
{
    let mut row = [0; 256];
    for k in 0..terms {
        let x = table::term_at(table, k);
        mark(&mut row, on_way(way, k) && table::is_variable(x), x.p);
    }
    row
}
