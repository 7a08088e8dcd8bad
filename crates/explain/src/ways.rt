// The terms on the way down from the rule.
ghost use Rattle.std.specs.Prelude.{◌≡◌};
ghost use Rattle.explain.specs.Ways.{marked, on_way, looked_at, way_of};

use crate::Judged;
use crate::operands::free_at;
use crate::sources::source_at;
use table::number_at;

// Marks number `k` of a row, where on; past its end there is none.
pub fn mark(row: &mut [u32], on: bool, k: u32)
    ensures { row.new ≡ marked on k row.old }
{
    let k = k as usize;
    if on && k < row.len() {
        row[k] = 1;
    }
}

// Whether term `k` is on the way.
pub fn on_way(marks: &[u32], k: u32) -> bool
    ensures { result ≡ on_way marks.now k }
{
    number_at(marks, k) == 1
}

impl Judged<'_> {
    // Marks what term `k` blames, where it is on the way: of its sources those that are not free.
    fn look_at(self, k: u32, marks: &mut [u32])
        ensures { marks.new
            ≡ looked_at self.entry.table.now self.entry.values.now self.entry.truths.now k marks.old }
    {
        if !on_way(marks, k) {
            return;
        }
        let x = table::term_at(self.table, k);
        // By number: with no heap there is no list of the sources to go over.
        let mut i = 0;
        while let Some(s) = source_at(self.table, self.values, x, i) {
            let term = s.term();
            mark(marks, !free_at(self.truths, term), term);
            i += 1;
        }
    }

    // 1 for each term on the way down, 0 else: the last of so many terms, where it is not free; and what each term on
    // the way blames. Terms past 511 are not marked.
    pub fn way(self, terms: u32) -> [u32; 512]
        ensures { result ≡ way_of self.entry.table.now self.entry.values.now self.entry.truths.now terms }
    {
        let mut marks = [0; 512];
        let rule = terms.saturating_sub(1);
        mark(&mut marks, 0 < terms && !free_at(self.truths, rule), rule);
        for k in (0..terms).rev() {
            self.look_at(k, &mut marks);
        }
        marks
    }
}
