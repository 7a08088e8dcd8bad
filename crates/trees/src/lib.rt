// A rule as a tree, a line a term.
#![tactic(auto)]

mod bars; // what stands before a term

use arrayvec::ArrayVec;
use bars::{Bars, LEVELS};
use page::Page;
use show::Judged;
use std::fmt;
use std::fmt::Write as _;
use table::Term;

// A judged table has at most so many terms.
const TERMS: usize = 512;

// How a term was told: not yet, put off to a tree of its own, shown.
#[derive(Clone, Copy, PartialEq, Eq)]
enum Mark {
    Untold,
    Later,
    Shown,
}

// A tree that is told: a mark for each term, and the terms that were put off, in order.
#[derive(Drop)]
struct Tree<'a> {
    judged: &'a Judged<'a>,
    color: bool,
    marks: [Mark; TERMS],
    later: ArrayVec<u32, TERMS>,
}

impl<'a> Tree<'a> {
    fn new(judged: &'a Judged<'a>, color: bool) -> Tree<'a> {
        Tree {
            judged,
            color,
            marks: [Mark::Untold; TERMS],
            later: ArrayVec::new(),
        }
    }

    fn mark(&self, k: u32) -> Mark {
        self.marks.get(k as usize).copied().unwrap_or(Mark::Untold)
    }

    fn set_mark(&mut self, k: u32, mark: Mark) {
        if let Some(own) = self.marks.get_mut(k as usize) {
            *own = mark;
        }
    }

    // Puts a term off, where that was not done before.
    fn put_off(&mut self, k: u32) {
        if self.mark(k) == Mark::Later {
            return;
        }
        self.set_mark(k, Mark::Later);
        if !self.later.is_full() {
            self.later.push(k);
        }
    }

    // The words for a term's state, with colours or without.
    fn state(&self, free: bool) -> &'static str {
        match (self.color, free) {
            (false, false) => "not free",
            (false, true) => "free",
            (true, false) => "\x1b[31mnot free\x1b[0m",
            (true, true) => "\x1b[32mfree\x1b[0m",
        }
    }

    // What is told of a mark: a variable is marked where it is not free.
    fn marked(&self, x: Term, free: bool) -> &'static str {
        match (table::is_variable(x) && !free, self.color) {
            (false, _) => "",
            (true, false) => ", marked",
            (true, true) => ", \x1b[1mmarked\x1b[0m",
        }
    }

    // A term with its state.
    fn put_label(&self, page: &mut Page, k: u32) -> fmt::Result {
        let x = self.judged.term(k);
        let free = self.judged.is_free(k);
        write!(page, "{}", self.judged.label(k))?;
        if !show::is_bare(x) {
            write!(page, ", {}{}", self.state(free), self.marked(x, free))?;
        }
        writeln!(page)
    }

    // A term and the tree beneath it; of one that was shown, or stands too deep, where it is.
    fn put_term(&mut self, page: &mut Page, bars: Bars, k: u32) -> fmt::Result {
        write!(page, "{bars}")?;
        if self.mark(k) == Mark::Shown {
            return writeln!(page, "t{k}: see above");
        }
        let x = self.judged.term(k);
        let count = show::operands(x.op) as usize;
        let last = LEVELS <= bars.level;
        if last && count != 0 {
            self.put_off(k);
            return writeln!(page, "t{k}: see below");
        }
        self.set_mark(k, Mark::Shown);
        self.put_label(page, k)?;
        if last {
            return Ok(());
        }
        for (i, operand) in show::operands_of(x).enumerate() {
            self.put_term(page, bars.below(i + 1 < count), operand)?;
        }
        Ok(())
    }

    // The trees of the terms that were put off and not shown since, each after an empty line.
    fn put_later(&mut self, page: &mut Page) -> fmt::Result {
        // By number: telling one puts more of them off, so that the vector cannot be lent to the loop.
        for i in 0..TERMS {
            let Some(k) = self.later.get(i).copied() else {
                break;
            };
            if self.mark(k) != Mark::Shown {
                writeln!(page)?;
                self.put_term(page, Bars::NONE, k)?;
            }
        }
        Ok(())
    }
}

// The rule of a judgement.
pub fn put_tree(page: &mut Page, judged: &Judged, color: bool) -> fmt::Result {
    let mut tree = Tree::new(judged, color);
    tree.put_term(page, Bars::NONE, judged.terms.wrapping_sub(1))?;
    tree.put_later(page)
}
