// A rule in the DOT language.
#![tactic(auto)]

use page::Page;
use show::Judged;
use std::fmt;
use std::fmt::Write as _;
use table::{Term, number_at};

// No term's value comes from more terms.
const SOURCES: usize = 18;

// A judgement, and the text of its rule, of a case empty.
#[derive(Clone, Copy)]
struct Graph<'a> {
    judged: &'a Judged<'a>,
    rule: &'a [u8],
}

// A node's shape and colour: a variable is marked where it is not free.
fn style(x: Term, free: bool) -> (&'static str, &'static str) {
    match (table::is_variable(x), free) {
        (true, false) => ("octagon", "orange"),
        (true, true) => ("box", "palegreen"),
        _ if show::is_bare(x) => ("ellipse", "white"),
        (false, true) => ("ellipse", "palegreen"),
        (false, false) => ("hexagon", "indianred1"),
    }
}

impl Graph<'_> {
    // The tooltip of a term that is no variable: its expression as it was typed in the text of a rule, nothing where
    // there is none. A rule's words have neither a quotation mark nor a backslash, so that nothing is escaped.
    fn put_tooltip(&self, page: &mut Page, k: u32, x: Term) -> fmt::Result {
        if self.rule.is_empty() || table::is_variable(x) {
            return Ok(());
        }
        write!(page, ", tooltip=\"")?;
        errors::put_expression(page, self.rule, k)?;
        page.put(b'"')
    }

    fn put_node(&self, page: &mut Page, k: u32, x: Term) -> fmt::Result {
        let (shape, color) = style(x, self.judged.is_free(k));
        write!(page, "t{k} [label=\"{}\", ", self.judged.label(k))?;
        write!(page, "shape={shape}, fillcolor={color}")?;
        self.put_tooltip(page, k, x)?;
        writeln!(page, "];")
    }

    // The term that a term's value comes from by source `i`, where that is not free.
    fn blamed(&self, x: Term, i: usize) -> Option<u32> {
        let k = explain::source_at(self.judged.table, self.judged.values, x, i)?.term();
        if self.judged.is_free(k) {
            None
        } else {
            Some(k)
        }
    }

    // An edge to each operand of term `k`, bold where that is blamed and term `k` is on the way.
    fn put_edges(&self, page: &mut Page, k: u32, x: Term, on: bool) -> fmt::Result {
        for operand in show::operands_of(x) {
            let bold = on && (0..SOURCES).any(|i| self.blamed(x, i) == Some(operand));
            let style = if bold { " [style=bold]" } else { "" };
            writeln!(page, "t{k} -> t{operand}{style};")?;
        }
        Ok(())
    }

    // A dashed edge from term `k`, on the way, to each that it blames and that is no operand of it.
    fn put_blames(&self, page: &mut Page, k: u32, x: Term) -> fmt::Result {
        for i in 0..SOURCES {
            match self.blamed(x, i) {
                Some(j) if !show::operands_of(x).any(|operand| operand == j) => {
                    writeln!(page, "t{k} -> t{j} [style=\"bold,dashed\"];")?;
                }
                _ => {}
            }
        }
        Ok(())
    }

    // Term `k`: its node and its edges.
    fn put_term(&self, page: &mut Page, k: u32, on: bool) -> fmt::Result {
        let x = self.judged.term(k);
        self.put_node(page, k, x)?;
        self.put_edges(page, k, x, on)?;
        if on {
            self.put_blames(page, k, x)?;
        }
        Ok(())
    }
}

// The rule of a judgement; of a case the rule's text is empty.
pub fn put_graph(page: &mut Page, rule: &[u8], judged: &Judged) -> fmt::Result {
    let graph = Graph { judged, rule };
    let explained = explain::Judged {
        table: judged.table,
        values: judged.values,
        truths: judged.truths,
    };
    let way = explained.way(judged.terms);
    writeln!(page, "digraph rule {{\nnode [style=filled];")?;
    for k in 0..judged.terms {
        graph.put_term(page, k, number_at(&way, k) == 1)?;
    }
    writeln!(page, "}}")
}
