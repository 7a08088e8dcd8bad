// What stands in a text: a line with a caret under a place, a term as it was typed.
use crate::contexts::between;
use page::Page;
use std::fmt;
use std::fmt::{Display, Formatter, Write as _};

// Bytes as they are shown: a question mark for each that is not printed.
#[derive(Clone, Copy)]
struct Visible<'a>(&'a [u8]);

impl Display for Visible<'_> {
    fn fmt<W: fmt::Write>(&self, f: &mut Formatter<W>) -> fmt::Result {
        for b in self.0 {
            let shown = matches!(b, b'\t' | b' '..=b'~');
            f.write_char(char::from(if shown { *b } else { b'?' }))?;
        }
        Ok(())
    }
}

// A blank for each of some bytes, a tab for a tab.
#[derive(Clone, Copy)]
struct Blank<'a>(&'a [u8]);

impl Display for Blank<'_> {
    fn fmt<W: fmt::Write>(&self, f: &mut Formatter<W>) -> fmt::Result {
        for b in self.0 {
            f.write_char(if *b == b'\t' { '\t' } else { ' ' })?;
        }
        Ok(())
    }
}

// A word; of a longer one the first 64 bytes, and three dots.
#[derive(Clone, Copy)]
pub struct Shown<'a>(pub &'a [u8]);

impl Display for Shown<'_> {
    fn fmt<W: fmt::Write>(&self, f: &mut Formatter<W>) -> fmt::Result {
        let word = self.0;
        match word.get(..64) {
            Some(front) if 64 < word.len() => write!(f, "{}...", Visible(front)),
            _ => Visible(word).fmt(f),
        }
    }
}

// Where a line's part that is shown begins: of a line of over 120 bytes at most 60 before the place.
fn begins(start: usize, end: usize, place: usize) -> usize {
    if end.wrapping_sub(start) <= 120 || place.wrapping_sub(start) <= 60 {
        start
    } else {
        place.wrapping_sub(60)
    }
}

// Where it ends: after 120 bytes at most, before the line feed and a carriage return.
fn ends(text: &[u8], from: usize, end: usize) -> usize {
    let line = between(text, from, end);
    let kept = line.strip_suffix(b"\r").unwrap_or(line);
    from.saturating_add(kept.len().min(120))
}

// The line of a place, and a caret under it.
pub fn put_excerpt(page: &mut Page, text: &[u8], place: usize) -> fmt::Result {
    let end = outline::line_end(text, place);
    let from = begins(outline::line_start(text, place), end, place);
    let to = ends(text, from, end);
    writeln!(page, "{}", Visible(between(text, from, to)))?;
    writeln!(page, "{}^", Blank(between(text, from, place)))
}

// Some bytes more, white space as one space, up to one more than `most` in all.
fn squeeze(draft: &mut Page, bytes: &[u8], most: usize) -> fmt::Result {
    let mut before = false;
    for b in bytes {
        let white = parser::white(*b);
        if draft.text().len() <= most && !(white && before) {
            draft.put(if white { b' ' } else { *b })?;
            before = white;
        }
    }
    Ok(())
}

// So many bytes, up to `most`; of more the first, and three dots.
fn put_cut(page: &mut Page, bytes: &[u8], most: usize) -> fmt::Result {
    if bytes.len() <= most {
        return page.put_all(bytes);
    }
    page.put_all(between(bytes, 0, most.saturating_sub(3)))?;
    page.put_all(b"...")
}

// A term as it was typed, white space as one space, in up to 200 bytes.
pub fn put_expression(page: &mut Page, text: &[u8], term: u32) -> fmt::Result {
    let mut draft = Page::draft();
    let span = outline::span_of(text, term);
    squeeze(&mut draft, span.of(text), 200)?;
    put_cut(page, draft.text(), 200)
}

// A term with its number, its line and column, and as it was typed, in a line of up to 80 bytes.
pub fn put_typed(page: &mut Page, text: &[u8], term: u32) -> fmt::Result {
    let mut draft = Page::draft();
    let span = outline::span_of(text, term);
    let line = outline::line_of(text, span.from);
    let column = outline::column_of(text, span.from);
    write!(draft, "    t{term}  {line}:{column}  ")?;
    squeeze(&mut draft, span.of(text), 80)?;
    put_cut(page, draft.text(), 80)?;
    page.put(b'\n')
}
