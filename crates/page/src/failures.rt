// Errors of the system, told on standard error.
use crate::Page;
use std::fmt;
use std::fmt::Write as _;
use std::io::{Error, ErrorKind, Result, Stderr};

// Whether a write failed since nobody reads any more.
pub fn is_closed(e: &Error) -> bool {
    e.kind() == ErrorKind::BrokenPipe
}

// The words of an error without the number that std shows after them.
fn put_words(page: &mut Page, e: &Error) -> fmt::Result {
    let mut draft = Page::draft();
    write!(draft, "{e}")?;
    let words = draft.text();
    let number = b" (os error ";
    let end = words
        .windows(number.len())
        .position(|part| part == number.as_slice())
        .unwrap_or(words.len());
    page.put_all(&words[..end])
}

fn put_failure(page: &mut Page, what: &[u8], e: &Error) -> fmt::Result {
    page.put_all(what)?;
    page.put_all(b": ")?;
    put_words(page, e)?;
    page.put(b'\n')
}

// What an error happened to, and the error.
pub fn fail(errors: Stderr, what: &[u8], e: &Error) -> Result<()> {
    let mut page = Page::errors(errors);
    let told = put_failure(&mut page, what, e);
    page.end(told)
}
