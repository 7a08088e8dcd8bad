// A page: a row of bytes that is written to its stream whenever it is full. A write that fails is kept, and whatever was
// put on the page answers an error.
#![tactic(auto)]

mod failures; // errors of the system
mod words; // text that is kept as bytes

ghost use Rattle.std.specs.Prelude.{◌≡◌, ℕ, ◌+◌, ◌<◌, ◌≤◌, List, [], ◌∷◌, ◌++◌, length, take, min, IfOk, Some, None, Err};
ghost use Rattle.io.specs.Counts.{IsPrefixLen};

pub use failures::{fail, is_closed};
use std::fmt;
use std::fmt::{Display, Write as _};
use std::io::{Error, ErrorKind, Print, Result, Stderr, Stdout};
use std::marker::Model;
pub use words::{Ascii, Short};

const SIZE: usize = 4096;

// Where a page is written. A draft is not: what was put there is read back.
#[derive(Clone, Copy)]
enum Stream {
    Output(Stdout),
    Errors(Stderr),
    Draft,
}

// Keeps what a write came to: of failures the first, whatever comes after it. An error where there is one.
fn keep(failure: &mut Option<Error>, written: Result<()>) -> fmt::Result
    ensures first { (e : Error) → failure.old ≡ Some e → failure.new ≡ Some e }
    ensures kept { (e : Error) → failure.old ≡ None → written ≡ Err e → failure.new ≡ Some e }
    ensures none_lost { IfOk result (λ _. failure.new ≡ None) }
{
    if failure.is_none() {
        *failure = written.err();
    }
    match failure {
        None => Ok(()),
        Some(_) => Err(fmt::Error),
    }
}

#[derive(Drop)]
pub struct Page {
    row: [u8; SIZE],
    at: usize,
    stream: Stream,
    failure: Option<Error>,
}

// In contracts a page is the bytes that it holds.
impl Model for Page {
    ghost Value = { List ℕ };

    ghost view = { λ p. take p.at p.row };

    ghost invariant = { λ p. p.at ≤ 4096 };
}

impl Page {
    fn new(stream: Stream) -> Page
        ensures { result ≡ [] }
    {
        Page {
            row: io::buffer(),
            at: 0,
            stream,
            failure: None,
        }
    }

    // A page for standard output.
    pub fn output(output: Stdout) -> Page
        ensures { result ≡ [] }
    {
        Page::new(Stream::Output(output))
    }

    // A page for standard error.
    pub fn errors(errors: Stderr) -> Page
        ensures { result ≡ [] }
    {
        Page::new(Stream::Errors(errors))
    }

    pub fn draft() -> Page
        ensures { result ≡ [] }
    {
        Page::new(Stream::Draft)
    }

    // What it holds.
    pub fn text(&self) -> &[u8]
        ensures { result.now ≡ self.now }
    {
        &self.row[..self.at]
    }

    // Writes what it holds.
    fn write_out(&self) -> Result<()> {
        match self.stream {
            Stream::Output(output) => output.write_all(self.text()),
            Stream::Errors(errors) => errors.write_all(self.text()),
            Stream::Draft => Err(Error::from(ErrorKind::StorageFull)),
        }
    }

    // Begins it anew, once it is written. After a failure nothing is written any more.
    fn flush(&mut self) -> fmt::Result
        ensures { IfOk result (λ _. self.new ≡ []) }
    {
        if self.failure.is_some() {
            return Err(fmt::Error);
        }
        let written = self.write_out();
        keep(&mut self.failure, written)?;
        self.at = 0;
        Ok(())
    }

    // One byte more. A page that is full is written first.
    pub fn put(&mut self, byte: u8) -> fmt::Result
        ensures more { length self.old < 4096 → IfOk result (λ _. self.new ≡ self.old ++ byte ∷ []) }
        ensures anew { length self.old ≡ 4096 → IfOk result (λ _. self.new ≡ byte ∷ []) }
    {
        if self.at == SIZE {
            self.flush()?;
        }
        self.row[self.at] = byte;
        self.at += 1;
        Ok(())
    }

    // Bytes as they are.
    pub fn put_all(&mut self, bytes: &[u8]) -> fmt::Result
        ensures { length self.old + length bytes.now ≤ 4096 → IfOk result (λ _. self.new ≡ self.old ++ bytes.now) }
    {
        for b in bytes {
            self.put(*b)?;
        }
        Ok(())
    }

    // A column of so many places: what is shown, and spaces, one at least. It is shown once: what is shown may be dear to find.
    pub fn put_column<T: Display>(&mut self, width: usize, shown: &T) -> fmt::Result {
        let mut column = Column {
            page: self,
            width: Count(0),
        };
        write!(column, "{shown}")?;
        let spaces = width.saturating_sub(column.width.0).max(1);
        write!(self, "{:spaces$}", "")
    }

    // Writes what is left; an error where not all that was ever put was written.
    pub fn end(&self, told: fmt::Result) -> Result<()> {
        match (told, self.failure) {
            (_, Some(e)) => Err(e),
            (Ok(()), None) => self.write_out(),
            (Err(_), None) => Err(Error::from(ErrorKind::Other)),
        }
    }
}

impl fmt::Write for Page {
    ghost write_str_gives = { λ p text q. length p + length text ≤ 4096 → q ≡ p ++ text };

    fn write_str(&mut self, text: &str) -> fmt::Result {
        self.put_all(text.as_bytes())
    }
}

// Counts the bytes that are written.
#[derive(Drop)]
struct Count(usize);

impl fmt::Write for Count {
    fn write_str(&mut self, text: &str) -> fmt::Result {
        self.0 = self.0.saturating_add(text.len());
        Ok(())
    }
}

// What is put on a page, and how many bytes it was.
#[derive(Drop)]
struct Column<'a> {
    page: &'a mut Page,
    width: Count,
}

impl fmt::Write for Column<'_> {
    fn write_str(&mut self, text: &str) -> fmt::Result {
        self.width.write_str(text)?;
        self.page.write_str(text)
    }
}

// How many bytes it takes to show something; 0 where it cannot be shown.
pub fn width_of<T: Display>(shown: &T) -> usize {
    let mut count = Count(0);
    match write!(count, "{shown}") {
        Ok(()) => count.0,
        Err(_) => 0,
    }
}

// So many of some bytes, or all.
pub fn filled(bytes: &[u8], at: usize) -> usize
    ensures { IsPrefixLen result bytes.now }
{
    at.min(bytes.len())
}
