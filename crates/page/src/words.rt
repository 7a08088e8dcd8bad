// Text that is kept as bytes.
use std::fmt;
use std::fmt::{Display, Formatter};

// ASCII text as it is.
#[derive(Clone, Copy)]
pub struct Ascii<'a>(pub &'a [u8]);

// ASCII text as it is; of a longer one the first 64 bytes, and three dots.
#[derive(Clone, Copy)]
pub struct Short<'a>(pub &'a [u8]);

impl Display for Ascii<'_> {
    fn fmt<W: fmt::Write>(&self, f: &mut Formatter<W>) -> fmt::Result {
        for b in self.0 {
            f.write_char(char::from(*b))?;
        }
        Ok(())
    }
}

impl Display for Short<'_> {
    fn fmt<W: fmt::Write>(&self, f: &mut Formatter<W>) -> fmt::Result {
        let text = self.0;
        match text.get(..64) {
            Some(front) if 64 < text.len() => write!(f, "{}...", Ascii(front)),
            _ => Ascii(text).fmt(f),
        }
    }
}
