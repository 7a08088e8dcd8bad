// Strings of JSON.
use page::Page;
use std::fmt;
use std::fmt::Write as _;

// A byte as in a string of JSON.
fn put_quoted(page: &mut Page, byte: u8) -> fmt::Result {
    match byte {
        b'"' => page.put_all(b"\\\""),
        b'\\' => page.put_all(b"\\\\"),
        0..32 => write!(page, "\\u{byte:04x}"),
        _ => page.put(byte),
    }
}

// Bytes as in a string of JSON.
pub fn put_string(page: &mut Page, bytes: &[u8]) -> fmt::Result {
    for b in bytes {
        put_quoted(page, *b)?;
    }
    Ok(())
}
