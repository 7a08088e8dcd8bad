// Words compared, and looked up among others.
ghost use Rattle.std.specs.Prelude.{◌≡◌};
ghost use Rattle.smtlib.specs.Bytes.{part, same_bytes, place_in, cuts};

pub fn same_bytes(x: &[u8], y: &[u8]) -> bool
    ensures { result ≡ same_bytes x.now y.now }
{
    x == y
}

// The part of a text from one place to another is a word. Places past the text's end are its end.
fn same_part(text: &[u8], from: usize, to: usize, word: &[u8]) -> bool
    ensures { result ≡ same_bytes (part text.now from to) word.now }
{
    let end = to.min(text.len());
    let start = from.min(end);
    same_bytes(&text[start..end], word)
}

// The place of a word among those that stand one after the other in `all`, where each ends at one of `ends`;
// their count where it is none of them. A row and its ends: the tables of the crates that call it stand so.
pub fn place_in(all: &[u8], ends: &[usize], word: &[u8]) -> usize
    ensures { result ≡ place_in (cuts all.now 0 ends.now) word.now }
{
    let mut from = 0;
    for (k, to) in ends.iter().enumerate() {
        if same_part(all, from, *to, word) {
            return k;
        }
        from = *to;
    }
    ends.len()
}
