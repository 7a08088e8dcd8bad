// Words that are asked for by themselves, and sorts. A fault is a state: a faulty one is answered as it is.
ghost use Rattle.std.specs.Prelude.{◌≡◌, eqb};
ghost use Rattle.parser.specs.Rules.{code_of, moved_to, expected, width_in, width_of, vector_of, array_of, sort_of};

use crate::expressions::faulty;
use crate::reader::words_at;
use crate::states::{Fault, Sorted, State};
use crate::words::{Keyword, SortName, Token, Word};
use table::Sort;

pub fn moved(s: State, at: usize) -> State
    ensures { result ≡ moved_to s at }
{
    State { at, ..s }
}

// Numbers, as the specifications have them, for the test of equality in `expected` alone:
// ( 1, ) 2; declare-const, assert, check-sat, _ 3 to 6; Bool, BitVec, Array 7 to 9; the end 10; any other word 0.
fn code_of(word: Word) -> u64
    ensures { result ≡ code_of word }
{
    match word {
        Word::Open => 1,
        Word::Close => 2,
        Word::Keyword(Keyword::DeclareConst) => 3,
        Word::Keyword(Keyword::Assert) => 4,
        Word::Keyword(Keyword::CheckSat) => 5,
        Word::Keyword(Keyword::Underscore) => 6,
        Word::Name(Some(SortName::Bool)) => 7,
        Word::Name(Some(SortName::BitVec)) => 8,
        Word::Name(Some(SortName::Array)) => 9,
        Word::End => 10,
        _ => 0,
    }
}

// Past a word that is asked for; 31 where another word stands.
pub fn expected(text: &[u8], s: State, wanted: Word) -> State
    ensures { result ≡ expected text.now s (code_of wanted) }
{
    let t = words_at(text, s.at).first;
    if s.fault.is_some() {
        s
    } else if code_of(t.word) == code_of(wanted) {
        moved(s, t.next)
    } else {
        faulty(s, Fault::Unexpected, t.from)
    }
}

// The width that a word is, 0 for none.
fn width_in(t: Token) -> u32
    ensures { result ≡ width_in t.word }
{
    match t.word {
        Word::Width(n) => n,
        _ => 0,
    }
}

// A vector's sort, by its width, 1 to 32.
fn width(text: &[u8], s: State) -> Sorted
    ensures { result ≡ width_of text.now s }
{
    let none = Sort { m: 0, n: 0 };
    if s.fault.is_some() {
        return Sorted {
            state: s,
            sort: none,
        };
    }
    let t = words_at(text, s.at).first;
    let n = width_in(t);
    if n == 0 {
        return Sorted {
            state: faulty(s, Fault::Unexpected, t.from),
            sort: none,
        };
    }
    Sorted {
        state: moved(s, t.next),
        sort: Sort { m: 0, n },
    }
}

// ( _ BitVec width )
fn vector(text: &[u8], s: State) -> Sorted
    ensures { result ≡ vector_of text.now s }
{
    let open = expected(text, s, Word::Open);
    let underscore = expected(text, open, Word::Keyword(Keyword::Underscore));
    let bit_vec = expected(text, underscore, Word::Name(Some(SortName::BitVec)));
    let w = width(text, bit_vec);
    Sorted {
        state: expected(text, w.state, Word::Close),
        sort: Sort { m: 0, n: w.sort.n },
    }
}

// ( Array vector vector )
fn array(text: &[u8], s: State) -> Sorted
    ensures { result ≡ array_of text.now s }
{
    let open = expected(text, s, Word::Open);
    let m = vector(
        text,
        expected(text, open, Word::Name(Some(SortName::Array))),
    );
    let n = vector(text, m.state);
    Sorted {
        state: expected(text, n.state, Word::Close),
        sort: Sort {
            m: m.sort.n,
            n: n.sort.n,
        },
    }
}

fn is_array(t: Token) -> bool
    ensures { result ≡ eqb (code_of t.word) 9 }
{
    matches!(t.word, Word::Name(Some(SortName::Array)))
}

// Bool, a vector or an array: by the first word, and after a parenthesis by the second.
pub fn sort(text: &[u8], s: State) -> Sorted
    ensures { result ≡ sort_of text.now s }
{
    let w = words_at(text, s.at);
    match w.first.word {
        Word::Open => {
            if is_array(w.second) {
                array(text, s)
            } else {
                vector(text, s)
            }
        }
        _ => Sorted {
            state: expected(text, s, Word::Name(Some(SortName::Bool))),
            sort: Sort { m: 0, n: 0 },
        },
    }
}
