// A text word by word from the left: in which command it stands, how deep, and how many terms there are.
ghost use Rattle.std.specs.Prelude.{◌≡◌};
ghost use Rattle.smtlib.specs.Bytes.{part};
ghost use Rattle.outline.specs.Scanning.{keyword_kind, kind_of, ends, lists, joins, doubles, adds};
ghost use Rattle.outline.specs.Scanning.{command_after, depth_after, words_after, asserted, terms_after};
ghost use Rattle.outline.specs.Scanning.{asserts_after, bare_after, begun_after, last_after};
ghost use Rattle.outline.specs.Scanning.{start, step, context_at};

use crate::words::Words;
use parser::{Keyword, Token, Word};

/// The bytes from one place up to another.
#[derive(Clone, Copy, Debug, PartialEq, Eq)]
pub struct Span {
    pub from: usize,
    pub to: usize,
}

impl Span {
    /// These bytes of a text; places past its end are its end.
    pub fn of(self, text: &[u8]) -> &[u8]
        ensures { result.now ≡ part text.now self.from self.to }
    {
        let to = self.to.min(text.len());
        &text[self.from.min(to)..to]
    }
}

/// What a word is to a scan: declare-const, assert and check-sat are told from other keywords.
#[derive(Clone, Copy, Debug, PartialEq, Eq)]
pub enum Kind {
    Open,
    Close,
    Constant,
    Name,
    DeclareConst,
    Assert,
    CheckSat,
    Other,
}

/// Where a scan stands: between commands, after a command's parenthesis, or in a command.
#[derive(Clone, Copy, Debug, PartialEq, Eq)]
pub enum Command {
    Outside,
    Begun,
    DeclareConst,
    Assert,
    CheckSat,
}

#[derive(Clone, Copy)]
pub struct Scan {
    pub command: Command,
    // the parentheses that are open, the command's own too, and the words of it that were read
    pub depth: u32,
    pub words: u32,
    // terms and asserts so far
    pub terms: u32,
    pub asserts: u32,
    // the last assert is of a bare name
    pub bare: bool,
    // where the command begins, and the last assert
    pub begun: usize,
    pub last: Span,
    // the word before; the end before the first
    pub previous: Word,
}

fn keyword_kind(keyword: Keyword) -> Kind
    ensures { result ≡ keyword_kind keyword }
{
    match keyword {
        Keyword::DeclareConst => Kind::DeclareConst,
        Keyword::Assert => Kind::Assert,
        Keyword::CheckSat => Kind::CheckSat,
        Keyword::Underscore => Kind::Other,
    }
}

pub fn kind_of(word: Word) -> Kind
    ensures { result ≡ kind_of word }
{
    match word {
        Word::Open => Kind::Open,
        Word::Close => Kind::Close,
        Word::Keyword(keyword) => keyword_kind(keyword),
        Word::Literal(_, _) => Kind::Constant,
        Word::Name(_) => Kind::Name,
        _ => Kind::Other,
    }
}

impl Scan {
    /// Before the first word.
    pub(crate) fn start() -> Scan
        ensures { result ≡ start }
    {
        Scan {
            command: Command::Outside,
            depth: 0,
            words: 0,
            terms: 0,
            asserts: 0,
            bare: false,
            begun: 0,
            last: Span { from: 0, to: 0 },
            previous: Word::End,
        }
    }

    // The word closes the command.
    fn ends(self, kind: Kind) -> bool
        ensures { result ≡ ends self kind }
    {
        kind == Kind::Close && self.depth <= 1
    }

    /// The word ends a list.
    pub(crate) fn lists(self, kind: Kind) -> bool
        ensures { result ≡ lists self kind }
    {
        self.command == Command::Assert && kind == Kind::Close && 1 < self.depth
    }

    /// The word ends an assert that is joined to those before it.
    pub(crate) fn joins(self, kind: Kind) -> bool
        ensures { result ≡ joins self kind }
    {
        self.command == Command::Assert && self.ends(kind) && 0 < self.asserts
    }

    /// The word is check-sat after a sole assert of a bare name.
    pub(crate) fn doubles(self, kind: Kind) -> bool
        ensures { result ≡ doubles self kind }
    {
        self.command == Command::Begun && kind == Kind::CheckSat && self.asserts == 1 && self.bare
    }

    /// The word adds a term: a declared name or a constant too.
    pub(crate) fn adds(self, kind: Kind) -> bool
        ensures { result ≡ adds self kind }
    {
        let declares = self.command == Command::DeclareConst && self.words == 2;
        let constant = self.command == Command::Assert && kind == Kind::Constant;
        declares || constant || self.lists(kind) || self.joins(kind) || self.doubles(kind)
    }

    fn command_after(self, kind: Kind) -> Command
        ensures { result ≡ command_after self kind }
    {
        if self.ends(kind) {
            return Command::Outside;
        }
        match (self.command, kind) {
            (Command::Outside, Kind::Open) => Command::Begun,
            (Command::Begun, Kind::DeclareConst) => Command::DeclareConst,
            (Command::Begun, Kind::Assert) => Command::Assert,
            (Command::Begun, Kind::CheckSat) => Command::CheckSat,
            (command, _) => command,
        }
    }

    fn depth_after(self, kind: Kind) -> u32
        ensures { result ≡ depth_after self kind }
    {
        match kind {
            Kind::Open => self.depth.saturating_add(1),
            Kind::Close => self.depth.saturating_sub(1),
            _ => self.depth,
        }
    }

    fn words_after(self, kind: Kind) -> u32
        ensures { result ≡ words_after self kind }
    {
        match self.command_after(kind) {
            Command::Outside => 0,
            _ => self.words.saturating_add(1),
        }
    }

    // The word ends an assert.
    fn asserted(self, kind: Kind) -> bool
        ensures { result ≡ asserted self kind }
    {
        self.command == Command::Assert && self.ends(kind)
    }

    fn terms_after(self, kind: Kind) -> u32
        ensures { result ≡ terms_after self kind }
    {
        if self.adds(kind) {
            self.terms.saturating_add(1)
        } else {
            self.terms
        }
    }

    fn asserts_after(self, kind: Kind) -> u32
        ensures { result ≡ asserts_after self kind }
    {
        if self.asserted(kind) {
            self.asserts.saturating_add(1)
        } else {
            self.asserts
        }
    }

    fn bare_after(self, kind: Kind) -> bool
        ensures { result ≡ bare_after self kind }
    {
        if self.asserted(kind) {
            self.words == 3 && kind_of(self.previous) == Kind::Name
        } else {
            self.bare
        }
    }

    fn begun_after(self, token: Token) -> usize
        ensures { result ≡ begun_after self token }
    {
        if self.command == Command::Outside {
            token.from
        } else {
            self.begun
        }
    }

    fn last_after(self, token: Token) -> Span
        ensures { result ≡ last_after self token }
    {
        if self.asserted(kind_of(token.word)) {
            Span {
                from: self.begun,
                to: token.next,
            }
        } else {
            self.last
        }
    }

    /// After one word more.
    pub(crate) fn step(self, token: Token) -> Scan
        ensures { result ≡ step self token }
    {
        let kind = kind_of(token.word);
        Scan {
            command: self.command_after(kind),
            depth: self.depth_after(kind),
            words: self.words_after(kind),
            terms: self.terms_after(kind),
            asserts: self.asserts_after(kind),
            bare: self.bare_after(kind),
            begun: self.begun_after(token),
            last: self.last_after(token),
            previous: token.word,
        }
    }
}

/// The scan before the word at a place.
pub fn context_at(text: &[u8], place: usize) -> Scan
    ensures { result ≡ context_at text.now place }
{
    let stop = place.min(text.len());
    let mut scan = Scan::start();
    for token in Words::new(text) {
        if stop <= token.from {
            break;
        }
        scan = scan.step(token);
    }
    scan
}
