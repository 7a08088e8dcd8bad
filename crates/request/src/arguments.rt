// The program's arguments: a command; options, anywhere after it up to --; files.
ghost use Rattle.std.specs.Prelude.{◌≡◌, ◌≤◌, ◌<◌, true, false, IfSome};
ghost use Rattle.request.specs.Arguments.{command_of, kind_of, is_hyphen, telling, drawing, printing, alone, taking};
ghost use Rattle.request.specs.Arguments.{counted, fitting, several, crowded};

pub use crate::numbers::{crowded, fitting};
use std::env::FillError;
use std::rt::Env;

#[derive(Clone, Copy, PartialEq, Eq)]
pub enum Command {
    Judge,
    Explain,
    Evaluate,
    Tree,
    Graph,
    Finish,
    Print,
    PrintFinished,
}

impl Command {
    // The command that a word is.
    pub fn of_word(word: &[u8]) -> Option<Command>
        ensures { result ≡ command_of word.now }
    {
        match word {
            b"judge" => Some(Command::Judge),
            b"explain" => Some(Command::Explain),
            b"evaluate" => Some(Command::Evaluate),
            b"tree" => Some(Command::Tree),
            b"graph" => Some(Command::Graph),
            b"finish" => Some(Command::Finish),
            b"print" => Some(Command::Print),
            b"print-finished" => Some(Command::PrintFinished),
            _ => None,
        }
    }

    // The command that argument 1 is.
    pub fn given(rt: &impl Env) -> Option<Command> {
        let mut word = [0u8; 16];
        match rt.arg(1, &mut word) {
            Ok(length) => Command::of_word(&word[..length]),
            Err(_) => None,
        }
    }

    // Whether it tells a judgement, in JSON too.
    pub fn tells(self) -> bool
        ensures { result ≡ telling self }
    {
        matches!(self, Command::Judge | Command::Explain)
    }

    // Whether it prints solver text.
    pub fn prints(self) -> bool
        ensures { result ≡ printing self }
    {
        matches!(self, Command::Print | Command::PrintFinished)
    }

    // Whether a rule alone will do, without a setting.
    pub fn takes_rule_alone(self) -> bool
        ensures { result ≡ alone self }
    {
        self == Command::Finish || self.prints()
    }

    // Whether it takes so many files: a rule takes the next as its setting.
    fn takes(self, files: u32) -> bool
        ensures { result ≡ taking self files }
    {
        match self {
            Command::Judge | Command::Explain | Command::Evaluate | Command::Tree => files != 0,
            Command::Graph | Command::Finish => files == 1 || files == 2,
            Command::Print | Command::PrintFinished => files == 1,
        }
    }
}

// What an argument is.
#[derive(Clone, Copy, PartialEq, Eq)]
pub enum Argument {
    File,
    Json,
    Color,
    Plain,
    End,
    Unknown,
}

impl Argument {
    // What a word is; where the options have ended, a file.
    pub fn of_word(word: &[u8], ended: bool) -> Argument
        ensures { result ≡ kind_of word.now ended }
    {
        if ended {
            return Argument::File;
        }
        match word {
            b"--json" => Argument::Json,
            b"--color" => Argument::Color,
            b"--no-color" => Argument::Plain,
            b"--" => Argument::End,
            [b'-', _, ..] => Argument::Unknown,
            _ => Argument::File,
        }
    }

    // What argument `i` is; one that is too long is a file.
    fn at(rt: &impl Env, i: usize, ended: bool) -> Argument {
        let mut word = io::buffer();
        match rt.arg(i, &mut word) {
            Ok(length) => Argument::of_word(&word[..length], ended),
            Err(_) => Argument::File,
        }
    }
}

// Whether a word is a hyphen alone: standard input.
pub fn hyphen(path: &[u8]) -> bool
    ensures { result ≡ is_hyphen path.now }
{
    matches!(path, b"-")
}

// The options given, whether they have ended, whether one is unknown; how many files there are.
#[derive(Clone, Copy, Default)]
pub struct Options {
    pub json: bool,
    pub color: bool,
    pub plain: bool,
    pub ended: bool,
    pub unknown: bool,
    pub files: u32,
}

impl Options {
    // The options among so many arguments.
    pub fn among(rt: &impl Env, count: usize) -> Options {
        let mut options = Options::default();
        for i in 2..count {
            let argument = Argument::at(rt, i, options.ended);
            options.add(argument);
        }
        options
    }

    // One more argument.
    fn add(&mut self, argument: Argument)
        ensures { self.new ≡ counted self.old argument }
    {
        match argument {
            Argument::File => self.files = self.files.saturating_add(1),
            Argument::Json => self.json = true,
            Argument::Color => self.color = true,
            Argument::Plain => {
                self.color = false;
                self.plain = true;
            }
            Argument::End => self.ended = true,
            Argument::Unknown => self.unknown = true,
        }
    }

    // Whether a command takes them, and so many files.
    pub fn fit(self, command: Option<Command>) -> bool
        ensures { result ≡ fitting command self }
    {
        match command {
            None => false,
            Some(c) => {
                let json = !self.json | c.tells();
                let color = !(self.color | self.plain) | (c == Command::Tree);
                !self.unknown & json & color & c.takes(self.files)
            }
        }
    }
}

// A command, or its number, on a file: its options, how many files there are, whether its answer is one of several,
// whether it is the first, and which argument is the next file.
#[derive(Clone, Copy)]
pub struct Request<C = Command> {
    pub command: C,
    pub json: bool,
    pub color: bool,
    pub files: u32,
    pub several: bool,
    pub first: bool,
    pub next: Option<usize>,
}

// Whether an answer is one of several: a rule and its setting have one.
fn several(files: u32, rule: bool) -> bool
    ensures { result ≡ several files rule }
{
    (2 < files) | ((files == 2) & !rule)
}

impl<C> Request<C> {
    // On a case.
    pub fn new(command: C, options: Options, first: bool, next: Option<usize>) -> Request<C>
        ensures { result ≡ record {
          command = command;
          json = options.json;
          color = options.color;
          files = options.files;
          several = several options.files false;
          first = first;
          next = next;
        } }
    {
        Request {
            command,
            json: options.json,
            color: options.color,
            files: options.files,
            several: several(options.files, false),
            first,
            next,
        }
    }

    // The same on a rule.
    pub fn of_rule(self) -> Request<C>
        ensures { result ≡ record self { several = several self.files true } }
    {
        Request {
            several: several(self.files, true),
            ..self
        }
    }
}

impl Request {
    // Whether there is a file too many for a command on a case.
    pub fn crowded(self) -> bool
        ensures { result ≡ crowded self.command self.files }
    {
        match self.command {
            Command::Judge | Command::Explain | Command::Evaluate | Command::Tree => false,
            Command::Graph | Command::Finish | Command::Print | Command::PrintFinished => {
                1 < self.files
            }
        }
    }
}

fn is_missing(rt: &impl Env, i: usize) -> bool {
    matches!(rt.arg(i, &mut [0u8; 1]), Err(FillError::NotPresent))
}

// How many arguments there are, the program's own name among them.
pub fn count_of(rt: &impl Env) -> usize {
    (0..usize::MAX)
        .find(|i| is_missing(rt, *i))
        .unwrap_or(usize::MAX)
}

// The first file from an argument on.
pub fn next_file(rt: &impl Env, from: usize, count: usize, ended: bool) -> Option<usize>
    ensures { IfSome result (λ i. (from ≤ i) × (i < count)) }
{
    let mut over = ended;
    for i in from..count {
        let argument = Argument::at(rt, i, over);
        if argument == Argument::File {
            return Some(i);
        }
        over |= argument == Argument::End;
    }
    None
}
