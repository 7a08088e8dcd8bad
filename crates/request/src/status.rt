// What the program ends with: 0 done, or the setting passes; 1 it does not; 3 it is refused; 2 an error.
ghost use Rattle.std.specs.Prelude.{◌≡◌};
ghost use Rattle.request.specs.Status.{rank, worse, broken, answered, after};

pub use crate::numbers::{after, is_broken, tell, told, worse};

#[derive(Clone, Copy, PartialEq, Eq, Default)]
pub enum Status {
    #[default]
    Done,
    Fails,
    Error,
    Refused,
    // Within the program: a write has failed; a room was too short, and nothing was put; nobody reads any more what is
    // written.
    Broken,
    Short,
    Closed,
}

impl Status {
    // The order of badness: 0, 1, 3, 2, and last a failed write. Broken and Short rank alike in the contract of worse,
    // so it is no derived Ord.
    fn rank(self) -> u8
        ensures { result ≡ rank self }
    {
        match self {
            Status::Done => 0,
            Status::Fails => 1,
            Status::Refused => 3,
            Status::Error => 4,
            Status::Broken | Status::Short => 5,
            Status::Closed => 6,
        }
    }

    // The worse of two.
    pub fn worse(self, other: Status) -> Status
        ensures { result ≡ worse self other }
    {
        if self.rank() < other.rank() {
            other
        } else {
            self
        }
    }

    // Whether a write has failed.
    pub fn is_broken(self) -> bool
        ensures { result ≡ broken self }
    {
        matches!(self, Status::Broken | Status::Closed)
    }

    // A failed write is an error.
    pub fn told(self) -> Status
        ensures { result ≡ answered self }
    {
        if self == Status::Broken {
            Status::Error
        } else {
            self
        }
    }

    // The status to descriptor 3, as a digit and a line feed, where somebody listens.
    pub fn tell(self) {
        tell(self as u32);
    }
}

// What a file comes to: a status, or its number, and whether the next file belongs to it.
#[derive(Clone, Copy)]
pub struct Answer<S = Status> {
    pub status: S,
    pub paired: bool,
}

// The worst status so far; how many files were answered; whether -- has ended the options; whether the next file belongs
// to the rule before it.
#[derive(Clone, Copy, Default)]
pub struct Run<S = Status> {
    pub status: S,
    pub answers: u32,
    pub ended: bool,
    pub paired: bool,
}

impl Run {
    // After a file that ended so: all but an error is an answer.
    pub fn add(&mut self, answer: Answer)
        ensures { self.new ≡ after self.old answer }
    {
        self.status = self.status.worse(answer.status);
        self.paired = answer.paired;
        if answer.status != Status::Error {
            self.answers = self.answers.saturating_add(1);
        }
    }
}
