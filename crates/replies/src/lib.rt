// The library's answers as C's: a number, and four numbers.
#![tactic(auto)]

ghost use Rattle.std.specs.Prelude.{◌≡◌, ℕ};
ghost use Rattle.ops.specs.Meaning.{bit};
ghost use Rattle.replies.specs.declared.Reply.{Reply};
ghost use Rattle.replies.specs.Replies.{results, refusal, row, reply_of, admitted, finished, evaluated, judged, counted};

use evaluate::Spent;
use finish::Extent;
use judge::Verdict;
use table::Refusal;

// 0 or the refusal's number; then what stands in the caller's four numbers.
#[derive(Clone, Copy)]
pub struct Reply {
    pub number: u32,
    pub first: u64,
    pub second: u64,
    pub third: u64,
    pub fourth: u64,
}

impl Reply {
    // The results of a routine that refuses nothing.
    fn of(a: u64, b: u64, c: u64, d: u64) -> Reply
        ensures { result ≡ results a b c d }
    {
        Reply {
            number: 0,
            first: a,
            second: b,
            third: c,
            fourth: d,
        }
    }

    // Writes the four numbers, and answers the number.
    pub fn deliver(self, answer: &mut [u64; 4]) -> u32
        ensures value { result ≡ self.number }
        ensures answer_after { answer.new ≡ row self }
    {
        *answer = [self.first, self.second, self.third, self.fourth];
        self.number
    }
}

impl From<Refusal> for Reply {
    ghost from_gives = { λ refused r. r ≡ refusal refused };

    fn from(refused: Refusal) -> Reply {
        Reply {
            number: refused.number,
            first: refused.place,
            second: 0,
            third: 0,
            fourth: 0,
        }
    }
}

// What a routine gives where nothing is refused.
pub trait Answer {
    ghost reply: { Self → Reply };

    fn reply(self) -> Reply
        ensures { result ≡ reply self };
}

impl Answer for () {
    ghost reply = { admitted };

    fn reply(self) -> Reply {
        Reply::of(0, 0, 0, 0)
    }
}

// terms, number of C(rule), last
impl Answer for Extent {
    ghost reply = { finished };

    fn reply(self) -> Reply {
        Reply::of(
            self.terms.into(),
            self.condition.into(),
            self.last.into(),
            0,
        )
    }
}

// steps, left
impl Answer for Spent {
    ghost reply = { evaluated };

    fn reply(self) -> Reply {
        Reply::of(self.steps, self.left, 0, 0)
    }
}

// rule, condition, steps, left
impl Answer for Verdict {
    ghost reply = { judged };

    fn reply(self) -> Reply {
        Reply::of(
            u64::from(self.rule),
            u64::from(self.condition),
            self.steps,
            self.left,
        )
    }
}

// bytes or numbers written
impl Answer for u64 {
    ghost reply = { counted };

    fn reply(self) -> Reply {
        Reply::of(self, 0, 0, 0)
    }
}

impl<T: Answer> From<Result<T, Refusal>> for Reply {
    ghost from_gives = { λ answer r. r ≡ reply_of T.reply answer };

    fn from(answer: Result<T, Refusal>) -> Reply {
        match answer {
            Ok(results) => results.reply(),
            Err(refused) => Reply::from(refused),
        }
    }
}
