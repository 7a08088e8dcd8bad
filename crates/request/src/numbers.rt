// Statuses and commands by number, for who holds them so: a status's is its place among the variants, from 0, a command's
// the same from 1, and 0 is no command. Other numbers are taken as well.
ghost use Rattle.std.specs.Prelude.{◌≡◌};
ghost use Rattle.request.specs.Numbers.{rank, worse, broken, answered, after, fitting, crowded};

use crate::arguments::{Options, Request};
use crate::status::{Answer, Run};

// The statuses that are told apart.
const ERROR: u32 = 2;

const BROKEN: u32 = 4;

const CLOSED: u32 = 6;

// The commands that are told apart: from graph on they take one file, or one and a setting; from print on one.
const JUDGE: u32 = 1;

const EXPLAIN: u32 = 2;

const TREE: u32 = 4;

const GRAPH: u32 = 5;

const PRINT: u32 = 7;

// The order of badness: 0, 1, 3, 2, and last a failed write.
fn rank(status: u32) -> u32
    ensures { result ≡ rank status }
{
    match status {
        ERROR => 4,
        BROKEN => 5,
        _ => status,
    }
}

// The worse of two.
pub fn worse(a: u32, b: u32) -> u32
    ensures { result ≡ worse a b }
{
    if rank(a) < rank(b) { b } else { a }
}

// Whether a write has failed.
pub fn is_broken(status: u32) -> bool
    ensures { result ≡ broken status }
{
    status == BROKEN || status == CLOSED
}

// A failed write is an error.
pub fn told(status: u32) -> u32
    ensures { result ≡ answered status }
{
    if status == BROKEN { ERROR } else { status }
}

// A status to descriptor 3, in decimal digits, and a line feed, where somebody listens.
pub fn tell(status: u32) {
    let mut line = [b'\n'; 20];
    let count = io::decimal(u64::from(status), &mut line);
    io::write_all(3, &line[..20.min(count + 1)]);
}

// A run after a file that ended so: all but an error is an answer.
pub fn after(run: Run<u32>, answer: Answer<u32>) -> Run<u32>
    ensures { result ≡ after run answer }
{
    let one_more = run.answers.saturating_add(1);
    Run {
        status: worse(run.status, answer.status),
        answers: if answer.status == ERROR {
            run.answers
        } else {
            one_more
        },
        paired: answer.paired,
        ..run
    }
}

// Whether a command takes these options and so many files: a rule takes the next as its setting.
pub fn fitting(command: u32, o: Options) -> bool
    ensures { result ≡ fitting command o }
{
    let json = !o.json | (command == JUDGE) | (command == EXPLAIN);
    let color = !(o.color | o.plain) | (command == TREE);
    let most = (command < GRAPH) | (o.files == 1) | ((command < PRINT) & (o.files == 2));
    (command != 0) & !o.unknown & json & color & most & (o.files != 0)
}

// Whether there is a file too many for a command on a case.
pub fn crowded(request: Request<u32>) -> bool
    ensures { result ≡ crowded request.command request.files }
{
    (GRAPH <= request.command) & (1 < request.files)
}
