// The parts that routines are called with, in one row of numbers. Number k counts part k's numbers, which stand from
// 64 * k on.
ghost use Rattle.std.specs.Prelude.{◌≡◌, ◌*◌, ◌<◌, get_or, set};
ghost use Rattle.lines.specs.Parts.{part_number, number, named, most, single, row_of, table_of, opened, begun, part_added, added};
ghost use Rattle.lines.specs.Parts.{part_after, after};

pub use crate::numbers::taken;
use crate::tokens::Token;
use table::number_at;

// Up to Constants parts of one number, then parts of any count of numbers.
#[derive(Clone, Copy, PartialEq, Eq)]
pub enum Part {
    Allowance,
    Room,
    Finished,
    Limit,
    Constants,
    Values,
    Cells,
    Sheet,
    Table,
}

#[derive(Clone, Copy, PartialEq, Eq)]
pub enum Routine {
    Admit,
    AdmitWithin,
    Evaluate,
    Judge,
    Finish,
    Extent,
}

// What a line goes on with: the part that the next number goes to, or none yet; the routine that is called; nothing, since
// it is wrong.
#[derive(Clone, Copy, PartialEq, Eq)]
pub enum Next {
    Nothing,
    Part(Part),
    Routine(Routine),
    Wrong,
}

impl Part {
    fn number(self) -> u32
        ensures { result ≡ part_number self }
    {
        match self {
            Part::Allowance => 1,
            Part::Room => 2,
            Part::Finished => 3,
            Part::Limit => 4,
            Part::Constants => 5,
            Part::Values => 6,
            Part::Cells => 7,
            Part::Sheet => 8,
            Part::Table => 9,
        }
    }

    // The most numbers of it.
    fn most(self) -> u32
        ensures { result ≡ most self }
    {
        match self {
            Part::Table => 6144,
            Part::Values | Part::Cells | Part::Sheet => 64,
            _ => 1,
        }
    }

    // The numbers of it.
    pub fn row(self, numbers: &[u32]) -> &[u32]
        ensures { result.now ≡ row_of numbers.now (part_number self * 64) (get_or numbers.now (part_number self) 0) }
    {
        row(numbers, self.number())
    }
}

impl Next {
    // A part's number; those above are routines', and the last says that a line is wrong.
    pub(crate) fn number(self) -> u32
        ensures { result ≡ number self }
    {
        match self {
            Next::Nothing => 0,
            Next::Part(part) => part.number(),
            Next::Routine(Routine::Admit) => 10,
            Next::Routine(Routine::AdmitWithin) => 11,
            Next::Routine(Routine::Evaluate) => 12,
            Next::Routine(Routine::Judge) => 13,
            Next::Routine(Routine::Finish) => 14,
            Next::Routine(Routine::Extent) => 15,
            Next::Wrong => 16,
        }
    }

    // What a word names, by its number in base 32.
    fn of_word(word: u64) -> Next
        ensures { result ≡ named word }
    {
        match word {
            3795200360615 => Next::Part(Part::Allowance),
            673327 => Next::Part(Part::Room),
            287238170854 => Next::Part(Part::Finished),
            15056246 => Next::Part(Part::Limit),
            6099581387477 => Next::Part(Part::Constants),
            808934645 => Next::Part(Part::Values),
            5487061 => Next::Part(Part::Cells),
            22355190 => Next::Part(Part::Sheet),
            23171527 => Next::Part(Part::Table),
            3358070 => Next::Routine(Routine::Admit),
            115382408546298224 => Next::Routine(Routine::AdmitWithin),
            266404073159 => Next::Routine(Routine::Evaluate),
            13343015 => Next::Routine(Routine::Judge),
            280506026 => Next::Routine(Routine::Finish),
            262872598 => Next::Routine(Routine::Extent),
            _ => Next::Wrong,
        }
    }

    // Whether it is a part of one number.
    fn is_single(self) -> bool
        ensures { result ≡ single self }
    {
        match self {
            Next::Part(part) => part.number() <= 5,
            _ => false,
        }
    }

    // Takes a token, and answers what the line goes on with.
    pub fn take(self, numbers: &mut [u32], token: Token) -> Next
        ensures value { result ≡ part_after numbers.old self token }
        ensures numbers_after { numbers.new ≡ after numbers.old self token }
    {
        match token {
            Token::Nothing => self,
            Token::Number(value) => match u32::try_from(value) {
                Ok(number) => add(numbers, self, number),
                Err(_) => Next::Wrong,
            },
            Token::Word(word) => begin(numbers, self, Next::of_word(word)),
            Token::Unknown => Next::Wrong,
        }
    }
}

// All zero. From 8192 on it stays so.
pub fn room() -> [u32; 500000] {
    [0u32; 500000]
}

// Writes a number, where the row has its place. After a write through get_mut no element is known to a proof.
fn put(numbers: &mut [u32], at: usize, number: u32)
    ensures { numbers.new ≡ set numbers.old at number }
{
    if at < numbers.len() {
        numbers[at] = number;
    }
}

// So many numbers from a place on; none where there are fewer.
fn run(numbers: &[u32], from: usize, count: usize) -> &[u32]
    requires from_bound { from < 1099511627776 }
    requires count_bound { count < 1099511627776 }
    ensures { result.now ≡ row_of numbers.now from count }
{
    numbers.get(from..from + count).unwrap_or(&[])
}

// The numbers of a part by its number.
pub fn row(numbers: &[u32], part: u32) -> &[u32]
    ensures { result.now ≡ row_of numbers.now (part * 64) (get_or numbers.now part 0) }
{
    let count = number_at(numbers, part) as usize;
    run(numbers, part as usize * 64, count)
}

// The one number of a part, 0 where it has none.
pub fn single(numbers: &[u32], part: Part) -> u32
    ensures { result ≡ get_or numbers.now (part_number part * 64) 0 }
{
    number_at(numbers, part.number() * 64)
}

// The table: its own numbers, or so many constants, six zeros each, where they were given last.
pub fn table(numbers: &[u32]) -> &[u32]
    ensures { result.now ≡ table_of numbers.now }
{
    if number_at(numbers, Part::Constants.number()) == 0 {
        return Part::Table.row(numbers);
    }
    let count = single(numbers, Part::Constants) as usize;
    run(numbers, 8192, count * 6)
}

// Begins a part by its word. It is wrong before the one number of another part was given.
fn begin(numbers: &mut [u32], part: Next, next: Next) -> Next
    ensures value { result ≡ opened numbers.old part next }
    ensures numbers_after { numbers.new ≡ begun numbers.old next }
{
    let missing = part.is_single() && number_at(numbers, part.number()) == 0;
    if next == Next::Part(Part::Table) {
        put(numbers, Part::Constants.number() as usize, 0);
    }
    put(numbers, next.number() as usize, 0);
    if missing { Next::Wrong } else { next }
}

// One number more. It is wrong past the most, and where no part was begun.
fn add(numbers: &mut [u32], next: Next, number: u32) -> Next
    ensures value { result ≡ part_added numbers.old next }
    ensures numbers_after { numbers.new ≡ added numbers.old next number }
{
    let Next::Part(part) = next else {
        return Next::Wrong;
    };
    let k = part.number();
    let count = number_at(numbers, k);
    if part.most() <= count {
        return Next::Wrong;
    }
    put(numbers, k as usize * 64 + count as usize, number);
    put(numbers, k as usize, count + 1);
    next
}
