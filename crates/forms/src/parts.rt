// The parts of a case, which are runs of its numbers.
ghost use Rattle.std.specs.Prelude.{◌≡◌, ◌-◌, length, take, drop};
ghost use Rattle.cases.specs.Reading.{Within};

use cases::Run;

// The numbers of a run.
pub fn part(numbers: &[u32], run: Run) -> &[u32]
    requires { Within run (length numbers.now) }
    ensures { result.now ≡ take (run.to - run.from) (drop run.from numbers.now) }
{
    let from = run.from as usize;
    let to = run.to as usize;
    &numbers[from..to]
}
