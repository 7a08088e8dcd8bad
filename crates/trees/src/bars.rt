// What stands before a term of a tree.
ghost use Rattle.std.specs.Prelude.{◌≡◌, ◌+◌, ◌<◌};

use std::fmt;
use std::fmt::{Display, Formatter};

// So many levels stand in one tree.
pub const LEVELS: u32 = 12;

// For each level above a term a bar or none, then its own branch: by bit, whether more follows at the level.
#[derive(Clone, Copy)]
pub struct Bars {
    pub level: u32,
    more: u32,
}

impl Bars {
    pub const NONE: Bars = Bars { level: 0, more: 0 };

    // Before an operand, after which more follow or none.
    pub fn below(self, more: bool) -> Bars
        requires { self.level < 12 }
        ensures { result.level ≡ self.level + 1 }
    {
        Bars {
            level: self.level + 1,
            more: self.more | u32::from(more).wrapping_shl(self.level),
        }
    }
}

impl Display for Bars {
    fn fmt<W: fmt::Write>(&self, f: &mut Formatter<W>) -> fmt::Result {
        let mut rest = self.more;
        for i in 0..self.level {
            let own = i == self.level - 1;
            f.write_str(match (own, rest % 2 == 1) {
                (true, true) => "|- ",
                (true, false) => "`- ",
                (false, true) => "|  ",
                (false, false) => "   ",
            })?;
            rest /= 2;
        }
        Ok(())
    }
}
