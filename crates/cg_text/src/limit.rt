//! Limits on descendants and on depth.
ghost use Rattle.std.specs.Prelude.{◌≤◌};

use crate::reading::read_limit;
use cg_name::Refusal;
use std::fmt;
use std::str::FromStr;

/// The number of a limit: at most 2,147,483,646, since the kernel keeps `max` as the number behind it.
#[derive(Clone, Copy, Debug, PartialEq, Eq)]
pub struct LimitNumber {
    pub number: u32,
    pub ghost in_range: { number ≤ 2147483646 },
}

/// A limit of a group, on its descendants or on its depth.
#[derive(Clone, Copy, Debug, PartialEq, Eq)]
pub enum Limit {
    /// `max`: no limit.
    Max,
    /// At most so many, from 0 to 2,147,483,646.
    UpTo(LimitNumber),
}

impl FromStr for Limit {
    ghost use Rattle.cg_name.specs.Reads.{Reads};
    ghost use Rattle.cg_text.specs.Reading.{SpellsLimit};

    type Err = Refusal;

    ghost from_str_gives = { Reads SpellsLimit };

    fn from_str(text: &str) -> Result<Limit, Refusal> {
        read_limit(text)
    }
}

/// Shows `max` or the number.
impl fmt::Display for Limit {
    ghost use Rattle.std.specs.Prelude.{Some};
    ghost use Rattle.cg_text.specs.FileText.{limit_word};

    ghost output = { λ limit. Some (limit_word limit) };

    fn fmt<W: fmt::Write>(&self, f: &mut fmt::Formatter<W>) -> fmt::Result {
        match self {
            Limit::Max => f.write_str("max"),
            Limit::UpTo(most) => fmt::Display::fmt(&most.number, f),
        }
    }
}

impl Limit {
    ghost use Rattle.std.specs.Prelude.{◌≡◌, Some};
    ghost use Rattle.cg_text.specs.Limit.{number_of};

    /// The greatest number of a limit.
    pub const LAST: u32 = 2_147_483_646;

    /// The limit of that number, which is at most `LAST`.
    pub fn up_to(number: u32) -> Limit
        requires { number ≤ 2147483646 }
        ensures { number_of result ≡ Some number }
    {
        Limit::UpTo(LimitNumber { number })
    }
}
