//! PIDs of processes that are to be moved.
ghost use Rattle.std.specs.Prelude.{◌≤◌};

use cg_name::Refusal;
use cg_text::LAST_PID;

/// A PID: from 1 to 4,194,303, since the kernel's limit, 4,194,304, is above each.
#[derive(Clone, Copy, Debug, PartialEq, Eq)]
pub struct Pid {
    /// This.
    pub number: u32,
    pub ghost low: { 1 ≤ number },
    pub ghost high: { number ≤ 4194303 },
}

/// The PID of this number; `Syntax` where none has it, as for a number that is written.
impl TryFrom<u32> for Pid {
    ghost use Rattle.cg_command.specs.Pid.{TellsPid};

    type Error = Refusal;

    ghost try_from_gives = { TellsPid };

    fn try_from(number: u32) -> Result<Pid, Refusal> {
        if number == 0 || LAST_PID < number {
            return Err(Refusal::Syntax);
        }
        Ok(Pid { number })
    }
}
