//! What a call tells by a number.
ghost use Rattle.std.specs.Prelude.{◌≡◌, ◌<◌, []};
ghost use Rattle.cg_line_machine.specs.Status.{IsWordOf, status_number};

use cg_name::{Controller, Refusal, TxnNumber};

/// What a call came to.
#[derive(Clone, Copy, Debug, PartialEq, Eq)]
pub enum Status {
    /// 0: it is done, and its text is told.
    Done,
    /// From 1 to 25, by the refusal's number: it is refused.
    Refused(Refusal),
    /// 100: the handle holds no machine.
    Closed,
    /// 101: the request is answered and what it asks for is done, but there was no memory for the answer's text.
    Untold,
    /// 102: no transaction is open.
    NoneOpen,
    /// 103: a history can't have that limit.
    BadLimit,
    /// 104: the handle holds a machine already.
    InUse,
}

impl Status {
    /// The number.
    pub fn number(self) -> u32
        ensures { result ≡ status_number self }
    {
        match self {
            Status::Done => 0,
            Status::Refused(refusal) => u32::from(refusal.number()),
            Status::Closed => 100,
            Status::Untold => 101,
            Status::NoneOpen => 102,
            Status::BadLimit => 103,
            Status::InUse => 104,
        }
    }
}

/// A refusal with each number, the least first.
const BY_NUMBER: [Refusal; 25] = [
    Refusal::Syntax,
    Refusal::NoTransaction,
    Refusal::AlreadyOpen,
    Refusal::Full,
    Refusal::Busy(TxnNumber(1)),
    Refusal::NoGroup,
    Refusal::Exists,
    Refusal::IsRoot,
    Refusal::HasChildren,
    Refusal::HasProcesses,
    Refusal::NoProcess,
    Refusal::Controlled,
    Refusal::Unavailable(Controller::Cpuset),
    Refusal::InUse(Controller::Cpuset),
    Refusal::NoFile,
    Refusal::NoSavepoint,
    Refusal::NameTaken,
    Refusal::NothingToUndo,
    Refusal::Memory,
    Refusal::Lost,
    Refusal::Disagree,
    Refusal::TooMany,
    Refusal::TooDeep,
    Refusal::ReadFault,
    Refusal::WriteFault,
];

/// The word of the refusals with this number; an empty one where no refusal has it.
pub fn word_of_number(number: u32) -> &'static str
    ensures word { IsWordOf number result.now }
    ensures low { number < 1 → result.now ≡ [] }
    ensures high { 25 < number → result.now ≡ [] }
{
    if number < 1 || number > 25 {
        return "";
    }
    BY_NUMBER[number as usize - 1].word()
}
