//! An answer more than once.
ghost use Rattle.std.specs.Prelude.{◌≡◌, OnErr, OnOk, true};
ghost use Rattle.cg_command.specs.Applied.{outcome_of};
ghost use Rattle.cg_core.specs.Alike.{AreCopies, IsCopy};
ghost use Rattle.cg_core.specs.Doing.{is_text};
ghost use Rattle.cg_history.specs.Meaning.{answer_of};
ghost use Rattle.cg_model.specs.History as model;

use cg_command::{BoxedText, Outcome};
use cg_history::Answer;
use std::alloc::{AllocError, Global};

// Copies of the text that a command shows, where it shows one.
#[derive(Drop)]
pub(crate) struct Copies {
    // Whether the session writes its answer down.
    pub(crate) is_logged: bool,
    // For the session to write down, where it does.
    pub(crate) logged: Option<BoxedText>,
    // For the history.
    pub(crate) recorded: Option<BoxedText>,
}

impl Copies {
    // None yet.
    pub(crate) fn none(is_logged: bool) -> Copies
        ensures { result.is_logged ≡ is_logged }
    {
        Copies {
            is_logged,
            logged: None,
            recorded: None,
        }
    }

    // Copies the text of the outcome, where it is one. An error, where there is no memory, comes with a text alone.
    pub(crate) fn copy(&mut self, alloc: Global, outcome: &Outcome) -> Result<(), AllocError>
        ensures ok { OnOk result (AreCopies (model.Gave (outcome_of outcome.now)) self.old.is_logged self.new) }
        ensures err { OnErr result (is_text (outcome_of outcome.now) ≡ true) }
    {
        if let Outcome::Text(text) = outcome {
            if self.is_logged {
                self.logged = Some(text.copy(alloc)?);
            }
            self.recorded = Some(text.copy(alloc)?);
        }
        Ok(())
    }
}

// The answer with an outcome.
pub(crate) fn answer_with(outcome: Outcome) -> Answer
    ensures { answer_of result ≡ model.Gave (outcome_of outcome) }
{
    match outcome {
        Outcome::Done => Answer::Done,
        Outcome::Text(text) => Answer::Text(text),
    }
}

// The same answer again, with this copy of its text where it is one. Takes no memory.
pub(crate) fn again(answer: &Answer, copy: &mut Option<BoxedText>) -> Answer
    requires { IsCopy (answer_of answer.now) copy.old }
    ensures { answer_of result ≡ answer_of answer.now }
{
    match answer {
        Answer::Begun(number) => Answer::Begun(*number),
        Answer::Done => Answer::Done,
        Answer::Text(_) => match copy.take() {
            Some(text) => Answer::Text(text),
            None => unreachable!(),
        },
        Answer::Saved => Answer::Saved,
        Answer::Back(count) => Answer::Back(*count),
        Answer::Committed(number) => Answer::Committed(*number),
        Answer::Aborted(number) => Answer::Aborted(*number),
        Answer::Refused(refusal) => Answer::Refused(*refusal),
    }
}
