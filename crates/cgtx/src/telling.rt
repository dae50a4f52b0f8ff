//! What is told on standard error, as much as the words ask for.
use crate::reasons::{Reason, tell_reason};
use cg_check::Kind;
use cg_command_line::Telling;
use cg_program::{FromWrite, Status};
use std::io;
use std::io::Write;
use std::rt::{Stderr, Stdout};

/// Standard error, or what takes all that is told and writes nothing.
#[derive(Drop)]
pub enum Errors {
    Told(Stderr),
    Silent,
}

impl Write for Errors {
    fn write(&mut self, buf: &[u8]) -> io::Result<usize> {
        match self {
            Errors::Told(output) => output.write(buf),
            Errors::Silent => Ok(buf.len()),
        }
    }

    fn flush(&mut self) -> io::Result<()> {
        match self {
            Errors::Told(output) => output.flush(),
            Errors::Silent => Ok(()),
        }
    }
}

/// The standard outputs of this computer.
#[derive(Clone, Copy)]
pub struct Console<'a> {
    pub rt: &'a HostRuntime,
    pub telling: Telling,
}

impl Console<'_> {
    /// Standard output.
    pub fn out(&self) -> FromWrite<Stdout> {
        FromWrite::new(self.rt.stdout())
    }

    /// Standard error, unless nothing is to be told.
    pub fn err(&self) -> FromWrite<Errors> {
        FromWrite::new(match self.telling {
            Telling::Plain | Telling::Verbose => Errors::Told(self.rt.stderr()),
            Telling::Quiet => Errors::Silent,
        })
    }

    /// The status of a run over these worlds, and other texts of this kind. Why it was refused or failed is told where that is asked
    /// for.
    pub fn ended(&self, status: u8, worlds: &[&str], kind: Kind, others: &[&str]) -> u8 {
        if self.telling == Telling::Verbose {
            if status == Status::Failed.code() {
                tell_reason(self.rt, Reason::Unread, worlds, kind, others);
            } else if status == Status::Refused.code() {
                tell_reason(self.rt, Reason::Fault, worlds, kind, others);
            }
        }
        status
    }
}
