//! The inputs and outputs of this computer: standard input and files.
ghost use Rattle.std.specs.Prelude.{None, false};

use cg_import::{Folders, Listed};
use cg_new_file::{NewFile, is_at};
use cg_program::{CreateFault, FromRead, Inputs, OpenFault, Outputs};
use std::alloc::Global;
use std::fs::{DirEntry, File};
use std::io::Read;
use std::os::fd::{AsRawFd, IntoRawFd};
use std::rt::Stdin;
use std::{fs, io};

// What gives nothing and takes all.
const NULL: &str = "/dev/null";

/// Has reads of standard input and writes to the standard outputs fail where these are closed. Else the files that are opened next
/// would take their numbers, and be read or written in their place.
pub fn hold_standard(rt: &HostRuntime) {
    for _number in 0..3 {
        if !hold_next(rt) {
            return;
        }
    }
}

// Holds the least number that is free, where it is a standard one, by a file that can't be read as standard input or written to as an
// output. False where none of these is free.
fn hold_next(rt: &HostRuntime) -> bool {
    let Ok(file) = File::open(rt, NULL) else {
        return false;
    };
    match file.as_raw_fd() {
        0 => {
            drop(file);
            hold_input(rt)
        }
        1 | 2 => {
            let _ = file.into_raw_fd();
            true
        }
        _ => false,
    }
}

// The same of standard input, which is free.
fn hold_input(rt: &HostRuntime) -> bool {
    match File::options().write(true).open(rt, NULL) {
        Ok(file) => {
            let _ = file.into_raw_fd();
            true
        }
        Err(_) => false,
    }
}

/// Standard input or an opened file.
#[derive(Drop)]
pub enum Input {
    Standard(Stdin),
    Opened(File),
}

impl Read for Input {
    fn read(&mut self, buf: &mut [u8]) -> io::Result<usize> {
        match self {
            Input::Standard(input) => input.read(buf),
            Input::Opened(file) => file.read(buf),
        }
    }
}

/// The computer that the program runs on. What its inputs hold isn't known before they are read.
#[derive(Drop)]
pub struct Host<'a>(pub &'a HostRuntime);

impl Inputs for Host<'_> {
    type Input = FromRead<Input>;

    ghost standard = { λ _. None };

    ghost file = { λ _ _. None };

    ghost is_missing = { λ _ _. false };

    fn open_standard(&self) -> FromRead<Input> {
        FromRead::new(Input::Standard(self.0.stdin()))
    }

    fn open_file(&self, name: &str) -> Result<FromRead<Input>, OpenFault> {
        match File::open(self.0, name) {
            Ok(file) => Ok(FromRead::new(Input::Opened(file))),
            Err(fault) => Err(open_fault(fault)),
        }
    }
}

impl Folders for Host<'_> {
    fn folders(&self, alloc: Global, name: &str) -> Result<Listed, OpenFault> {
        let mut listed = Listed {
            names: Vec::new(alloc),
            has_others: false,
        };
        for entry in fs::read_dir(self.0, name).map_err(open_fault)? {
            match entry {
                Ok(entry) => list(alloc, &entry, &mut listed)?,
                Err(fault) if fault.kind() == io::ErrorKind::InvalidFilename => {
                    listed.has_others = true;
                }
                Err(fault) => return Err(open_fault(fault)),
            }
        }
        Ok(listed)
    }
}

// Lists what is a folder.
fn list(
    alloc: Global,
    entry: &DirEntry<HostRuntime>,
    listed: &mut Listed,
) -> Result<(), OpenFault> {
    if !entry.file_type().map_err(open_fault)?.is_dir() {
        return Ok(());
    }
    let name = String::from_str(alloc, entry.file_name()).map_err(|_| OpenFault::Memory)?;
    listed.names.push(name).map_err(|_| OpenFault::Memory)
}

// Why a file or a folder was not opened, of a fault of this computer.
fn open_fault(fault: io::Error) -> OpenFault {
    match fault.kind() {
        io::ErrorKind::OutOfMemory => OpenFault::Memory,
        _ => OpenFault::Unreadable,
    }
}

impl Outputs for Host<'_> {
    type Output = NewFile<File>;

    ghost nothing = { None };

    ghost is_barred = { λ _ _. false };

    ghost is_same = { λ _ _ _. false };

    ghost is_read = { λ _ _. false };

    fn is_same(&self, name: &str, other: &str) -> bool {
        match fs::metadata(self.0, name) {
            Ok(found) => found.is_file() && is_at(self.0, other, &found),
            Err(_) => false,
        }
    }

    fn is_read(&self, name: &str) -> bool {
        self.is_same(name, "/dev/stdin")
    }

    fn create_file(&self, name: &str) -> Result<NewFile<File>, CreateFault> {
        cg_new_file::create(self.0, name).map_err(create_fault)
    }

    fn keep(&mut self, output: NewFile<File>, _name: &str) -> Result<(), CreateFault> {
        cg_new_file::keep(self.0, output).map_err(create_fault)
    }

    fn discard(&self, output: NewFile<File>) {
        cg_new_file::discard(self.0, output);
    }
}

// Why a file was not made or kept, of a fault of this computer.
fn create_fault(fault: io::Error) -> CreateFault {
    match fault.kind() {
        io::ErrorKind::OutOfMemory => CreateFault::Memory,
        _ => CreateFault::Unwritable,
    }
}
