//! Files that are written aside and take their names when they are whole.
#![tactic(auto)]

use cg_lines::{DeviceFault, FromWrite, Sink};
use std::fs::{File, Files, Metadata, OpenFile, Permissions};
use std::io::Write;
use std::os::unix::fs::MetadataExt;
use std::path::{Path, PathBuf};
use std::{fs, io};

// How many names are tried in one folder.
const MOST_NAMES: u32 = 10_000;

/// A file that is being written: aside, in the folder of the file that it is to take the place of; or, where that is no regular
/// file, in place. It ends by `keep` or by `discard`.
pub struct NewFile<F> {
    sink: FromWrite<F>,
    aside: Option<Aside<F>>,
}

// A file that has not taken its name yet.
struct Aside<F> {
    // The file that the sink writes to.
    file: F,
    path: PathBuf,
    target: PathBuf,
}

/// A file that can take this name, with the permissions of the file that it takes the place of. Through a link that is the file at
/// its end. There is an error where there is none, or where standard output or standard error writes to it.
pub fn create<R: Files + AllocGlobal>(rt: &R, name: &str) -> io::Result<NewFile<R::File>> {
    match File::options().write(true).open(rt, name) {
        Ok(old) => in_place_of(rt, name, old),
        Err(fault) if fault.kind() == io::ErrorKind::NotFound && is_free(rt, name) => {
            create_aside(rt, PathBuf::from_str(rt.alloc(), name)?, None)
        }
        Err(fault) => Err(fault),
    }
}

/// Lets the file take its name, once its bytes are on their device. Where that can't be, nothing of it stays.
pub fn keep<R: Files>(rt: &R, output: NewFile<R::File>) -> io::Result<()> {
    let NewFile { sink: _, aside } = output;
    let Some(Aside { file, path, target }) = aside else {
        return Ok(());
    };
    let kept = move_whole(rt, &file, &path, &target);
    if kept.is_err() {
        let _ = fs::remove_file(rt, &path);
    }
    kept
}

/// Removes the file. What was written in place stays.
pub fn discard<R: Files>(rt: &R, output: NewFile<R::File>) {
    let NewFile { sink: _, aside } = output;
    if let Some(
        Aside {
            file: _,
            path,
            target: _,
        },
    ) = aside
    {
        let _ = fs::remove_file(rt, &path);
    }
}

// A file that can take the place of the old one, which has this name.
fn in_place_of<R: Files + AllocGlobal>(
    rt: &R,
    name: &str,
    old: R::File,
) -> io::Result<NewFile<R::File>> {
    let found = old.metadata()?;
    if !found.is_file() {
        let sink = FromWrite::new(old);
        return Ok(NewFile { sink, aside: None });
    }
    if is_at(rt, "/dev/stdout", &found) || is_at(rt, "/dev/stderr", &found) {
        return Err(io::Error::from(io::ErrorKind::ResourceBusy));
    }
    let target = fs::canonicalize(rt, name)?;
    create_aside(rt, target, Some(found.permissions()))
}

// A file in the folder of the target.
fn create_aside<R: Files + AllocGlobal>(
    rt: &R,
    target: PathBuf,
    permissions: Option<Permissions>,
) -> io::Result<NewFile<R::File>> {
    let (path, file) = create_beside(rt, &target)?;
    match prepare(&file, permissions) {
        Ok(same) => Ok(NewFile {
            sink: FromWrite::new(same),
            aside: Some(Aside { file, path, target }),
        }),
        Err(fault) => {
            let _ = fs::remove_file(rt, &path);
            Err(fault)
        }
    }
}

impl<F: Write> Sink for NewFile<F> {
    ghost taken = { λ f. ⟦<FromWrite<F> as Sink>⟧.taken f.sink };

    ghost failed = { λ f. ⟦<FromWrite<F> as Sink>⟧.failed f.sink };

    fn failures(&self) -> u64 {
        self.sink.failures()
    }

    fn write(&mut self, bytes: &[u8]) -> Result<usize, DeviceFault> {
        self.sink.write(bytes)
    }
}

/// Whether the file at this path is the one found, or a link to it.
pub fn is_at<R: Files>(rt: &R, path: &str, found: &Metadata) -> bool {
    match fs::metadata(rt, path) {
        Ok(other) => other.dev() == found.dev() && other.ino() == found.ino(),
        Err(_) => false,
    }
}

// Whether a file that isn't there can have this name: a link that leads nowhere doesn't stand there, nor does it name a folder.
fn is_free<R: Files>(rt: &R, name: &str) -> bool {
    Path::new(name).file_name().is_some()
        && !name.ends_with('/')
        && fs::symlink_metadata(rt, name).is_err()
}

// A new file in the folder of the target, and its path.
fn create_beside<R: Files + AllocGlobal>(
    rt: &R,
    target: &PathBuf,
) -> io::Result<(PathBuf, R::File)> {
    for number in 0..MOST_NAMES {
        let mut name = String::new(rt.alloc());
        write!(name, ".cgtx-history-{number}")?;
        let path = target.with_file_name(rt.alloc(), name.as_str())?;
        match File::create_new(rt, &path) {
            Ok(file) => return Ok((path, file)),
            Err(fault) if fault.kind() == io::ErrorKind::AlreadyExists => {}
            Err(fault) => return Err(fault),
        }
    }
    Err(io::Error::from(io::ErrorKind::AlreadyExists))
}

// Gives the file these permissions, and another handle of it.
fn prepare<F: OpenFile>(file: &F, permissions: Option<Permissions>) -> io::Result<F> {
    if let Some(permissions) = permissions {
        file.set_permissions(permissions)?;
    }
    file.try_clone()
}

// Moves the file, with all its bytes, to the target.
fn move_whole<R: Files>(
    rt: &R,
    file: &R::File,
    path: &PathBuf,
    target: &PathBuf,
) -> io::Result<()> {
    file.sync_all()?;
    fs::rename(rt, path, target)
}
