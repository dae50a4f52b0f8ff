//! Reading of interface files.
ghost use Rattle.std.specs.Prelude.{◌≡◌, IfOk, option_map};
ghost use Rattle.std.specs.String.{string_bytes};
ghost use Rattle.cg_import.specs.Files.{IsReadOf, file_in, folder_at};

use cg_lines::{LineFault, read_at_most};
use cg_name::Path;
use cg_program::{Inputs, OpenFault};
use std::alloc::{AllocError, Global};

// The most bytes of a file.
const LONGEST_FILE: usize = 16_777_216;

/// The folder of the group at a path, below that of the root.
pub(crate) fn folder_of(alloc: Global, root: &str, path: &Path) -> Result<String, AllocError>
    ensures { IfOk result (λ folder. string_bytes folder ≡ folder_at root.now path.now) }
{
    let mut folder = String::from_str(alloc, root)?;
    for name in path.names() {
        folder.push('/')?;
        folder.push_str(name)?;
    }
    Ok(folder)
}

/// The text of a file in a folder, where there is one that can be read whole and is UTF-8.
pub(crate) fn file_in<P: Inputs>(
    alloc: Global,
    inputs: &P,
    folder: &str,
    file: &str,
) -> Result<Option<String>, AllocError>
    ensures { IfOk result (λ read. IsReadOf (P.file inputs.now) (P.is_missing inputs.now) (file_in folder.now file.now) (option_map string_bytes read)) }
{
    let mut name = String::from_str(alloc, folder)?;
    name.push('/')?;
    name.push_str(file)?;
    let mut source = match inputs.open_file(name.as_str()) {
        Ok(source) => source,
        Err(OpenFault::Memory) => return Err(AllocError),
        Err(OpenFault::Unreadable) => return Ok(None),
    };
    match read_at_most(alloc, &mut source, LONGEST_FILE) {
        Ok(Some(bytes)) => Ok(String::from_utf8(bytes).ok()),
        Ok(None) | Err(LineFault::Read) => Ok(None),
        Err(LineFault::Memory) => Err(AllocError),
    }
}
