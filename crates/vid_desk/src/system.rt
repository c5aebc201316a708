// Files of the system by their paths, and what is done with them while they are open (own).
use std::fs::{self, File, Metadata, OpenFile, OpenOptions};
use std::io::{self, ErrorKind};
use std::os::unix::fs::{FileExt, MetadataExt};
use std::rt::Files;

/// The regular file of that path, or None where there is none. A path that goes on below a file names none either.
pub fn open_input(rt: &impl Files<File = File>, path: &str) -> io::Result<Option<File>> {
    match open_regular(rt, path) {
        Ok(file) => Ok(Some(file)),
        Err(e) if matches!(e.kind(), ErrorKind::NotFound | ErrorKind::NotADirectory) => Ok(None),
        Err(e) => Err(e),
    }
}

/// What stands at the path is looked at first, since opening a pipe waits for one who writes into it; and again once it
/// is open, since another file may stand there by then.
fn open_regular(rt: &impl Files<File = File>, path: &str) -> io::Result<File> {
    require_regular(&fs::metadata(rt, path)?)?;
    let file = fs::open(rt, path)?;
    require_regular(&file.metadata()?)?;
    Ok(file)
}

/// A folder, a pipe or a device has no length, and its bytes are not there to be read again.
fn require_regular(found: &Metadata) -> io::Result<()> {
    if found.is_file() {
        Ok(())
    } else {
        Err(ErrorKind::InvalidInput.into())
    }
}

/// An empty file of that path, in place of a file that is there. One of the inputs is refused, under whatever name, and
/// left as it was: nothing is cut off before the two are compared.
pub fn open_output(rt: &impl Files<File = File>, path: &str, inputs: &[File]) -> io::Result<File> {
    let file = OpenOptions::new().write(true).create(true).open(rt, path)?;
    let opened = file.metadata()?;
    for input in inputs {
        if is_same(&input.metadata()?, &opened) {
            return Err(ErrorKind::AlreadyExists.into());
        }
    }
    if opened.is_file() {
        file.set_len(0)?;
    }
    Ok(file)
}

/// Both are of one file, by whatever names it was opened.
fn is_same(one: &Metadata, other: &Metadata) -> bool {
    one.dev() == other.dev() && one.ino() == other.ino()
}

/// Fills the buffer from a place on. A range past the end is an error, an empty one too, for which nothing is read.
pub fn fill(file: &File, pos: u64, buf: &mut [u8]) -> io::Result<()> {
    if buf.is_empty() && file.metadata()?.len() < pos {
        return Err(ErrorKind::UnexpectedEof.into());
    }
    file.read_exact_at(buf, pos)
}

/// Waits until what was written to a regular file is on the disk. A pipe, a terminal or a null device keeps nothing.
pub fn sync(file: &File) -> io::Result<()> {
    if file.metadata()?.is_file() {
        file.sync_all()?;
    }
    Ok(())
}
