//! The files that are named: how they are opened, and which are one.

ghost use Rattle.std.specs.Prelude.{◌↔◌, IsTrue, IfOk};
ghost use Rattle.tlsf_tool.specs.Files.{IsAboveStreams, AreOne};

use std::fs::{File, Metadata};
use std::os::fd::AsRawFd;
use std::os::unix::fs::MetadataExt;
use std::{fs, io};

/// The descriptor of standard error, the last of the standard streams.
const LAST_STREAM: i32 = 2;

/// Which file it is: its device, and its number there.
#[derive(Clone, Copy, Debug, PartialEq, Eq)]
pub struct FileNumber {
    device: u64,
    inode: u64,
}

impl FileNumber {
    /// The file that a name leads to, where it leads to one.
    pub fn of_name(rt: &HostRuntime, name: &str) -> Option<FileNumber> {
        match fs::metadata(rt, name) {
            Ok(metadata) => Some(FileNumber::of(&metadata)),
            Err(_) => None,
        }
    }

    /// The regular file that a name leads to, where it leads to one.
    pub fn of_regular(rt: &HostRuntime, name: &str) -> Option<FileNumber> {
        match fs::metadata(rt, name) {
            Ok(metadata) if metadata.is_file() => Some(FileNumber::of(&metadata)),
            _ => None,
        }
    }

    /// The file that is open, where the system tells it.
    pub fn of_file(file: &File) -> Option<FileNumber> {
        match file.metadata() {
            Ok(metadata) => Some(FileNumber::of(&metadata)),
            Err(_) => None,
        }
    }

    fn of(metadata: &Metadata) -> FileNumber {
        FileNumber {
            device: metadata.dev(),
            inode: metadata.ino(),
        }
    }
}

/// Whether both are known, and are one file.
pub fn are_one(log: Option<FileNumber>, image: Option<FileNumber>) -> bool
    ensures { IsTrue result ↔ AreOne log image }
{
    match (log, image) {
        (Some(log), Some(image)) => log == image,
        _ => false,
    }
}

/// The file, under a descriptor that is no standard stream's. Where one of these is closed, a file that is opened takes its
/// number. What goes to the stream would then land in the file. A clone is above them.
///
/// # Errors
///
/// That of the clone, or `Other` where that isn't above them either.
pub(crate) fn above_streams(file: File) -> io::Result<File>
    ensures { IfOk result IsAboveStreams }
{
    if file.as_raw_fd() > LAST_STREAM {
        return Ok(file);
    }
    let clone = file.try_clone()?;
    if clone.as_raw_fd() > LAST_STREAM {
        return Ok(clone);
    }
    Err(io::Error::from(io::ErrorKind::Other))
}

/// Opens a file to read it.
pub fn open_file(rt: &HostRuntime, name: &str) -> io::Result<File>
    ensures { IfOk result IsAboveStreams }
{
    let file = fs::open(rt, name)?;
    above_streams(file)
}

/// Makes a file to write it, or empties the one that there is.
pub fn make_file(rt: &HostRuntime, name: &str) -> io::Result<File>
    ensures { IfOk result IsAboveStreams }
{
    let file = fs::create(rt, name)?;
    above_streams(file)
}
