//! The file of an image that is written. It stands beside IMAGE until it is whole, and then takes its place.

ghost use Rattle.std.specs.Prelude.{IfOk};
ghost use Rattle.tlsf_tool.specs.Files.{IsAboveStreams};

use crate::files::{FileNumber, above_streams, are_one, make_file};
use std::alloc::AllocError;
use std::fs::{File, Metadata, OpenOptions, TryLockError};
use std::io::{ErrorKind, Write};
use std::os::unix::fs::{MetadataExt, OpenOptionsExt, fchown};
use std::{fs, io};

/// How many names are tried for a file beside an image. A name is free again once no run holds its file.
const MOST_NAMES: u32 = 1000;

/// The rights of a new file, without those that the caller's umask takes.
const NEW_FILE: u32 = 0o666;

/// The rights of a file until it gets those of an older image.
const MINE_ALONE: u32 = 0o600;

/// The file that an image is written to.
#[derive(Drop)]
pub(crate) struct ImageFile<'a> {
    rt: &'a HostRuntime,
    file: File,
    target: Target,
}

/// What the file is.
#[derive(Drop)]
enum Target {
    /// One beside the image, until it takes the image's place.
    Beside(Beside),
    /// The image itself, which keeps its older bytes until the first are written.
    Older,
    /// The image itself.
    Image,
}

/// The name of a file beside an image, and that of the image.
#[derive(Drop)]
struct Beside {
    file: String,
    image: String,
}

/// Opens a file that there is to write it, and leaves it as it is.
fn open_to_write(rt: &HostRuntime, name: &str) -> io::Result<File>
    ensures { IfOk result IsAboveStreams }
{
    let file = OpenOptions::new().write(true).open(rt, name)?;
    above_streams(file)
}

/// Makes a file that there isn't yet, with these rights. Nothing is left of it where it can't be used.
fn make_new(rt: &HostRuntime, name: &str, rights: u32) -> io::Result<File>
    ensures { IfOk result IsAboveStreams }
{
    let file = OpenOptions::new()
        .write(true)
        .create_new(true)
        .mode(rights)
        .open(rt, name)?;
    let above = above_streams(file);
    if above.is_err() {
        let _ = fs::remove_file(rt, name);
    }
    above
}

/// A name in the folder of the image, with this number.
fn name_beside(rt: &HostRuntime, image: &str, number: u32) -> Result<String, AllocError> {
    match image.rsplit_once('/') {
        Some((folder, _)) => format!(in rt.alloc(); "{folder}/.tlsf-save-{number}"),
        None => format!(in rt.alloc(); ".tlsf-save-{number}"),
    }
}

/// Whether this run alone holds the file, and the name still leads to it. Where the file system has no locks, it is taken as held.
fn is_held(rt: &HostRuntime, file: &File, name: &str) -> bool {
    let is_locked = !matches!(file.try_lock(), Err(TryLockError::WouldBlock));
    is_locked && are_one(FileNumber::of_file(file), FileNumber::of_name(rt, name))
}

/// Removes the file of this name, if a run that was killed left it: then nobody has its lock.
fn remove_if_left(rt: &HostRuntime, name: &str) {
    if let Ok(file) = open_to_write(rt, name) {
        if file.try_lock().is_ok() && is_held(rt, &file, name) {
            let _ = fs::remove_file(rt, name);
        }
    }
}

/// Removes what killed runs left beside the image, up to the first name that no file has.
fn remove_left(rt: &HostRuntime, image: &str) -> Result<(), AllocError> {
    for number in 0..MOST_NAMES {
        let name = name_beside(rt, image, number)?;
        if fs::symlink_metadata(rt, name.as_str()).is_err() {
            return Ok(());
        }
        remove_if_left(rt, name.as_str());
    }
    Ok(())
}

/// Whether this is the error of a folder that takes no new file of such a name.
fn takes_none(error: &io::Error) -> bool {
    matches!(
        error.kind(),
        ErrorKind::PermissionDenied | ErrorKind::ReadOnlyFilesystem | ErrorKind::InvalidFilename
    )
}

/// Makes a file with these rights beside the image. The answer is `None` where the folder takes no new file.
///
/// # Errors
///
/// `OutOfMemory` where memory is refused for its name; that of the folder, as where the disk is full; `AlreadyExists` where other
/// runs hold the files of all names.
fn make_beside(rt: &HostRuntime, image: String, rights: u32) -> io::Result<Option<(File, Beside)>> {
    remove_left(rt, image.as_str())?;
    for number in 0..MOST_NAMES {
        let name = name_beside(rt, image.as_str(), number)?;
        match make_new(rt, name.as_str(), rights) {
            Ok(file) => {
                if is_held(rt, &file, name.as_str()) {
                    return Ok(Some((file, Beside { file: name, image })));
                }
            }
            Err(error) if error.kind() == ErrorKind::AlreadyExists => {}
            Err(error) if takes_none(&error) => return Ok(None),
            Err(error) => return Err(error),
        }
    }
    Err(io::Error::from(ErrorKind::AlreadyExists))
}

/// Whether there is no file of this name, and no link that leads nowhere either. The empty name is none.
fn is_missing(rt: &HostRuntime, name: &str, error: &io::Error) -> bool {
    !name.is_empty()
        && error.kind() == ErrorKind::NotFound
        && fs::symlink_metadata(rt, name).is_err()
}

impl<'a> ImageFile<'a> {
    /// Makes a file beside the image of this name. Where the image is no regular file, it is written itself. So it is where its
    /// folder takes no new file: then it keeps its older bytes until the first are written.
    ///
    /// # Errors
    ///
    /// Those of opening the image, or of making the file beside it; `OutOfMemory` where memory is refused for a name.
    pub fn make(rt: &'a HostRuntime, image: &str) -> io::Result<ImageFile<'a>> {
        match fs::metadata(rt, image) {
            Ok(standing) if standing.is_file() => ImageFile::over(rt, image, &standing),
            Err(error) if is_missing(rt, image, &error) => ImageFile::anew(rt, image),
            _ => ImageFile::itself(rt, image),
        }
    }

    /// The image itself, made or emptied.
    fn itself(rt: &'a HostRuntime, image: &str) -> io::Result<ImageFile<'a>> {
        let file = make_file(rt, image)?;
        let target = Target::Image;
        Ok(ImageFile { rt, file, target })
    }

    /// A file beside an image that there isn't yet.
    fn anew(rt: &'a HostRuntime, image: &str) -> io::Result<ImageFile<'a>> {
        match make_beside(rt, String::from_str(rt.alloc(), image)?, NEW_FILE)? {
            Some((file, beside)) => Ok(ImageFile::of(rt, file, beside)),
            None => ImageFile::itself(rt, image),
        }
    }

    /// A file beside an image that there is, by the end of its links. It gets the image's owner and rights, as far as that
    /// can be.
    fn over(rt: &'a HostRuntime, image: &str, standing: &Metadata) -> io::Result<ImageFile<'a>> {
        let older = open_to_write(rt, image)?;
        let path = match fs::canonicalize(rt, image) {
            Ok(path) => path,
            Err(error) if error.kind() == ErrorKind::OutOfMemory => return Err(error),
            Err(_) => return Ok(ImageFile::older(rt, older)),
        };
        let Some((file, beside)) = make_beside(rt, path.into_string(), MINE_ALONE)? else {
            return Ok(ImageFile::older(rt, older));
        };
        let _ = fchown(&file, Some(standing.uid()), Some(standing.gid()));
        let _ = file.set_permissions(standing.permissions());
        Ok(ImageFile::of(rt, file, beside))
    }

    /// The image itself, open to be written.
    fn older(rt: &'a HostRuntime, file: File) -> ImageFile<'a> {
        let target = Target::Older;
        ImageFile { rt, file, target }
    }

    fn of(rt: &'a HostRuntime, file: File, beside: Beside) -> ImageFile<'a> {
        let target = Target::Beside(beside);
        ImageFile { rt, file, target }
    }

    /// Removes the file that took no image's place.
    pub fn leave(self) {
        if let Target::Beside(beside) = &self.target {
            let _ = fs::remove_file(self.rt, beside.file.as_str());
        }
    }
}

/// Puts a file in the place of an image. Where it can't be, as under a name that another file system has, its bytes are copied.
fn replace(rt: &HostRuntime, beside: &Beside) -> io::Result<()> {
    let (file, image) = (beside.file.as_str(), beside.image.as_str());
    if fs::rename(rt, file, image).is_ok() {
        return Ok(());
    }
    fs::copy(rt, file, image)?;
    fs::remove_file(rt, file)
}

impl Write for ImageFile<'_> {
    fn write(&mut self, buf: &[u8]) -> io::Result<usize> {
        if let Target::Older = &self.target {
            self.file.set_len(0)?;
            self.target = Target::Image;
        }
        self.file.write(buf)
    }

    /// The image is whole: it takes its place.
    fn flush(&mut self) -> io::Result<()> {
        if let Target::Beside(beside) = &self.target {
            self.file.sync_all()?;
            replace(self.rt, beside)?;
            self.target = Target::Image;
        }
        Ok(())
    }
}
