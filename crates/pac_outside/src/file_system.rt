// The calls of the system that a disk over a file makes.
use std::fs::{self, File, Files, Metadata, OpenOptions};
use std::io;
use std::os::fd::AsRawFd;
use std::os::unix::fs::{FileExt, MetadataExt};

/// A file as the system tells it from all others that there are: where it stands, and its number there.
#[derive(Clone, Copy, Debug, PartialEq, Eq)]
pub struct FileId {
    pub device: u64,
    pub number: u64,
}

/// What stands at a path, or was opened.
#[derive(Clone, Copy, Debug, PartialEq, Eq)]
pub enum PathKind {
    /// Nothing.
    Missing,
    /// A file of bytes.
    Plain(FileId),
    /// A folder, a link, a pipe or a device.
    Other,
}

/// What is opened, and what for.
#[derive(Clone, Copy, Debug, PartialEq, Eq)]
pub enum OpenMode {
    /// A file to read, or a folder to sync.
    Read,
    /// A file to read and write.
    Write,
    /// A file to read and write that isn't there, and is made.
    Make,
}

/// A system of files, as far as a [`FileDisk`](crate::FileDisk) asks it: the runtime, or a stand-in of a test.
pub trait FileSystem {
    type File: FileCalls + Drop;

    /// What stands at the path itself, where a link isn't followed.
    fn kind(&self, path: &str) -> io::Result<PathKind>;

    /// Opens what stands at the path.
    fn open(&self, path: &str, mode: OpenMode) -> io::Result<Self::File>;
}

/// The calls on an open file. Those of [`FileExt`] read and write at an offset, and may stop short.
pub trait FileCalls: FileExt {
    /// What was opened, whatever stands at its path by now.
    fn kind(&self) -> io::Result<PathKind>;

    /// How many bytes the file has.
    fn len(&self) -> io::Result<u64>;

    /// Brings the file's bytes to the device, and as much beside them as their reading needs.
    fn sync_data(&self) -> io::Result<()>;

    /// Brings the file or the folder to the device.
    fn sync_all(&self) -> io::Result<()>;

    /// Locks the file against others that ask for its lock, and fails where one has it. Closing the file unlocks it.
    fn try_lock(&self) -> io::Result<()>;
}

impl<R: Files<File = File>> FileSystem for R {
    type File = File;

    fn kind(&self, path: &str) -> io::Result<PathKind> {
        match fs::symlink_metadata(self, path) {
            Ok(found) => Ok(kind_of(&found)),
            Err(error) if error.kind() == io::ErrorKind::NotFound => Ok(PathKind::Missing),
            Err(error) => Err(error),
        }
    }

    fn open(&self, path: &str, mode: OpenMode) -> io::Result<File> {
        let file = OpenOptions::new()
            .read(true)
            .write(mode != OpenMode::Read)
            .create_new(mode == OpenMode::Make)
            .open(self, path)?;
        above_standard(file)
    }
}

impl FileCalls for File {
    fn kind(&self) -> io::Result<PathKind> {
        Ok(kind_of(&self.metadata()?))
    }

    fn len(&self) -> io::Result<u64> {
        Ok(self.metadata()?.len())
    }

    fn sync_data(&self) -> io::Result<()> {
        File::sync_data(self)
    }

    fn sync_all(&self) -> io::Result<()> {
        File::sync_all(self)
    }

    fn try_lock(&self) -> io::Result<()> {
        File::try_lock(self)?;
        Ok(())
    }
}

fn kind_of(found: &Metadata) -> PathKind {
    if found.is_file() {
        PathKind::Plain(FileId {
            device: found.dev(),
            number: found.ino(),
        })
    } else {
        PathKind::Other
    }
}

// The numbers 0 to 2 are those of the standard streams. Where one of these is closed the system gives its number to a
// file, and a line of output would then stand in the file.
fn above_standard(file: File) -> io::Result<File> {
    if file.as_raw_fd() > 2 {
        return Ok(file);
    }
    file.try_clone()
}
