// A disk over one file.
ghost use Rattle.std.specs.Prelude.{◌≡◌, ◌≤◌, IfOk, None, length};

use crate::faults::Faults;
use crate::{Disk, Failed, FileCalls, FileId, FileSystem, OpenMode, PathKind};
use std::io;
use std::os::unix::fs::FileExt;
use std::path::Path;

/// A disk over one file. Nothing is known of what the file holds: that a real file keeps the contracts of [`Disk`] is
/// trusted.
///
/// Until the first write or sync the file is opened for reading alone. A missing one reads as an empty disk; a write makes
/// it, and a sync leaves it missing. A folder, a link, a pipe and a device are refused: each call fails. That is asked of the
/// path, and once more of what was opened, since another may have put something else there meanwhile.
///
/// At the first write or sync the file is locked until the disk is dropped. The call fails where another disk has it
/// locked, in this process or another, where it isn't the file that was read before, and where its length isn't the one that
/// was answered last. Then its folder is synced, so that the file itself outlasts a crash.
///
/// A sync fails where the file was removed, or another stands at its path: what is written then is lost for whoever opens
/// the path later. It asks the system once for that.
#[derive(Drop)]
pub struct FileDisk<'a, S: FileSystem> {
    file: OneFile<'a, S>,
    faults: Faults,
}

impl<'a, S: FileSystem> FileDisk<'a, S> {
    /// The file at a path, which isn't opened yet.
    pub fn new(system: &'a S, path: &'a str) -> Self
        ensures { result.faults ≡ 0 }
    {
        FileDisk {
            file: OneFile {
                system,
                path,
                opened: None,
                is_writable: false,
                is_doubtful: false,
                answered: None,
            },
            faults: Faults::new(),
        }
    }
}

impl<'a, S: FileSystem> Disk for FileDisk<'a, S> {
    ghost known = { λ _. None };

    ghost faults = { λ disk. disk.faults };

    ghost seen_is_image = { λ _. tt };

    ghost has_images = { λ _. tt };

    ghost seen_are_bytes = { λ _. tt };

    fn len(&mut self) -> Result<u64, Failed> {
        self.faults.pass(self.file.len())
    }

    fn read(&mut self, at: u64, buf: &mut [u8]) -> Result<usize, Failed> {
        self.faults.pass(self.file.read(at, buf))
    }

    fn write_at(&mut self, at: u64, piece: &[u8]) -> Result<(), Failed> {
        self.faults.pass(self.file.write(at, piece))
    }

    fn sync(&mut self) -> Result<(), Failed> {
        self.faults.pass(self.file.sync())
    }
}

// The file, and what the system answers of it. std's calls go on where a signal stops them, and over short counts.
#[derive(Drop)]
struct OneFile<'a, S: FileSystem> {
    system: &'a S,
    path: &'a str,
    opened: Option<Opened<S::File>>,
    is_writable: bool,
    // A sync failed.
    is_doubtful: bool,
    // The length that was answered last.
    answered: Option<u64>,
}

// A plain file that is open.
#[derive(Drop)]
struct Opened<F> {
    file: F,
    id: FileId,
}

impl<'a, S: FileSystem> OneFile<'a, S> {
    fn len(&mut self) -> io::Result<u64> {
        self.open_to_read()?;
        let len = match &self.opened {
            Some(opened) => opened.file.len()?,
            None => 0,
        };
        self.answered = Some(len);
        Ok(len)
    }

    fn read(&mut self, at: u64, buf: &mut [u8]) -> io::Result<usize>
        ensures { IfOk result (λ count. count ≤ length buf.old) }
    {
        let rest = self.len()?.saturating_sub(at);
        let count = rest.min(buf.len() as u64) as usize;
        if let Some(opened) = &self.opened {
            opened.file.read_exact_at(&mut buf[..count], at)?;
        }
        Ok(count)
    }

    fn write(&mut self, at: u64, piece: &[u8]) -> io::Result<()> {
        self.open_to_write(OpenMode::Make)?;
        match &self.opened {
            Some(opened) => opened.file.write_all_at(piece, at),
            None => Err(io::ErrorKind::NotFound.into()),
        }
    }

    // Nothing was written to a file that is missing.
    fn sync(&mut self) -> io::Result<()> {
        self.open_to_write(OpenMode::Write)?;
        let Some(opened) = &self.opened else {
            return Ok(());
        };
        unless_doubtful(&mut self.is_doubtful, opened.file.sync_data())?;
        match self.system.kind(self.path)? {
            PathKind::Plain(id) if id == opened.id => Ok(()),
            _ => Err(io::Error::other("the file was removed or exchanged")),
        }
    }

    fn open_to_read(&mut self) -> io::Result<()> {
        if self.opened.is_none() {
            match self.system.kind(self.path)? {
                PathKind::Missing => {}
                PathKind::Plain(_) => self.opened = Some(self.open_plain(OpenMode::Read)?),
                PathKind::Other => return Err(not_plain()),
            }
        }
        Ok(())
    }

    // A missing file is made where that is asked for, and else is left missing.
    fn open_to_write(&mut self, missing: OpenMode) -> io::Result<()> {
        if self.is_writable {
            return Ok(());
        }
        let mode = match self.system.kind(self.path)? {
            PathKind::Plain(_) => OpenMode::Write,
            PathKind::Missing if missing == OpenMode::Make => OpenMode::Make,
            PathKind::Missing if self.opened.is_none() => return Ok(()),
            PathKind::Missing | PathKind::Other => return Err(not_plain()),
        };
        let opened = self.open_plain(mode)?;
        opened.file.try_lock()?;
        self.test_same(&opened)?;
        self.sync_folder()?;
        self.opened = Some(opened);
        self.is_writable = true;
        Ok(())
    }

    // What stands at the path may have become another since it was asked for its kind, so what was opened is asked too.
    fn open_plain(&self, mode: OpenMode) -> io::Result<Opened<S::File>> {
        let file = self.system.open(self.path, mode)?;
        match file.kind()? {
            PathKind::Plain(id) => Ok(Opened { file, id }),
            PathKind::Missing | PathKind::Other => Err(not_plain()),
        }
    }

    // Another may have exchanged the file since it was read, or written it before it was locked.
    fn test_same(&self, opened: &Opened<S::File>) -> io::Result<()> {
        let is_exchanged = match &self.opened {
            Some(before) => before.id != opened.id,
            None => false,
        };
        let is_written = match self.answered {
            Some(len) => opened.file.len()? != len,
            None => false,
        };
        if is_exchanged || is_written {
            return Err(io::Error::other("another exchanged or wrote the file"));
        }
        Ok(())
    }

    // The folder is synced also where the file is there already: whoever made it may have been stopped before.
    fn sync_folder(&mut self) -> io::Result<()> {
        let folder = self.system.open(folder_of(self.path), OpenMode::Read)?;
        unless_doubtful(&mut self.is_doubtful, folder.sync_all())
    }
}

// After a sync that failed none succeeds any more: what was written before it may be lost, and the system may say that
// once only.
fn unless_doubtful(is_doubtful: &mut bool, synced: io::Result<()>) -> io::Result<()> {
    *is_doubtful |= synced.is_err();
    if *is_doubtful {
        return Err(io::Error::other("this sync or an earlier one failed"));
    }
    Ok(())
}

fn not_plain() -> io::Error {
    io::Error::other("not a plain file")
}

// The folder that a file stands in.
fn folder_of(path: &str) -> &str {
    match Path::new(path).parent() {
        Some(folder) if !folder.as_str().is_empty() => folder.as_str(),
        _ => ".",
    }
}
