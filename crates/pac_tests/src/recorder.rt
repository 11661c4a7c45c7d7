// Files in memory that note the calls on them.
use pac_outside::{FileCalls, FileId, FileSystem, OpenMode, PathKind};
use std::alloc::Global;
use std::cell::{Cell, RefCell};
use std::io;
use std::os::unix::fs::FileExt;

/// The files of one folder, and a line for each call that opened, locked, wrote or synced one of them.
#[derive(Drop)]
pub struct Recorder {
    alloc: Global,
    kept: RefCell<Kept>,
    // How many bytes one call moves at most.
    most: usize,
    // The number of the sync that fails, from 1 on; with 0 none does.
    failing: u32,
}

#[derive(Drop)]
struct Kept {
    files: Vec<Stored>,
    calls: String,
    syncs: u32,
}

#[derive(Drop)]
struct Stored {
    path: String,
    bytes: Vec<u8>,
    is_locked: bool,
}

impl Recorder {
    /// No file yet.
    pub fn new(alloc: Global, most: usize, failing: u32) -> Self {
        Recorder {
            alloc,
            kept: RefCell::new(Kept {
                files: Vec::new(alloc),
                calls: String::new(alloc),
                syncs: 0,
            }),
            most,
            failing,
        }
    }

    /// Whether these were the calls since this was asked last.
    pub fn has_called(&self, lines: &str) -> bool {
        match self.kept.try_borrow_mut() {
            Ok(mut kept) => {
                let as_said = kept.calls.as_str() == lines;
                kept.calls.clear();
                as_said
            }
            Err(_) => false,
        }
    }

    /// Removes the file, which stays with whoever has it open, and makes an empty one at its path where that is asked for.
    pub fn remove(&self, path: &str, is_exchanged: bool) -> io::Result<()> {
        let Some(number) = self.number_of(path)? else {
            return Err(io::ErrorKind::NotFound.into());
        };
        let mut kept = self.kept.try_borrow_mut()?;
        file_of(&mut kept.files, Some(number))?.path.clear();
        drop(kept);
        if is_exchanged {
            self.make(path)?;
        }
        Ok(())
    }

    fn note(&self, line: &str) -> io::Result<()> {
        let mut kept = self.kept.try_borrow_mut()?;
        kept.calls.push_str(line)?;
        kept.calls.push('\n')?;
        Ok(())
    }

    // Notes a sync, which may be the one that fails.
    fn sync(&self, line: &str) -> io::Result<()> {
        self.note(line)?;
        let mut kept = self.kept.try_borrow_mut()?;
        kept.syncs = kept.syncs.saturating_add(1);
        if kept.syncs == self.failing {
            return Err(io::Error::other("a sync that fails"));
        }
        Ok(())
    }

    // Makes a file, and answers its number.
    fn make(&self, path: &str) -> io::Result<usize> {
        let stored = Stored {
            path: String::from_str(self.alloc, path)?,
            bytes: Vec::new(self.alloc),
            is_locked: false,
        };
        let mut kept = self.kept.try_borrow_mut()?;
        let number = kept.files.len();
        kept.files.push(stored)?;
        Ok(number)
    }

    fn number_of(&self, path: &str) -> io::Result<Option<usize>> {
        let kept = self.kept.try_borrow_mut()?;
        Ok(
            kept.files
                .iter()
                .position(|file| file.path.as_str() == path),
        )
    }
}

/// The recorder, as a system of files.
#[derive(Clone, Copy)]
pub struct Recording<'a> {
    pub recorder: &'a Recorder,
}

/// An open file of a recorder, or its folder, which has no number.
pub struct Recorded<'a> {
    recorder: &'a Recorder,
    number: Option<usize>,
    path: String,
    has_lock: Cell<bool>,
}

impl<'a> FileSystem for Recording<'a> {
    type File = Recorded<'a>;

    fn kind(&self, path: &str) -> io::Result<PathKind> {
        match self.recorder.number_of(path)? {
            Some(number) => Ok(numbered(number)),
            None if path == "." => Ok(PathKind::Other),
            None => Ok(PathKind::Missing),
        }
    }

    fn open(&self, path: &str, mode: OpenMode) -> io::Result<Recorded<'a>> {
        let alloc = self.recorder.alloc;
        self.recorder
            .note(format!(in alloc; "open {path} {mode:?}")?.as_str())?;
        let number = match (mode, self.recorder.number_of(path)?) {
            (OpenMode::Make, None) => Some(self.recorder.make(path)?),
            (OpenMode::Make, Some(_)) => return Err(io::ErrorKind::AlreadyExists.into()),
            (_, number) => number,
        };
        Ok(Recorded {
            recorder: self.recorder,
            number,
            path: String::from_str(alloc, path)?,
            has_lock: Cell::new(false),
        })
    }
}

impl<'a> Recorded<'a> {
    fn sync(&self, call: &str) -> io::Result<()> {
        let path = self.path.as_str();
        let line = format!(in self.recorder.alloc; "{call} {path}")?;
        self.recorder.sync(line.as_str())
    }
}

impl<'a> FileExt for Recorded<'a> {
    fn read_at(&self, buf: &mut [u8], offset: u64) -> io::Result<usize> {
        let mut kept = self.recorder.kept.try_borrow_mut()?;
        let file = file_of(&mut kept.files, self.number)?;
        let Some(rest) = file.bytes.get(offset as usize..) else {
            return Ok(0);
        };
        let count = rest.len().min(buf.len()).min(self.recorder.most);
        buf[..count].copy_from_slice(&rest[..count]);
        Ok(count)
    }

    fn write_at(&self, buf: &[u8], offset: u64) -> io::Result<usize> {
        let count = buf.len().min(self.recorder.most);
        let path = self.path.as_str();
        let line = format!(in self.recorder.alloc; "pwrite {path} {offset} {count}")?;
        self.recorder.note(line.as_str())?;
        let mut kept = self.recorder.kept.try_borrow_mut()?;
        let file = file_of(&mut kept.files, self.number)?;
        let at = offset as usize;
        let Some(end) = at.checked_add(count) else {
            return Err(io::ErrorKind::InvalidInput.into());
        };
        if file.bytes.len() < end {
            file.bytes.resize(end, 0)?;
        }
        if end <= file.bytes.len() {
            file.bytes[at..end].copy_from_slice(&buf[..count]);
        }
        Ok(count)
    }
}

impl<'a> FileCalls for Recorded<'a> {
    fn kind(&self) -> io::Result<PathKind> {
        Ok(self.number.map_or(PathKind::Other, numbered))
    }

    fn len(&self) -> io::Result<u64> {
        let mut kept = self.recorder.kept.try_borrow_mut()?;
        Ok(file_of(&mut kept.files, self.number)?.bytes.len() as u64)
    }

    fn sync_data(&self) -> io::Result<()> {
        self.sync("fdatasync")
    }

    fn sync_all(&self) -> io::Result<()> {
        self.sync("fsync")
    }

    fn try_lock(&self) -> io::Result<()> {
        let path = self.path.as_str();
        let line = format!(in self.recorder.alloc; "flock {path}")?;
        self.recorder.note(line.as_str())?;
        let mut kept = self.recorder.kept.try_borrow_mut()?;
        let file = file_of(&mut kept.files, self.number)?;
        if file.is_locked {
            return Err(io::ErrorKind::WouldBlock.into());
        }
        file.is_locked = true;
        self.has_lock.set(true);
        Ok(())
    }
}

/// It gives the lock back.
impl<'a> Drop for Recorded<'a> {
    fn drop(self) {
        let Self {
            recorder,
            number,
            path: _,
            has_lock,
        } = self;
        if has_lock.get() {
            if let Ok(mut kept) = recorder.kept.try_borrow_mut() {
                if let Ok(file) = file_of(&mut kept.files, number) {
                    file.is_locked = false;
                }
            }
        }
    }
}

// The kind of the file of this number.
fn numbered(number: usize) -> PathKind {
    PathKind::Plain(FileId {
        device: 0,
        number: number as u64,
    })
}

// The file of this number.
fn file_of(files: &mut [Stored], number: Option<usize>) -> io::Result<&mut Stored> {
    match number.and_then(|number| files.get_mut(number)) {
        Some(file) => Ok(file),
        None => Err(io::ErrorKind::NotFound.into()),
    }
}
