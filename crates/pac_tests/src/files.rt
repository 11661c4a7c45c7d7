// A disk over a file: what the system's calls give.
use pac_outside::{
    Disk, Failed, FileCalls, FileDisk, FileId, FileSystem, OpenMode, PathKind, open_after,
    read_piece,
};
use std::fs::{self, File};
use std::io;
use std::os::unix::fs::symlink;
use std::test::Fail;

type HostDisk<'a> = FileDisk<'a, HostRuntime>;

const FOLDER: &str = "disks_over_files";

const LOG: &str = "disks_over_files/log";

const SLOT: &str = "disks_over_files/slot";

const LINK: &str = "link_of_a_disk";

// Whether a missing file is empty, and isn't made by reading.
fn is_missing(rt: &HostRuntime, disk: &mut HostDisk<'_>) -> bool {
    let mut buf = [0u8; 1];
    disk.len() == Ok(0) && disk.read(0, &mut buf) == Ok(0) && fs::metadata(rt, LOG).is_err()
}

// The second piece stands over the end of the first.
fn is_written(disk: &mut HostDisk<'_>) -> bool {
    disk.write_at(0, b"0bcd") == Ok(())
        && disk.write_at(3, b"XYZ") == Ok(())
        && disk.sync() == Ok(())
}

fn is_read(disk: &mut HostDisk<'_>) -> bool {
    let mut buf = [b'-'; 6];
    disk.len() == Ok(6) && disk.read(2, &mut buf) == Ok(4) && buf.as_slice() == b"cXYZ--".as_slice()
}

fn ends_at_six(disk: &mut HostDisk<'_>) -> bool {
    let mut buf = [0u8; 1];
    disk.read(6, &mut buf) == Ok(0)
        && disk.read(7, &mut buf) == Ok(0)
        && disk.read(u64::MAX, &mut buf) == Ok(0)
}

// Whether another disk over the file reads its bytes, and neither writes nor syncs.
fn is_kept_out(rt: &HostRuntime) -> bool {
    let mut disk = FileDisk::new(rt, LOG);
    disk.len() == Ok(6) && disk.write_at(0, b"x") == Err(Failed) && disk.sync() == Err(Failed)
}

// Whether a sync leaves a missing file missing.
fn is_left_missing(rt: &HostRuntime) -> bool {
    let mut disk = FileDisk::new(rt, SLOT);
    disk.sync() == Ok(()) && disk.len() == Ok(0) && fs::metadata(rt, SLOT).is_err()
}

// What is wrong first of a disk over a file.
fn first_wrong(rt: &HostRuntime, disk: &mut HostDisk<'_>) -> &'static str {
    if !is_missing(rt, disk) {
        "a missing file"
    } else if !is_written(disk) {
        "writes"
    } else if !is_read(disk) {
        "reads"
    } else if !ends_at_six(disk) {
        "the end"
    } else if !is_kept_out(rt) {
        "the lock"
    } else if !is_left_missing(rt) {
        "a sync of a missing file"
    } else {
        "nothing"
    }
}

// The same in a folder of its own.
fn first_wrong_in_folder(rt: &HostRuntime) -> &'static str {
    let mut disk = FileDisk::new(rt, LOG);
    first_wrong(rt, &mut disk)
}

// Whether another disk over the file finds its bytes once the first is gone, and opens a gate in it.
fn opens_a_gate(rt: &HostRuntime) -> bool {
    let mut disk = FileDisk::new(rt, LOG);
    disk.sync() == Ok(()) && disk.len() == Ok(6) && open_after(&mut disk, 0, b"piece!") == Ok(())
}

// Whether that gate and its piece are read.
fn has_piece(rt: &HostRuntime) -> bool {
    let mut disk = FileDisk::new(rt, LOG);
    match read_piece(rt.alloc(), &mut disk, 0, 9) {
        Ok(piece) => piece.as_slice() == b"\x01piece!".as_slice(),
        Err(_) => false,
    }
}

#[test]
fn a_disk_over_a_file_keeps_what_is_written(rt: HostRuntime) -> Result<(), Fail> {
    let _ = fs::remove_dir_all(&rt, FOLDER);
    fs::create_dir(&rt, FOLDER)?;
    assert_eq!(rt; first_wrong_in_folder(&rt), "nothing");
    assert!(rt; opens_a_gate(&rt));
    assert!(rt; has_piece(&rt));
    fs::remove_dir_all(&rt, FOLDER)?;
    Ok(())
}

// Whether each call fails at this path.
fn is_refused(rt: &HostRuntime, path: &str) -> bool {
    let mut buf = [0u8; 1];
    let mut disk = FileDisk::new(rt, path);
    disk.len() == Err(Failed)
        && disk.read(0, &mut buf) == Err(Failed)
        && disk.write_at(0, b"a") == Err(Failed)
        && disk.sync() == Err(Failed)
}

// A folder, a device, a link, and what is no path.
#[test]
fn only_plain_files_are_opened(rt: HostRuntime) -> Result<(), Fail> {
    let _ = fs::remove_file(&rt, LINK);
    symlink(&rt, "no_such_file", LINK)?;
    let fails = is_refused(&rt, ".")
        && is_refused(&rt, "/dev/zero")
        && is_refused(&rt, LINK)
        && is_refused(&rt, "no\0name");
    assert!(rt; fails);
    fs::remove_file(&rt, LINK)?;
    Ok(())
}

// A system in which a folder comes to stand at each path between the question what stands there and the opening.
#[derive(Clone, Copy)]
struct Exchanging<'a> {
    rt: &'a HostRuntime,
}

impl<'a> FileSystem for Exchanging<'a> {
    type File = File;

    fn kind(&self, _path: &str) -> io::Result<PathKind> {
        Ok(PathKind::Plain(FileId {
            device: 0,
            number: 0,
        }))
    }

    fn open(&self, _path: &str, _mode: OpenMode) -> io::Result<File> {
        self.rt.open(".", OpenMode::Read)
    }
}

fn refuses_what_was_opened(system: &Exchanging<'_>) -> bool {
    let mut disk = FileDisk::new(system, LOG);
    disk.len() == Err(Failed) && disk.write_at(0, b"a") == Err(Failed)
}

#[test]
fn what_was_opened_is_asked_for_its_kind(rt: HostRuntime) {
    assert!(rt; refuses_what_was_opened(&Exchanging { rt: &rt }));
}

// Whether no write comes to a file whose folder isn't there.
fn is_not_made(rt: &HostRuntime) -> bool {
    let mut disk = FileDisk::new(rt, "no_such_folder/log");
    disk.len() == Ok(0) && disk.write_at(0, b"a") == Err(Failed)
}

#[test]
fn no_folder_is_made(rt: HostRuntime) {
    assert!(rt; is_not_made(&rt) && fs::metadata(&rt, "no_such_folder").is_err());
}

fn is_synced_by_no_call<F: FileCalls>(file: &F) -> bool {
    file.sync_data().is_ok() || file.sync_all().is_ok()
}

// The system refuses to sync what isn't on a disk, so a sync that succeeds there was no call of it.
#[test]
fn syncs_are_calls_of_the_system(rt: HostRuntime) -> Result<(), Fail> {
    let file = fs::open(&rt, "/dev/null")?;
    assert!(rt; !is_synced_by_no_call(&file));
    Ok(())
}
