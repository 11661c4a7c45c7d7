//! The outside of the database: every way by which bytes come in and go out, and nothing else of the world. The layers
//! above are generic over these traits.
//!
//! - [`Source`] gives bytes, [`Sink`] takes bytes. [`read_up_to`] reads a whole input, [`write_all`] writes a whole
//!   text.
//! - [`Disk`] is a device of bytes that survive a crash once they are synced; `specs/Disk.antt` says what a crash may
//!   leave at each moment. [`Devices`] are the four of a store; [`Devices::sync`] syncs them. [`LogName`]
//!   names the two of them on which the segments of the log stand.
//! - [`write_and_sync`] returns once a piece is synced. [`open_after`] writes a piece after a closed gate byte and
//!   opens it: the argument that a crash leaves all of the piece or none stands there, once. [`read_piece`] and
//!   [`read_more`] read.
//! - [`MemSource`], [`MemSink`] and [`MemDisk`] are in memory and fail at chosen calls. [`MemDisk::image`] returns what
//!   a crash may leave, by a [`Fill`].
//! - [`Stream`] is an adapter over a reader or a writer of std, [`FileDisk`] over a file, [`NoDisk`] is no device: each
//!   of its calls fails. [`store_devices`] are the four files of a store.
//! - [`FileSystem`] is what a [`FileDisk`] asks of the system: the runtime is one, and a test puts another in its place.
//! - [`Gate`] is passed by a worker before each piece of work; [`OpenGate`] never blocks. Both stand in `pac_ops`, since
//!   workers know no device.
//!
//! ```
//! use pac_outside::{Fill, MemDisk, open_after};
//!
//! let mut disk = MemDisk::new(vec![in alloc; 0]?, Vec::new(alloc)); // a closed gate byte; no call fails
//! open_after(&mut disk, 0, b"piece")?;
//! let image = disk.image(Fill::Old, false)?; // the byte 1, and then the piece
//! ```
//!
//! Each object counts its faults. A call returns [`Failed`] only where the count of that very object rose in that call;
//! a count at the greatest `u64` counts as risen. A failed call of a device is counted once, and none of the functions
//! above calls a device again after one failed. Clauses on bytes hold for objects whose content is observable, as those
//! in memory; standard streams and files are not. That a file keeps the promises of a [`Disk`] is trusted, and tested.
//! [`each_state_is_passed`], [`a_moment_is_allowed`], [`one_device_runs`] and [`a_state_between_counts`] are laws: functions
//! without code, whose clauses say what holds at every moment of a run of calls of several devices.
#![tactic(auto)]

mod bytes;
mod calls;
mod device;
mod devices;
mod durable;
mod failed;
mod faults;
mod file_disk;
mod file_system;
mod gate_byte;
mod laws;
mod mem_disk;
mod memory;
mod moment;
mod piece;
mod store_files;
mod streams;
mod whole;

pub use bytes::{Sink, Source};
pub use device::{Disk, NoDisk};
pub use devices::{Devices, LogName};
pub use durable::{open_after, write_and_sync};
pub use failed::{Failed, ReadError};
pub use file_disk::FileDisk;
pub use file_system::{FileCalls, FileId, FileSystem, OpenMode, PathKind};
pub use gate_byte::{GATE_OPEN, GATE_SHUT};
pub use laws::{
    a_moment_is_allowed, a_state_between_counts, each_state_is_passed, one_device_runs,
};
pub use mem_disk::MemDisk;
pub use memory::{MemSink, MemSource};
pub use moment::Fill;
pub use pac_ops::{Gate, OpenGate};
pub use piece::{read_more, read_piece};
pub use store_files::store_devices;
pub use streams::Stream;
pub use whole::{read_up_to, write_all};
