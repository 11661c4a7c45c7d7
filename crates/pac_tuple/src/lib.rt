//! The log of after-images: what each transaction wrote, as lists of rows and of absences.
//!
//! - [`TxnImages`]: the after-images of one transaction. [`Images`]: those of many, a list for each.
//! - [`write_images`]: appends the bytes of a list. [`images_at`], [`read_images`]: the list at an offset, or the first
//!   fault from the left, an [`ImageFault`] of one of six [`ImageFaultKind`]s.
//! - [`images_of`]: executes the transactions of a batch, and lists the after-images of each. [`ImagesError`]: why not all
//!   are listed.
//! - [`lay`]: lays lists over the rows of tables, by so many workers, whose number makes no difference.
//! - [`after_images_laid_are_serial_execution`]: a law, that laying the after-images of transactions gives what executing
//!   them gives.
//!
//! A list is the byte 3, the number of its images in two bytes, and the images, which are records of `pac_entry` at
//! ascending cells. `specs/Images.antt` says what lists and their bytes are, `specs/ImageReading.antt` how they are read,
//! line by line with the faults; `proofs/ImageLemmas.antt` shows that they agree. Bytes after a list are not looked at.
//! `specs/Writes.antt` of `pac_serial` says what the after-images of a transaction are: the cells that its executed operations
//! write, each with what stands there once it has ended; `specs/AfterImages.antt`, those of transactions one after another. `specs/Laying.antt` says what laying lists makes of the tables.
//!
//! [`lay`] cuts the cells into shares by a hash of their table and key (`specs/Shares.antt`). A worker finds, for each cell of
//! its share, the last image, and what it answers is a map that says so; so whichever thread has found it, the maps of all
//! shares together are the lists (`proofs/LayLemmas.antt`). That several threads have worked is not said.
#![tactic(auto)]

mod fault;
mod images;
mod last;
mod laws;
mod laying;
mod reading;
mod recording;
#[cfg(test)]
mod recording_tests;
mod share;
#[cfg(test)]
mod tests;
mod writing;

pub use fault::{ImageError, ImageFault, ImageFaultKind};
pub use images::{Images, MAX_IMAGES, TxnImages, TxnImagesRule};
pub use laws::after_images_laid_are_serial_execution;
pub use laying::lay;
pub use reading::{images_at, read_images};
pub use recording::{ImagesError, images_of};
pub use writing::write_images;
