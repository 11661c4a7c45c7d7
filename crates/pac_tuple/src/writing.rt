// Writes after-images.
ghost use Rattle.std.specs.Prelude.{◌<◌, [], length, slice_index_or, OnOk};
ghost use Rattle.std.specs.List.{flat_map, All};
ghost use Rattle.pac_value.specs.Growth.{Grew};
ghost use Rattle.pac_entry.specs.Entries.{change_bytes, ChangeHasBytes};
ghost use Rattle.pac_tuple.specs.Images.{images_bytes, AreTxnImages};

use crate::images::{Images, TxnImages};
use pac_base::NoMemory;
use pac_bytes::{put_u8, put_u16};
use pac_entry::put_change;
use pac_ops::Change;

// The tag of a list.
pub(crate) const IMAGES: u8 = 3;

/// Appends the bytes of the list with this number, from 0.
///
/// # Errors
///
/// `NoMemory` alone.
pub fn write_images(images: &Images, at: usize, out: &mut Vec<u8>) -> Result<(), NoMemory>
    requires { at < length images.now }
    // After the old bytes stand those of the list.
    ensures bytes { OnOk result (Grew out.old.items out.new.items (images_bytes (slice_index_or images.now at []))) }
    // It is a list of after-images, and each of these a record that is read again, where it fits the catalogue.
    ensures list { OnOk result (AreTxnImages (slice_index_or images.now at [])) }
    ensures form { OnOk result (All ChangeHasBytes (slice_index_or images.now at [])) }
{
    put_list(out, &images.as_slice()[at])
}

fn put_list(out: &mut Vec<u8>, list: &TxnImages) -> Result<(), NoMemory>
    ensures bytes { OnOk result (Grew out.old.items out.new.items (images_bytes list.now)) }
    ensures list { OnOk result (AreTxnImages list.now) }
    ensures form { OnOk result (All ChangeHasBytes list.now) }
{
    let images = list.items();
    put_u8(out, IMAGES)?;
    put_u16(out, images.len() as u16)?;
    put_all(out, images)
}

fn put_all(out: &mut Vec<u8>, images: &[Change]) -> Result<(), NoMemory>
    ensures bytes { OnOk result (Grew out.old.items out.new.items (flat_map change_bytes images.now)) }
    ensures form { OnOk result (All ChangeHasBytes images.now) }
{
    for image in images {
        put_change(out, image)?;
    }
    Ok(())
}
