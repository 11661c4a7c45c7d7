// Reads the slots of a store.
ghost use Rattle.std.specs.Prelude.{◌≡◌, false, ℕ, IfOk, IsErrOf};
ghost use Rattle.pac_outside.specs.Devices.{EitherFaulted};
ghost use Rattle.pac_outside.specs.Disk.{IfKnown};
ghost use Rattle.pac_types.specs.Fits.{FitsCatalogue};
ghost use Rattle.pac_log.specs.declared.damage.DamageKind.{DamageKind as ALogDamage};
ghost use Rattle.pac_outside.specs.declared.devices.LogName.{LogName as ALogName};
ghost use Rattle.pac_check.specs.declared.damage.SlotDamageKind.{SlotDamageKind as ASlotDamage};
ghost use Rattle.pac_check.specs.declared.info.SlotName.{SlotName as ASlotName};
ghost use Rattle.pac_check.specs.Kinds.{slot_fault};
ghost use Rattle.pac_check.specs.SlotStates.{IsSlot, IsSlotFront};
ghost use Rattle.pac_restore.specs.declared.errors.Damage.TheVariants.{Log as InLog, Slot as InSlot};
ghost use Rattle.pac_restore.specs.Opening.{AreNewestOf, IsBrokenSlot};

use crate::LoadError;
use pac_check::{SlotHeads, Slots};
use pac_outside::Disk;
use pac_serial::no_rows;
use pac_tables::{JoinedRows, TableRows};
use pac_types::Catalogue;
use std::alloc::Global;

/// The slots of a store, and the tables of the newest.
#[derive(Drop)]
pub(crate) struct Newest<T: TableRows> {
    pub slots: Slots,
    /// Without rows where no slot is open.
    pub tables: JoinedRows<T>,
}

/// What stands in two slots that begin so, and the tables of the newest.
///
/// # Errors
///
/// Those of [`Slots::attach`] and [`Slots::load_newest`].
pub(crate) fn read_newest<D: Disk, T: TableRows>(
    alloc: Global,
    heads: SlotHeads,
    cat: &Catalogue,
    a: &mut D,
    b: &mut D,
) -> Result<Newest<T>, LoadError>
    requires heads_a { IfKnown (λ old. IsSlotFront heads.a old.now.seen) (D.known a.old) }
    requires heads_b { IfKnown (λ old. IsSlotFront heads.b old.now.seen) (D.known b.old) }
    ensures states { IfOk result (λ newest. (newest.slots.a ≡ heads.a) × (newest.slots.b ≡ heads.b)) }
    ensures a { IfOk result (λ newest. IfKnown (λ old. IsSlot cat.now.tables newest.slots.a old.now.seen) (D.known a.old)) }
    ensures b { IfOk result (λ newest. IfKnown (λ old. IsSlot cat.now.tables newest.slots.b old.now.seen) (D.known b.old)) }
    ensures works { IfOk result (λ newest. newest.slots.has_failed ≡ false) }
    ensures fits { IfOk result (λ newest. FitsCatalogue cat.now newest.tables.tables newest.tables.rows) }
    ensures newest { IfOk result (λ newest. IfKnown (λ x. IfKnown (λ y. AreNewestOf cat.now newest.slots newest.tables.rows x.now.seen y.now.seen) (D.known b.old)) (D.known a.old)) }
    ensures damaged { (slot : ASlotName) (at : ℕ) (kind : ASlotDamage) → IsErrOf result (LoadError.Damaged (InSlot slot at kind))
        → IfKnown (λ x. IfKnown (λ y. IsBrokenSlot cat.now.tables slot (slot_fault kind at) x.now.seen y.now.seen) (D.known b.old)) (D.known a.old) }
    ensures no_log { (name : ALogName) (at : ℕ) (kind : ALogDamage) → ¬ IsErrOf result (LoadError.Damaged (InLog name at kind)) }
    ensures no_store { ¬ IsErrOf result LoadError.NoStore }
    ensures same_a { D.known a.new ≡ D.known a.old }
    ensures same_b { D.known b.new ≡ D.known b.old }
    ensures disk_fault { IsErrOf result LoadError.DiskFault → EitherFaulted (D.faults a.old) (D.faults a.new) (D.faults b.old) (D.faults b.new) }
    ensures quiet_a { ¬ IsErrOf result LoadError.DiskFault → D.faults a.new ≡ D.faults a.old }
    ensures quiet_b { ¬ IsErrOf result LoadError.DiskFault → D.faults b.new ≡ D.faults b.old }
{
    let slots = Slots::attach(alloc, heads, cat, a, b)?;
    let tables = read_tables(alloc, cat, &slots, a, b)?;
    Ok(Newest { slots, tables })
}

// The tables of the newest slot; without rows where no slot is open.
fn read_tables<D: Disk, T: TableRows>(
    alloc: Global,
    cat: &Catalogue,
    slots: &Slots,
    a: &mut D,
    b: &mut D,
) -> Result<JoinedRows<T>, LoadError>
    requires holds_a { IfKnown (λ old. IsSlot cat.now.tables slots.now.a old.now.seen) (D.known a.old) }
    requires holds_b { IfKnown (λ old. IsSlot cat.now.tables slots.now.b old.now.seen) (D.known b.old) }
    ensures fits { IfOk result (λ rows. FitsCatalogue cat.now rows.tables rows.rows) }
    ensures newest { IfOk result (λ rows. IfKnown (λ x. IfKnown (λ y. AreNewestOf cat.now slots.now rows.rows x.now.seen y.now.seen) (D.known b.old)) (D.known a.old)) }
    ensures whole { (slot : ASlotName) (at : ℕ) (kind : ASlotDamage) → IsErrOf result (LoadError.Damaged (InSlot slot at kind)) → IfKnown (λ x. IfKnown (λ y. ⊥) (D.known b.old)) (D.known a.old) }
    ensures no_log { (name : ALogName) (at : ℕ) (kind : ALogDamage) → ¬ IsErrOf result (LoadError.Damaged (InLog name at kind)) }
    ensures no_store { ¬ IsErrOf result LoadError.NoStore }
    ensures same_a { D.known a.new ≡ D.known a.old }
    ensures same_b { D.known b.new ≡ D.known b.old }
    ensures disk_fault { IsErrOf result LoadError.DiskFault → EitherFaulted (D.faults a.old) (D.faults a.new) (D.faults b.old) (D.faults b.new) }
    ensures quiet_a { ¬ IsErrOf result LoadError.DiskFault → D.faults a.new ≡ D.faults a.old }
    ensures quiet_b { ¬ IsErrOf result LoadError.DiskFault → D.faults b.new ≡ D.faults b.old }
{
    let mut rows = no_rows(alloc, cat)?;
    slots.load_newest(alloc, cat, a, b, &mut rows)?;
    Ok(rows)
}
