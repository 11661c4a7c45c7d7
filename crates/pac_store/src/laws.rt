// What holds of every store. Each law is a function without code.
ghost use Rattle.std.specs.Prelude.{◌≡◌, ◌≢◌, ◌≤◌, ◌+◌, ◌-◌, ◌++◌, ◌∷◌, [], ℕ, List, Some, Ok, drop, length, take};
ghost use Rattle.pac_value.specs.State.{Tables};
ghost use Rattle.pac_ops.specs.declared.transaction.Txn.{Txn as ATxn};
ghost use Rattle.pac_outside.specs.Devices.{AllLeave, RunLeaves, device_at, log_at, log_named, other_log, with_device};
ghost use Rattle.pac_outside.specs.Disk.{DiskHistory, LeavesOnly};
ghost use Rattle.pac_outside.specs.GateByte.{IsOpen, IsShut, OneImage};
ghost use Rattle.pac_outside.specs.declared.devices.Devices.{Devices as ADevices};
ghost use Rattle.pac_types.specs.Execution.{serial};
ghost use Rattle.pac_types.specs.Typing.{CatalogueState};
ghost use Rattle.pac_log.specs.Logs.{all_txns, base_in, header_with, number_after};
ghost use Rattle.pac_check.specs.declared.head.Head.{Head as AHead};
ghost use Rattle.pac_check.specs.Replacing.{IsOldOrShut, IsShutOrNew};
ghost use Rattle.pac_check.specs.SlotStates.{IsAbove, info_with, newest_among};
ghost use Rattle.pac_store.specs.Prefixes.{ContinuesPrefix};
ghost use Rattle.pac_store.specs.FirstRefusals.{IsFirstRefusal, Refused};
ghost use Rattle.pac_store.specs.Images.{Images};
ghost use Rattle.pac_store.specs.OldStands.{StoodFor};
ghost use Rattle.pac_store.specs.Saving.{HasBegun, IsReadyFor, KeepsBy, KnownStore, StandsStill, SwitchesByGate, active_by, closed_by, last_number, published_by, published_bytes, published_head, slot_named, spare_by};
ghost use Rattle.pac_store.specs.Segments.{CanBePublished, IsPossible, Segment as ASegment, after_each, segment_by};
ghost use Rattle.pac_store.specs.Stands.{EndsWith, HoldsSaved, IsHistory, StandsFor};
ghost use Rattle.pac_store.specs.Stored.{IsStored, Stored};

use pac_check::SlotState;

/// Where devices stand for a history, serial execution of what is stored on them, from the tables of the newest slot on,
/// ends with the tables of a prefix of the history, which has at least as many transactions as they stand for.
pub fn stored_goes_on()
    ensures { (text : List ℕ) (c : CatalogueState) (history : List ATxn) (least : ℕ) (images : Images) (stored : Stored) → StandsFor text c history least images → IsStored images stored → ContinuesPrefix c history least stored }
{}

/// Where devices stand for a history, something is stored on them: the log is whole, and so are the slots.
pub fn what_stands_is_stored()
    ensures { (text : List ℕ) (c : CatalogueState) (history : List ATxn) (least : ℕ) (images : Images) → StandsFor text c history least images → (stored : Stored) × IsStored images stored }
{}

/// Devices stand for one text, one catalogue, one active segment and one list of its transactions; and two histories that they
/// stand for end with the same tables, up to the last transaction that is stored.
pub fn one_history()
    ensures segment { (s t : List ℕ) (c d : CatalogueState) (h g : List ATxn) (k l : ℕ) (images : Images) (is : StandsFor s c h k images) (other : StandsFor t d g l images) → (s ≡ t) × (c ≡ d) × (is.form ≡ other.form) × (is.batches ≡ other.batches) }
    ensures tables { (s t : List ℕ) (c d : CatalogueState) (h g : List ATxn) (k l : ℕ) (images : Images) (stored : Stored) → IsStored images stored → StandsFor s c h k images → StandsFor t d g l images
        → (held : Tables) × EndsWith c (take (stored.number + length stored.rest) h) held × EndsWith d (take (stored.number + length stored.rest) g) held }
{}

/// Devices that stand for a history of at least that many transactions stand for it with fewer.
pub fn fewer_stand()
    ensures log { (text : List ℕ) (c : CatalogueState) (history : List ATxn) (least lesser : ℕ) (images : Images) → lesser ≤ least → StandsFor text c history least images → StandsFor text c history lesser images }
    ensures slots { (c : CatalogueState) (saved lesser : ℕ) (images : Images) → lesser ≤ saved → HoldsSaved c saved images → HoldsSaved c lesser images }
{}

/// Devices that stand for a history stand for each history that continues it.
pub fn more_stand()
    ensures { (text : List ℕ) (c : CatalogueState) (history more : List ATxn) (least : ℕ) (images : Images) → IsHistory c (history ++ more) → StandsFor text c history least images → StandsFor text c (history ++ more) least images }
{}

/// A store of three devices, as it was before the log had segments, stands for the same history with any second log device, such
/// as an empty one.
pub fn three_devices_stand()
    ensures { (text : List ℕ) (c : CatalogueState) (history : List ATxn) (least : ℕ) (log log_b a b : List ℕ) → StoodFor text c history least log a b → StandsFor text c history least (record { log = log; log_b = log_b; slot_a = a; slot_b = b }) }
{}

/// A save in its order. While the slot that isn't the newest is closed, and while the next segment is begun on the device that isn't
/// active, whatever happens there, each image stands for the same history by the segment that was active. While the checkpoint is
/// published, each image whose gate isn't open does so too, and each whose gate is open by the next segment: the newest slot and the
/// active segment change with one byte. After each of the three the devices stand still again.
pub fn a_save_keeps_the_history()
    ensures closing { (text : List ℕ) (c : CatalogueState) (h : List ATxn) (known : KnownStore) (devices : ADevices DiskHistory) (new : DiskHistory) → StandsStill text c h known devices
        → LeavesOnly (IsOldOrShut (device_at (slot_named (spare_by known)) devices).now.seen) (device_at (slot_named (spare_by known)) devices) new
        → RunLeaves (KeepsBy (active_by known) text c h known) devices (with_device (slot_named (spare_by known)) new devices) }
    ensures closed { (text : List ℕ) (c : CatalogueState) (h : List ATxn) (known : KnownStore) (devices : ADevices DiskHistory) (new : DiskHistory) → StandsStill text c h known devices
        → OneImage (IsShut []) new.now → StandsStill text c h (closed_by known) (with_device (slot_named (spare_by known)) new devices) }
    ensures beginning { (text : List ℕ) (c : CatalogueState) (h : List ATxn) (known : KnownStore) (devices : ADevices DiskHistory) (new : DiskHistory) → StandsStill text c h known devices
        → LeavesOnly (λ image. Unit {0}) (log_at (other_log (active_by known)) devices) new
        → RunLeaves (KeepsBy (active_by known) text c h known) devices (with_device (log_named (other_log (active_by known))) new devices) }
    ensures begun { (text : List ℕ) (c : CatalogueState) (h : List ATxn) (known : KnownStore) (devices : ADevices DiskHistory) (new : DiskHistory) → StandsStill text c h known devices
        → StandsStill text c h known (with_device (log_named (other_log (active_by known))) new devices) }
    ensures publishing { (text : List ℕ) (c : CatalogueState) (h : List ATxn) (known : KnownStore) (devices : ADevices DiskHistory) (held : Tables) (new : DiskHistory) → StandsStill text c h known devices
        → IsReadyFor text c h known held → HasBegun text c known devices
        → LeavesOnly (IsShutOrNew (published_bytes text c held known)) (device_at (slot_named (spare_by known)) devices) new
        → RunLeaves (SwitchesByGate text c h held known) devices (with_device (slot_named (spare_by known)) new devices) }
    ensures published { (text : List ℕ) (c : CatalogueState) (h : List ATxn) (known : KnownStore) (devices : ADevices DiskHistory) (held : Tables) (new : DiskHistory) → StandsStill text c h known devices
        → IsReadyFor text c h known held → HasBegun text c known devices
        → OneImage (IsOpen [] (published_bytes text c held known)) new.now → StandsStill text c h (published_by text known) (with_device (slot_named (spare_by known)) new devices) }
    ensures still { (text : List ℕ) (c : CatalogueState) (h : List ATxn) (known : KnownStore) (devices : ADevices DiskHistory) → StandsStill text c h known devices → AllLeave (KeepsBy (active_by known) text c h known) devices }
{}

/// After a checkpoint is published, it is the newest one, the other device is active, and no two open slots have one number.
pub fn the_published_is_the_newest()
    ensures newest { (text : List ℕ) (known : KnownStore) → IsAbove (newest_among known.a known.b) (last_number text known)
        → newest_among (published_by text known).a (published_by text known).b ≡ Some (info_with (spare_by known) (published_head text known)) }
    ensures active { (text : List ℕ) (known : KnownStore) → IsAbove (newest_among known.a known.b) (last_number text known) → active_by (published_by text known) ≡ other_log (active_by known) }
    ensures differ { (text : List ℕ) (known : KnownStore) (g h : AHead) → IsAbove (newest_among known.a known.b) (last_number text known)
        → (published_by text known).a ≡ SlotState.Open g → (published_by text known).b ≡ SlotState.Open h → g.txns ≢ h.txns }
{}

/// The device and the base of the active segment tell whether it is another one: whatever checkpoints are published, at least one,
/// not both are as before. And where both are, its transactions are those from before and more; who has the tables of a prefix of
/// the history that reaches into the segment goes on with those after it.
pub fn a_segment_is_known()
    ensures possible { (text : List ℕ) (c : CatalogueState) (h : List ATxn) (least : ℕ) (images : Images) (is : StandsFor text c h least images) → IsPossible (segment_by is.a is.b (base_in is.form)) }
    ensures changes { (segment : ASegment) (first : ℕ) (numbers : List ℕ) → IsPossible segment → CanBePublished (first ∷ numbers) segment
        → (after_each (first ∷ numbers) segment).name ≡ segment.name → ¬ ((after_each (first ∷ numbers) segment).base ≡ segment.base) }
    ensures grows { (text : List ℕ) (c : CatalogueState) (h more : List ATxn) (k l : ℕ) (i j : Images) (is : StandsFor text c h k i) (after : StandsFor text c (h ++ more) l j)
        → base_in is.form ≡ base_in after.form → length (all_txns is.batches) ≤ length (all_txns after.batches)
        → all_txns after.batches ≡ all_txns is.batches ++ drop (length (all_txns is.batches)) (all_txns after.batches) }
    ensures follows { (text : List ℕ) (c : CatalogueState) (h : List ATxn) (least : ℕ) (images : Images) (is : StandsFor text c h least images) (number : ℕ) (tables : Tables)
        → base_in is.form ≤ number → number ≤ number_after (header_with is.form text) is.batches → EndsWith c (take number h) tables
        → (held : Tables) × (serial c.procs (number + 1) (drop (number - base_in is.form) (all_txns is.batches)) tables ≡ Ok held) × EndsWith c (take (number_after (header_with is.form text) is.batches) h) held }
{}

/// Devices that stand for a history are not refused: nothing of their bytes is the first refusal.
pub fn what_stands_is_not_refused()
    ensures { (text : List ℕ) (c : CatalogueState) (h : List ATxn) (least : ℕ) (images : Images) (refused : Refused) → StandsFor text c h least images → ¬ IsFirstRefusal refused images }
{}
