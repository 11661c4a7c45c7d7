// Laws over whole runs. Each is a function without code.
ghost use Rattle.std.specs.Prelude.{◌≡◌, ◌≤◌, ℕ, List, length, Some};
ghost use Rattle.pac_ops.specs.declared.transaction.Txn.{Txn as ATxn};
ghost use Rattle.pac_outside.specs.Devices.{AreImages, all_known};
ghost use Rattle.pac_outside.specs.Disk.{DiskHistory};
ghost use Rattle.pac_outside.specs.Parts.{reads_of};
ghost use Rattle.pac_outside.specs.declared.devices.Devices.{Devices as ADevices};
ghost use Rattle.pac_types.specs.Typing.{CatalogueState};
ghost use Rattle.pac_run.specs.Opening.{AllStand};
ghost use Rattle.pac_main.specs.Headline.{AreAsLeft, AreFound, AreRuns, HoldImages, IsRunThat, KeepsAll, Life, OneRun, RecoversExactly};
ghost use Rattle.pac_main.specs.Histories.{StandsForNone};
ghost use Rattle.pac_main.specs.Init.{InitEnds};
ghost use Rattle.pac_main.specs.Lay.{IsLaidDumpOf, IsLaidInLimit};
ghost use Rattle.pac_main.specs.Record.{IsLogOf};
ghost use Rattle.pac_main.specs.Recover.{Recovery, RecoversPrefix};
ghost use Rattle.pac_main.specs.Replay.{IsDumpOf};
ghost use Rattle.pac_main.specs.Run.{RunEnds};
ghost use Rattle.pac_main.specs.Streams.{Observed, ObservedDevices};
ghost use Rattle.pac_run.specs.declared.limits.TheConstants.{MAX_INPUT};

/// **Recovery is exact.** A store was made; any runs went over it, one after another, each begun on what a crash or a kill left of
/// the one before, at whatever moment it stopped; and then a recovery ended. It has written the dump of the tables that serial
/// execution gives, in commit order, for a prefix of the committed transactions that holds every acknowledged one; or it names an
/// outside fault that rose, a table over the row limit, or that it ran out of memory.
///
/// The parts of a [`Life`](../specs/Headline.antt) are what the clauses of [`pacman`](crate::pacman) say: an `init` that answers 0
/// makes a store by [`a_new_store_stands_for_none`], a `run` is a run of a life by [`a_run_is_of_a_life`], and `RecoverEnds.is` is
/// the recovery.
pub fn recovery_is_exact()
    ensures { (life : Life) → RecoversExactly life }
{}

/// The store that `init` makes of a text stands for no transactions, whatever a crash leaves of it.
pub fn a_new_store_stands_for_none()
    ensures { (text : List ℕ) (input errors : Observed) (devices : ObservedDevices) (entry exit : ADevices DiskHistory) → InitEnds 0 input errors devices
        → input.before ≡ Some text → all_known devices.before ≡ Some entry → all_known devices.after ≡ Some exit → (catalogue : CatalogueState) × StandsForNone text catalogue exit }
{}

/// What [`pacman`](crate::pacman) says of a `run` makes it a run of a store's life, where the histories of its devices are known.
pub fn a_run_is_of_a_life()
    ensures { (group_size limit status : ℕ) (input output errors : Observed) (devices : ObservedDevices) (entry exit : ADevices DiskHistory)
        → (ends : RunEnds group_size limit status input output errors devices) → all_known devices.before ≡ Some entry → all_known devices.after ≡ Some exit
        → (run : OneRun) × IsRunThat ends entry exit run }
{}

/// Any number of runs, one after another, on a store that stands for a history, as a new one does for none. What the last of
/// them leaves stands for the transactions that are committed then, in the order of their numbers, with each that an output
/// acknowledged.
pub fn runs_keep_what_is_acknowledged()
    ensures { (text : List ℕ) (catalogue : CatalogueState) (history : List ATxn) (least : ℕ) (first left : ADevices DiskHistory) (runs : List OneRun) → AllStand text catalogue history least first → AreRuns first runs left → KeepsAll text catalogue history least runs left }
{}

/// `recover` on devices that stand for a history, however they were left, gives a prefix of it with at least as many
/// transactions as they stand for; or it names a fault that rose, a table over the limit of rows, or that it is out of memory.
pub fn recover_gives_what_is_acknowledged()
    ensures { (text : List ℕ) (catalogue : CatalogueState) (history : List ATxn) (least : ℕ) (left : ADevices DiskHistory) → AllStand text catalogue history least left
        → (limit status : ℕ) (devices : ObservedDevices) (output : Observed) (found : ADevices DiskHistory) → all_known devices.before ≡ Some found → AreFound left found → Recovery limit status devices output
        → RecoversPrefix limit status catalogue history least devices output }
{}

/// A power cut leaves one image of each device, and nothing that isn't synced; a killed process leaves each device in its
/// state, where what a read gives is one of its images. Both leave the devices as runs are begun on them.
pub fn cuts_and_kills_are_found()
    ensures cut { (left found : ADevices DiskHistory) (images : ADevices (List ℕ)) → AreImages left images → HoldImages images found → AreFound left found }
    ensures kill { (left found : ADevices DiskHistory) → AreImages left (reads_of left) → AreAsLeft left found → AreFound left found }
{}

/// The two logs give the same tables. What `replay --images` writes of a script, where it has at most 67,108,864 bytes, is a log
/// whose tables are within the limit of rows, which [`pacman`](crate::pacman)'s `lay` lays; and the dump that `lay` writes of
/// it is the one that `replay` writes of the script.
pub fn a_log_gives_the_dump_of_its_script()
    ensures laid { (limit : ℕ) (text log : List ℕ) → IsLogOf limit (Some text) (λ written. written ≡ log) → length log ≤ MAX_INPUT → IsLaidInLimit limit log }
    ensures same { (limit : ℕ) (text log laid replayed : List ℕ) → IsLogOf limit (Some text) (λ written. written ≡ log)
        → IsLaidDumpOf limit (Some log) (λ written. written ≡ laid) → IsDumpOf limit (Some text) (λ written. written ≡ replayed) → laid ≡ replayed }
{}
