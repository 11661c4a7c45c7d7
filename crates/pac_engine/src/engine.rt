// The engine: what it holds between requests, and one step.
ghost use Rattle.std.specs.Prelude.{◌≡◌, ◌≤◌, ◌==◌, [], false, true, length, ℕ, List, IfErr, IfOk, IsErrAnd, MatchResult, OnErr, OnOk, None as NoTable};
ghost use Rattle.std.specs.List.{AllByRecursion};
ghost use Rattle.pac_outside.specs.Devices.{each};
ghost use Rattle.pac_ops.specs.declared.limits.TheConstants.{MAX_TXNS};
ghost use Rattle.pac_types.specs.Execution.{first_over};
ghost use Rattle.pac_types.specs.Fits.{FitsCatalogue};
ghost use Rattle.pac_log.specs.declared.log.Stage.{Stage};
ghost use Rattle.pac_check.specs.declared.limits.TheConstants.{MAX_SAVED_ROWS, MAX_SLOT_LEN};
ghost use Rattle.pac_check.specs.SlotStates.{active_of, by_slot, newest_of, saved_txns, spare_of};
ghost use Rattle.pac_request.specs.declared.request.Request.{Request as ARequest};
ghost use Rattle.pac_request.specs.RequestFits.{RequestFits};
ghost use Rattle.pac_session.specs.Session.{SessionState, commits};
ghost use Rattle.pac_session.specs.Groups.{cut_one, saves_anew};
ghost use Rattle.pac_session.specs.Open.{IsInGroup, rules_of, state_now};
ghost use Rattle.pac_engine.specs.Closing.{Closes, CountsFault, IsKept, MayEndAfter, StopsAt, is_stop, slot_len};
ghost use Rattle.pac_engine.specs.Handled.{GivesBefore, StopsForRoom};
ghost use Rattle.pac_engine.specs.Standing.{HasDevices, OnlyGrows, KeepsMore, StandsForMore, durable_of, saved_of, spot_of};

use crate::{EngineCause, EngineFault, EngineParts};
use pac_check::Slots;
use pac_log::Log;
use pac_outside::{Devices, Disk};
use pac_request::{Replies, Reply, Request};
use pac_session::Session;
use pac_tables::OrderedRows;
use pac_types::Catalogue;
use pac_value::Value;
use std::alloc::Global;
use std::marker::Model;

/// The serial engine of a store: it executes requests, and answers them in groups, each once it is durable.
#[derive(Drop)]
pub struct Engine {
    alloc: Global,
    parts: EngineParts,
}

impl Model for Engine {
    ghost use Rattle.std.specs.Prelude.{◌≡◌, false};
    ghost use Rattle.pac_engine.specs.declared.parts.EngineParts.{EngineParts};
    ghost use Rattle.pac_engine.specs.contracts.parts.EngineParts as coding;
    ghost use Rattle.pac_engine.specs.Moves.{IsLive};

    ghost Value = { EngineParts };

    ghost coded = { coding.the_row.coded };

    ghost view = { λ engine. engine.parts };

    ghost invariant = { λ engine. engine.parts.ended ≡ false → IsLive engine.parts };
}

// Whether the request ends the engine.
fn is_stop(request: &Request) -> bool
    ensures { result ≡ is_stop request.now }
{
    matches!(request, Request::Stop)
}

impl Engine {
    /// The engine over these tables, a log and slots. A group holds at most `batch` replies, and each table has at most
    /// `limit` rows. Takes no memory.
    #[tactic(auto, using(crate::proofs::MoveLemmas::reach_within))]
    pub fn new(
        alloc: Global,
        catalogue: Catalogue,
        rows: OrderedRows,
        log: Log,
        slots: Slots,
        batch: u32,
        limit: u64,
    ) -> Engine
        requires same { log.gate.catalogue ≡ catalogue }
        requires waits { log.stage ≡ Stage.Waiting }
        requires works { slots.has_failed ≡ false }
        requires saved { saved_txns (newest_of slots) ≤ log.gate.txns }
        requires fits { FitsCatalogue catalogue rows.tables rows.rows }
        requires within { first_over limit (length catalogue.tables) rows.rows ≡ NoTable }
        requires limit { limit ≤ MAX_SAVED_ROWS }
        requires some { 1 ≤ batch }
        requires few { batch ≤ MAX_TXNS }
        ensures session { result.session ≡ record { catalogue = catalogue; limit = limit; most = batch; tables = rows.rows; before = log.gate.txns; txns = []; held = [] } }
        ensures log { result.log ≡ log }
        ensures slots { result.slots ≡ slots }
        ensures goes_on { result.ended ≡ false }
    {
        let before = log.gate().txns();
        let session = Session::new(alloc, catalogue, rows, before, batch, limit);
        Engine {
            alloc,
            parts: EngineParts {
                session,
                log,
                slots,
                ended: false,
            },
        }
    }

    /// The catalogue.
    pub fn catalogue(&self) -> &Catalogue
        ensures value { result.now ≡ self.now.session.catalogue }
        ensures durable { self.now.ended ≡ false → durable_of self.now ≡ self.now.session.before }
    {
        self.parts.session.catalogue()
    }

    /// The replies that the open group holds, first to last: they are given out once it is closed.
    pub fn held(&self) -> &[Reply]
        ensures { result.now ≡ self.now.session.held }
    {
        self.parts.session.held()
    }

    /// A list for the arguments of a call that may be asked next: one with the room of an earlier one, where there is one left.
    pub fn spare_args(&mut self) -> Vec<Value>
        ensures { self.new ≡ self.old }
    {
        self.parts.session.spare_args()
    }

    /// Does what one request asks. A transaction is executed, and where the open group has no room for its entry that is
    /// closed first; the reply is held. The group is closed where it is full then, or the request closes it: its transactions
    /// are committed, and the replies that it held are given out. A save then puts a checkpoint into a slot and goes on in a new
    /// segment of the log, on the other log device; where the newest slot has as many transactions, or more than 2^62 are there, it
    /// calls no device. A stop ends the engine. At each moment a crash leaves devices that stand for the history with what was
    /// durable before.
    ///
    /// # Errors
    ///
    /// A fault has the replies that became durable in this step before it, and ends the engine.
    ///
    /// - [`EngineCause::Ended`] exactly where an earlier step answered a fault, or handled a stop. No device is called.
    /// - [`EngineCause::LogFull`] only where the log's segment would have more than 268,435,456 bytes with a group that is closed.
    /// - [`EngineCause::TooLarge`] only where a slot would have more than 268,435,456 bytes with the checkpoint.
    /// - [`EngineCause::DiskFault`] where a call of a device failed, so only where the count of faults of one rose; no call of
    ///   any comes after it.
    /// - [`EngineCause::NoMemory`] where there was no memory.
    pub fn step<D: Disk>(
        &mut self,
        request: Request,
        devices: &mut Devices<D>,
    ) -> Result<Replies, EngineFault>
        requires fits { RequestFits self.old.session.catalogue request }
        requires ready { self.old.ended ≡ false → HasDevices D.known self.old devices.old }

        // The replies are those of the group that the request closes, if it closes one; of a step that fails, of a group that was
        // closed before.
        ensures closes { (start : SessionState) (group : List ARequest) → IsInGroup start group self.old.session
            → IfOk result (λ given. Closes (rules_of self.old.session) (spot_of self.old) start (cut_one (rules_of self.old.session) start group request) given self.new) }
        ensures stops { self.old.ended ≡ false → (start : SessionState) (group : List ARequest) → IsInGroup start group self.old.session
            → IfErr result (λ fault. StopsAt (rules_of self.old.session) (spot_of self.old) start (cut_one (rules_of self.old.session) start group request).closed fault.replies fault.cause) }
        ensures small { request ≡ ARequest.Save → saves_anew (saved_of self.old) (state_now self.old.session).number ≡ true → OnOk result (slot_len (rules_of self.old.session) (state_now self.old.session) ≤ MAX_SLOT_LEN) }
        ensures same { OnOk result (rules_of self.new.session ≡ rules_of self.old.session) }

        // What they report is durable, and stays so; what is durable are the transactions of the groups that were closed.
        ensures grows { OnlyGrows self.old self.new }
        ensures kept { IfOk result (λ given. AllByRecursion (IsKept self.new) given) }
        ensures kept_before { IfErr result (λ fault. AllByRecursion (IsKept self.new) fault.replies) }
        ensures durable { OnOk result (durable_of self.new ≡ self.new.session.before) }

        // Where a device failed only a save returns replies, those of the group before it.
        ensures given { IfErr result (λ fault. fault.cause ≡ EngineCause.DiskFault → GivesBefore request self.old.session fault.replies) }

        // Only a save calls a slot, and never the newest.
        ensures slots { ¬ (request ≡ ARequest.Save) → (devices.new.slot_a ≡ devices.old.slot_a) × (devices.new.slot_b ≡ devices.old.slot_b) }
        ensures newest { by_slot (spare_of self.old.slots) (D.known devices.new.slot_b) (D.known devices.new.slot_a) ≡ by_slot (spare_of self.old.slots) (D.known devices.old.slot_b) (D.known devices.old.slot_a) }

        // What has no room is not begun: no device is called for it, and what was durable before is all that is.
        ensures room { IfErr result (λ fault. StopsForRoom D.known request fault.cause self.old self.new devices.old devices.new) }

        // Where a device failed, each image of the segment that was active ends where it ended, or after the group that the request
        // closes.
        ensures torn { IfErr result (λ fault. fault.cause ≡ EngineCause.DiskFault → (start : SessionState) (group : List ARequest) → IsInGroup start group self.old.session
            → MayEndAfter (active_of self.old.slots) (rules_of self.old.session) (spot_of self.old) start (cut_one (rules_of self.old.session) start group request).closed self.old.log.gate (each D.known devices.new)) }

        // The devices stand for the history at each moment, and the engine stands for it with the transactions of the request.
        ensures ready { OnOk result (HasDevices D.known self.new devices.new) }
        ensures keeps { self.old.ended ≡ false → KeepsMore D.known (commits (rules_of self.old.session) (state_now self.old.session) request) self.old self.new devices.old devices.new }
        ensures stands { OnOk result (StandsForMore D.known (commits (rules_of self.old.session) (state_now self.old.session) request) self.old self.new devices.old devices.new) }

        // It ends with a fault or a stop, and then no device is called.
        ensures over { self.old.ended ≡ true → IsErrAnd result (λ fault. (fault.cause ≡ EngineCause.Ended) × (fault.replies ≡ [])) × (self.new ≡ self.old) × (devices.new ≡ devices.old) }
        ensures goes_on { self.old.ended ≡ false → IfErr result (λ fault. ¬ (fault.cause ≡ EngineCause.Ended)) }
        ensures ended { OnErr result (self.new.ended ≡ true) }
        ensures stopped { OnOk result (self.new.ended ≡ is_stop request) }

        // No call of a device comes after one that failed.
        ensures faults { MatchResult result (λ _. each D.faults devices.new ≡ each D.faults devices.old) (λ fault. CountsFault fault.cause (each D.faults devices.old) (each D.faults devices.new)) }
    {
        if self.parts.ended {
            return Err(EngineFault {
                replies: Replies::of(Vec::new(self.alloc)),
                cause: EngineCause::Ended,
            });
        }
        let stops = is_stop(&request);
        match self.parts.handle(self.alloc, request, devices) {
            Ok(given) => {
                self.parts.ended = stops;
                Ok(given)
            }
            Err(fault) => {
                self.parts.ended = true;
                Err(fault)
            }
        }
    }
}
