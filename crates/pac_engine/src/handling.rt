// Does what one request asks.
ghost use Rattle.std.specs.Prelude.{◌≡◌, ◌≤◌, ◌<◌, ◌≢◌, ◌++◌, ◌∷◌, ◌||◌, [], false, true, length, nat_le, ℕ, IfErr, IfOk, MatchResult, OnErr, OnOk, Some as ASome, None as ANone};
ghost use Rattle.std.specs.List.{AllByRecursion};
ghost use Rattle.pac_outside.specs.Devices.{each, log_at};
ghost use Rattle.pac_types.specs.Fits.{TxnFits};
ghost use Rattle.pac_check.specs.declared.limits.TheConstants.{MAX_SLOT_LEN};
ghost use Rattle.pac_check.specs.SlotStates.{active_of, by_slot, spare_of};
ghost use Rattle.pac_request.specs.declared.request.Request.{Request as ARequest};
ghost use Rattle.pac_request.specs.declared.request.Reply.{Reply as AReply};
ghost use Rattle.pac_request.specs.RequestFits.{RequestFits};
ghost use Rattle.pac_session.specs.Session.{txn_of};
ghost use Rattle.pac_session.specs.Groups.{is_closing, lacks_room, saves_anew};
ghost use Rattle.pac_session.specs.Open.{rules_of, state_now};
ghost use Rattle.pac_engine.specs.Closing.{CountsFault, IsKept, slot_len};
ghost use Rattle.pac_engine.specs.Handled.{IsHandled};
ghost use Rattle.pac_engine.specs.Moves.{IsAsked, IsHeldBy, IsLive, IsWorking, saved_parts};
ghost use Rattle.pac_engine.specs.Standing.{HasDevices, OnlyGrows, KeepsMore, StandsForMore, durable_of, saved_of};
ghost use Rattle.pac_engine.specs.declared.parts.EngineParts.{EngineParts as AParts};

use crate::{EngineCause, EngineFault, EngineParts};
use pac_base::NoMemory;
use pac_outside::{Devices, Disk};
use pac_request::{Replies, Reply, Request};
use pac_session::{Measured, transaction_of};
use std::alloc::Global;

// A fault before which no reply was given out.
fn fault(alloc: Global, cause: EngineCause) -> EngineFault
    ensures replies { result.replies ≡ [] }
    ensures cause { result.cause ≡ cause }
{
    EngineFault {
        replies: Replies::of(Vec::new(alloc)),
        cause,
    }
}

// Whether the request closes the group that it is in.
fn is_closing(request: &Request) -> bool
    ensures { result ≡ is_closing request.now }
{
    matches!(request, Request::Flush | Request::Save | Request::Stop)
}

// The replies, and one more after them.
fn with_reply(replies: Replies, reply: Reply) -> Result<Replies, EngineFault>
    ensures known { IfOk result (λ given. given ≡ replies ++ reply ∷ []) }
    ensures unknown { IfErr result (λ fault. fault.replies ≡ replies) }
    ensures cause { IfErr result (λ fault. fault.cause ≡ EngineCause.NoMemory) }
{
    let mut given = replies.into_items();
    match given.push(reply) {
        Ok(()) => Ok(Replies::of(given)),
        Err(_) => Err(EngineFault {
            replies: Replies::of(given),
            cause: EngineCause::NoMemory,
        }),
    }
}

impl EngineParts {
    // Whether the open group ends after a request, which closes it or doesn't.
    fn ends_group(&self, closing: bool) -> bool
        ensures { result ≡ (closing || nat_le self.now.session.most (length self.now.session.held)) }
    {
        closing || self.session.is_full()
    }

    // Closes the open group after a request, where that closes it or the group is full.
    fn close_after<D: Disk>(
        &mut self,
        alloc: Global,
        closing: bool,
        devices: &mut Devices<D>,
    ) -> Result<Replies, EngineFault>
        requires working { IsWorking self.old }
        requires ready { HasDevices D.known self.old devices.old }
        ensures { (before : AParts) (asked : ARequest) → IsAsked before asked closing self.old → IsHandled D.known D.faults asked before self.new devices.old devices.new result }
    {
        if !self.ends_group(closing) {
            return Ok(Replies::of(Vec::new(alloc)));
        }
        match self.close(devices) {
            Ok(replies) => Ok(replies),
            Err(cause) => Err(fault(alloc, cause)),
        }
    }

    // Executes a transaction in a new group, since the open one has no room for it.
    fn execute_anew<D: Disk>(
        &mut self,
        alloc: Global,
        txn: Measured,
        devices: &mut Devices<D>,
    ) -> Result<Replies, EngineFault>
        requires live { IsLive self.old }
        requires ready { HasDevices D.known self.old devices.old }
        requires fits { TxnFits self.old.session.catalogue txn }
        requires full { lacks_room self.old.session.txns (ASome txn) ≡ true }
        requires alone { lacks_room [] (ASome txn) ≡ false }
        ensures { (asked : ARequest) → txn_of asked ≡ ASome txn → IsHandled D.known D.faults asked self.old self.new devices.old devices.new result }
    {
        let replies = match self.close(devices) {
            Ok(replies) => replies,
            Err(cause) => return Err(fault(alloc, cause)),
        };
        match self.session.run(txn) {
            Ok(()) => Ok(replies),
            Err(NoMemory) => Err(EngineFault {
                replies,
                cause: EngineCause::NoMemory,
            }),
        }
    }

    // Executes a transaction; where the open group has no room for it, that is closed first.
    fn execute<D: Disk>(
        &mut self,
        alloc: Global,
        txn: Measured,
        devices: &mut Devices<D>,
    ) -> Result<Replies, EngineFault>
        requires live { IsLive self.old }
        requires ready { HasDevices D.known self.old devices.old }
        requires fits { TxnFits self.old.session.catalogue txn }
        ensures { (asked : ARequest) → txn_of asked ≡ ASome txn → IsHandled D.known D.faults asked self.old self.new devices.old devices.new result }
    {
        if self.session.lacks_room(&txn) {
            return self.execute_anew(alloc, txn, devices);
        }
        match self.session.run(txn) {
            Ok(()) => self.close_after(alloc, false, devices),
            Err(NoMemory) => Err(fault(alloc, EngineCause::NoMemory)),
        }
    }

    // Answers a request that asks for no transaction and no checkpoint.
    fn answer<D: Disk>(
        &mut self,
        alloc: Global,
        request: Request,
        devices: &mut Devices<D>,
    ) -> Result<Replies, EngineFault>
        requires live { IsLive self.old }
        requires ready { HasDevices D.known self.old devices.old }
        requires fits { RequestFits self.old.session.catalogue request }
        requires none { txn_of request ≡ ANone }
        requires unsaved { request ≢ ARequest.Save }
        ensures { IsHandled D.known D.faults request self.old self.new devices.old devices.new result }
    {
        let closing = is_closing(&request);
        match self.session.answer(request) {
            Ok(()) => self.close_after(alloc, closing, devices),
            Err(NoMemory) => Err(fault(alloc, EngineCause::NoMemory)),
        }
    }

    // Saves a checkpoint after a group that was closed, and says of it after the group's replies.
    fn save_and_report<D: Disk>(
        &mut self,
        alloc: Global,
        replies: Replies,
        devices: &mut Devices<D>,
    ) -> Result<Replies, EngineFault>
        requires working { IsWorking self.old }
        requires none { self.old.session.txns ≡ [] }
        requires held { AllByRecursion (IsHeldBy self.old.log.gate.txns) replies }
        requires ready { HasDevices D.known self.old devices.old }
        ensures saved { OnOk result (self.new ≡ saved_parts self.old) }
        ensures grows { OnlyGrows self.old self.new }
        ensures known { IfOk result (λ given. given ≡ replies ++ AReply.Saved self.old.log.gate.txns ∷ []) }
        ensures unknown { IfErr result (λ fault. fault.replies ≡ replies) }
        ensures kept { IfOk result (λ given. AllByRecursion (IsKept self.new) given) }
        ensures kept_before { IfErr result (λ fault. AllByRecursion (IsKept self.new) fault.replies) }
        ensures ready { OnOk result (HasDevices D.known self.new devices.new) }
        ensures keeps { KeepsMore D.known [] self.old self.new devices.old devices.new }
        ensures stands { OnOk result (StandsForMore D.known [] self.old self.new devices.old devices.new) }
        ensures large { IfErr result (λ fault. (bytes : ℕ) → fault.cause ≡ EngineCause.TooLarge bytes → (saves_anew (saved_of self.old) (durable_of self.old) ≡ true) × (bytes ≡ slot_len (rules_of self.old.session) (state_now self.old.session)) × (MAX_SLOT_LEN < bytes)) }
        ensures writes { IfErr result (λ fault. fault.cause ≡ EngineCause.DiskFault → saves_anew (saved_of self.old) (durable_of self.old) ≡ true) }
        ensures small { saves_anew (saved_of self.old) (durable_of self.old) ≡ true → OnOk result (slot_len (rules_of self.old.session) (state_now self.old.session) ≤ MAX_SLOT_LEN) }
        ensures uncalled { IfErr result (λ fault. (bytes : ℕ) → fault.cause ≡ EngineCause.TooLarge bytes → (self.new ≡ self.old) × (devices.new ≡ devices.old)) }
        ensures active { log_at (active_of self.old.slots) devices.new ≡ log_at (active_of self.old.slots) devices.old }
        ensures newest { by_slot (spare_of self.old.slots) (D.known devices.new.slot_b) (D.known devices.new.slot_a) ≡ by_slot (spare_of self.old.slots) (D.known devices.old.slot_b) (D.known devices.old.slot_a) }
        ensures full { IfErr result (λ fault. (need : ℕ) → ¬ (fault.cause ≡ EngineCause.LogFull need)) }
        ensures goes_on { IfErr result (λ fault. ¬ (fault.cause ≡ EngineCause.Ended)) }
        ensures faults { MatchResult result (λ _. each D.faults devices.new ≡ each D.faults devices.old) (λ fault. CountsFault fault.cause (each D.faults devices.old) (each D.faults devices.new)) }
    {
        match self.save(alloc, devices) {
            Ok(()) => {
                let txns = self.log.gate().txns();
                with_reply(replies, Reply::Saved { txns })
            }
            Err(cause) => Err(EngineFault { replies, cause }),
        }
    }

    // Closes the open group, and saves a checkpoint.
    fn checkpoint<D: Disk>(
        &mut self,
        alloc: Global,
        devices: &mut Devices<D>,
    ) -> Result<Replies, EngineFault>
        requires live { IsLive self.old }
        requires ready { HasDevices D.known self.old devices.old }
        ensures handled { IsHandled D.known D.faults ARequest.Save self.old self.new devices.old devices.new result }
        ensures small { saves_anew (saved_of self.old) (state_now self.old.session).number ≡ true → OnOk result (slot_len (rules_of self.old.session) (state_now self.old.session) ≤ MAX_SLOT_LEN) }
    {
        match self.close(devices) {
            Ok(replies) => self.save_and_report(alloc, replies, devices),
            Err(cause) => Err(fault(alloc, cause)),
        }
    }

    // Does what a request asks.
    pub(crate) fn handle<D: Disk>(
        &mut self,
        alloc: Global,
        request: Request,
        devices: &mut Devices<D>,
    ) -> Result<Replies, EngineFault>
        requires live { IsLive self.old }
        requires ready { HasDevices D.known self.old devices.old }
        requires fits { RequestFits self.old.session.catalogue request }
        ensures handled { IsHandled D.known D.faults request self.old self.new devices.old devices.new result }
        ensures small { request ≡ ARequest.Save → saves_anew (saved_of self.old) (state_now self.old.session).number ≡ true → OnOk result (slot_len (rules_of self.old.session) (state_now self.old.session) ≤ MAX_SLOT_LEN) }
    {
        match transaction_of(request) {
            Ok(txn) => self.execute(alloc, Measured::of(txn), devices),
            Err(Request::Save) => self.checkpoint(alloc, devices),
            Err(other) => self.answer(alloc, other, devices),
        }
    }
}
