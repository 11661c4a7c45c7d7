// What steps come to, one after another. Each law is a function without code.
ghost use Rattle.std.specs.Prelude.{◌≡◌, ◌++◌, [], ℕ, List, Option, take};
ghost use Rattle.pac_ops.specs.declared.transaction.Txn.{Txn as ATxn};
ghost use Rattle.pac_outside.specs.Devices.{WhileAllKnown};
ghost use Rattle.pac_outside.specs.Disk.{DiskHistory};
ghost use Rattle.pac_outside.specs.Parts.{reads_of};
ghost use Rattle.pac_outside.specs.declared.devices.Devices.{Devices as ADevices};
ghost use Rattle.pac_request.specs.declared.request.Request.{Request as ARequest};
ghost use Rattle.pac_request.specs.declared.request.Reply.{Reply as AReply};
ghost use Rattle.pac_store.specs.Stands.{StandsFor};
ghost use Rattle.pac_session.specs.Session.{Rules, SessionState, ends};
ghost use Rattle.pac_session.specs.Groups.{GroupCut, LogSpot, all_requests, cut_on, cut_one};
ghost use Rattle.pac_session.specs.Open.{rules_of, state_now};
ghost use Rattle.pac_engine.specs.Closing.{Closes, StopsAt};
ghost use Rattle.pac_engine.specs.Standing.{IsOpenedOn, KeepsHistory, OnlyGrows, StandsOn, spot_of};
ghost use Rattle.pac_engine.specs.declared.fault.EngineCause.{EngineCause as ACause};
ghost use Rattle.pac_engine.specs.declared.parts.EngineParts.{EngineParts as AParts};

/// An engine that begins has closed no group. Where it has closed the groups of some requests, and a step closes those of one
/// request more, it has closed the groups of all of them; and where that step stops, it stops at one of all the groups.
pub fn steps_are_the_session()
    ensures begins { (engine : AParts) → engine.session.txns ≡ [] → engine.session.held ≡ [] → Closes (rules_of engine.session) (spot_of engine) (state_now engine.session) (record { closed = []; rest = [] }) [] engine }
    ensures closes { (rules : Rules) (spot : LogSpot) (start : SessionState) (whole : GroupCut) (asked : ARequest) (given more : List AReply) (old new : AParts) → Closes rules spot start whole given old
        → Closes rules (spot_of old) (ends rules start (all_requests whole.closed)) (cut_one rules (ends rules start (all_requests whole.closed)) whole.rest asked) more new
        → Closes rules spot start (cut_on rules start whole asked) (given ++ more) new }
    ensures stops { (rules : Rules) (spot : LogSpot) (start : SessionState) (whole : GroupCut) (asked : ARequest) (given more : List AReply) (old : AParts) (cause : ACause) → Closes rules spot start whole given old
        → StopsAt rules (spot_of old) (ends rules start (all_requests whole.closed)) (cut_one rules (ends rules start (all_requests whole.closed)) whole.rest asked).closed more cause
        → StopsAt rules spot start (cut_on rules start whole asked).closed (given ++ more) cause }
{}

/// An engine that stands for a history, and keeps it with some transactions after it, in one step, and then with more of them
/// in the next, keeps it with all of them in both.
pub fn steps_keep_the_history()
    ensures keeps { (text : List ℕ) (history more last : List ATxn) (first next end : AParts) (old middle new : ADevices (Option DiskHistory)) → rules_of next.session ≡ rules_of first.session → OnlyGrows first next
        → WhileAllKnown (StandsOn text history first) (KeepsHistory text (history ++ more) first next) old middle
        → WhileAllKnown (StandsOn text history first) (λ was is. StandsOn text (history ++ more) next is) old middle
        → WhileAllKnown (StandsOn text (history ++ more) next) (KeepsHistory text ((history ++ more) ++ last) next end) middle new
        → WhileAllKnown (StandsOn text history first) (KeepsHistory text (history ++ (more ++ last)) first end) old new }
    ensures stands { (text : List ℕ) (history more last : List ATxn) (first next end : AParts) (old middle new : ADevices (Option DiskHistory))
        → WhileAllKnown (StandsOn text history first) (λ was is. StandsOn text (history ++ more) next is) old middle
        → WhileAllKnown (StandsOn text (history ++ more) next) (λ was is. StandsOn text ((history ++ more) ++ last) end is) middle new
        → WhileAllKnown (StandsOn text history first) (λ was is. StandsOn text (history ++ (more ++ last)) end is) old new }
{}

/// An engine that is opened over devices that stand for a history stands for its first transactions, up to the last that the log has.
pub fn an_opened_engine_stands()
    ensures { (text : List ℕ) (history : List ATxn) (least : ℕ) (engine : AParts) (devices : ADevices DiskHistory) → StandsFor text engine.session.catalogue history least (reads_of devices)
        → IsOpenedOn history engine devices
        → StandsOn text (take engine.log.gate.txns history) engine devices }
{}
