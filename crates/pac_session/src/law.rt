// What holds of every session. Each law is a function without code.
ghost use Rattle.std.specs.Prelude.{◌≡◌, ◌+◌, ◌++◌, List, Ok, length};
ghost use Rattle.pac_types.specs.Execution.{serial};
ghost use Rattle.pac_request.specs.declared.request.Request.{Request as ARequest};
ghost use Rattle.pac_session.specs.Session.{Rules, SessionState, committed, ends, replies};
ghost use Rattle.pac_session.specs.Groups.{LogSpot, all_replies, cut, described, all_requests};

/// What closings cut off requests, and what is left, are these requests in their order; and the replies of the groups are
/// the first of the session's.
pub fn groups_are_a_cut()
    ensures whole { (rules : Rules) (start : SessionState) (requests : List ARequest) → all_requests (cut rules start requests).closed ++ (cut rules start requests).rest ≡ requests }
    ensures known { (rules : Rules) (spot : LogSpot) (start : SessionState) (groups : List (List ARequest)) → all_replies (described rules spot start groups) ≡ replies rules start (all_requests groups) }
{}

/// Serial execution of what a session commits ends with the session's tables, and the session's number counts it.
pub fn a_session_is_serial()
    ensures serial { (rules : Rules) (start : SessionState) (requests : List ARequest) → serial rules.catalogue.procs (start.number + 1) (committed rules start requests) start.tables ≡ Ok (ends rules start requests).tables }
    ensures counted { (rules : Rules) (start : SessionState) (requests : List ARequest) → (ends rules start requests).number ≡ start.number + length (committed rules start requests) }
{}
