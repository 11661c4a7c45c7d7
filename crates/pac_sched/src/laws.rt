// What holds of all schedules and calls. Functions without code.
ghost use Rattle.pac_sched.specs.Calls.{FinishesForGood, HandsOutOnce, HandsOutReady};
ghost use Rattle.pac_sched.specs.Picks.{DoneExactly, NotReadyExactly, PicksFirst, ReadyByPairs};

/// A piece is handed out only while it is neither out nor finished, and after all that it waits for were finished. It is handed
/// out again only after it was given back or reclaimed, and never once it is finished.
pub fn pieces_come_once()
    ensures ready { HandsOutReady }
    ensures once { HandsOutOnce }
    ensures finished { FinishesForGood }
{}

/// A take hands out the first ready piece. It answers that none is ready exactly where none is and some piece isn't finished, and
/// that all is done exactly where all pieces are finished. A piece is ready exactly where it is neither out nor finished, and each
/// piece that it waits for is finished.
pub fn takes_are_exact()
    ensures pairs { ReadyByPairs }
    ensures first { PicksFirst }
    ensures not_ready { NotReadyExactly }
    ensures done { DoneExactly }
{}
