//! Shares: pieces that one worker runs in order, over tables that were moved to it. Definitions and laws alone.
//!
//! A *lane* is some tables, or the rows of some keys of them, and a *share* is a list of pieces that stay in a lane. A replay that lends
//! shares moves the tables of a lane to a worker, which runs the share piece by piece, and moves them back. These laws say when that is
//! the replay of `pac_commute`, in which each piece is finished once what it needs is finished:
//!
//! - [`share`]: a share that runs in order from what is finished is the partial replay of what is finished and the share.
//!   [`share_alone`]: what it does depends on its lane and its variables alone. [`shares_apart`]: shares of disjoint lanes may be
//!   finished in either order. [`bulk`]: whole transactions, piece by piece, are flat execution.
//! - [`share_ready`], [`stays_in`]: which shares may be lent. A *cut* has rounds of transactions, stages of blocks, and groups of keys;
//!   the pieces of a round, a stage and a group are a share, and there is always one that may be lent. [`argument_keys`]: where the key
//!   of a piece is an argument, its group is known when it is loaded.
//! - [`share_steps`]: the finish of a share is a list of steps of the machine of `pac_commute`. [`lent_share`], [`loans`],
//!   [`cut_loans`]: what stands while shares are lent, and what is at home once they came back, whole or in part.
//!
//! ```
//! // a law is a function without code: what it ensures is the law
//! pac_lanes::loans();
//! ```
//!
//! Each law is a definition of `specs/` by the name that its clause has, and speaks of any plan, or of any world of transactions.
#![tactic(auto)]

ghost use Rattle.pac_commute.specs.PlanLaws.{OfPlan, OfWorlds};
ghost use Rattle.pac_lanes.specs.ArgKeys.{CallKey, CallKeys, VariableKeys};
ghost use Rattle.pac_lanes.specs.Bulk.{BulkIsFlat, BulkRuns};
ghost use Rattle.pac_lanes.specs.Finish.{FinishIsSteps, LentHasInputs, LentStays, OpensShares, ReturnIsFinish, SharesEnd, SharesKeep, SharesStayFinished, StepIsSteps};
ghost use Rattle.pac_lanes.specs.Lanes.{PieceSpares, PutBackIsApplied, ShareAlone, ShareLeaves, ShareNotes, SharesApart};
ghost use Rattle.pac_lanes.specs.Loans.{AllAtHome, CutLends, CutLoansApart, HomeEnds, LendKeepsHome, LoadKeepsHome, LoanFits, LoanHasInputs, OpensHome, ReturnFits, ReturnKeepsHome};
ghost use Rattle.pac_lanes.specs.Rounds.{DrainRuns, FirstHasNeeds, RestRuns, RestStays, ShareDone, ShareReady, SomeMayBeLent};
ghost use Rattle.pac_lanes.specs.Shares.{AppliedIsCode, AppliedIsEvery, MayBeParted, PicksThese, ShareIsPartial};
ghost use Rattle.pac_lanes.specs.Stays.{GroupsAreApart, KeyFromArguments, KeyFromInputs, LanesAreDisjoint, OneKeyStays, PlanGivesCut, StaysInGroup, WholeStays};

/// A share that runs in order from what is finished gives, applied piece by piece, the partial replay of what is finished and
/// the share, which holds again what its pieces need. Each piece finds its inputs at its turn. It may be parted anywhere.
pub fn share()
    ensures partial { OfPlan ShareIsPartial }
    ensures picks { PicksThese }
    ensures parted { MayBeParted }
    ensures every { AppliedIsEvery }
    ensures code { AppliedIsCode }
{}

/// What a share does depends on its lane and on the variables of its pieces alone, and it changes nothing else but the least note.
/// So what it made of these where they were moved to, put back, is the share applied.
pub fn share_alone()
    ensures alone { OfWorlds ShareAlone }
    ensures leaves { OfWorlds ShareLeaves }
    ensures notes { OfWorlds ShareNotes }
    ensures put_back { OfWorlds PutBackIsApplied }
{}

/// A piece of another lane leaves a share that is lent as it is, so two shares of disjoint lanes may be finished in either order.
pub fn shares_apart()
    ensures piece { OfWorlds PieceSpares }
    ensures shares { OfPlan SharesApart }
{}

/// Unfinished pieces that hold together run in order, by transaction and block. So do those of a round, a stage and a group, where the
/// stages that lead to it are finished for the round and the group for earlier rounds; and there is always such a share. The first
/// unfinished piece has what it needs, whatever is finished, so what is left may always be run by one alone.
pub fn share_ready()
    ensures rest { OfPlan RestRuns }
    ensures ready { OfPlan ShareReady }
    ensures done { OfPlan ShareDone }
    ensures left { OfPlan RestStays }
    ensures some { OfPlan SomeMayBeLent }
    ensures first { OfPlan FirstHasNeeds }
    ensures drain { OfPlan DrainRuns }
{}

/// A piece stays in the tables of its stage by definition. It stays in a group of keys where all keys that it names are the value of one
/// expression over its inputs, and that value is in the group; its inputs give the value, and so do the arguments where the
/// transaction defines no variable of the expression. So where each piece of a cut stage has one key, and its transaction's group is that
/// key's, pieces of different groups don't conflict and their lanes are disjoint.
pub fn stays_in()
    ensures whole { OfWorlds WholeStays }
    ensures one_key { OfWorlds OneKeyStays }
    ensures inputs { OfWorlds KeyFromInputs }
    ensures arguments { OfPlan KeyFromArguments }
    ensures group { OfWorlds StaysInGroup }
    ensures apart { OfWorlds GroupsAreApart }
    ensures disjoint { LanesAreDisjoint }
    ensures cut { PlanGivesCut }
{}

/// The finish of a share is a list of steps of the machine of pieces, each of which runs a piece that has what it needs. So a machine that
/// loads batches and finishes shares keeps its state the partial replay of what is finished, and ends as the flat form of the transactions does, one after another.
pub fn share_steps()
    ensures finish { FinishIsSteps }
    ensures steps { StepIsSteps }
    ensures opens { OpensShares }
    ensures keeps { SharesKeep }
    ensures stays { SharesStayFinished }
    ensures end { SharesEnd }
{}

/// A share that is lent has its inputs, and stays what it is, whatever is loaded and finished beside it. What its first pieces made of what
/// was lent, put back later, is these pieces finished, and the rest may be lent again.
pub fn lent_share()
    ensures inputs { LentHasInputs }
    ensures stays { LentStays }
    ensures back { ReturnIsFinish }
{}

/// What is at home while shares are lent: all that no loan may change, as it stands once what is finished was applied, and the note. Loading,
/// lending on disjoint lanes, and taking back a share of which the first pieces were run keep it so; and with nothing lent all is at home.
pub fn loans()
    ensures opens { OpensHome }
    ensures load { LoadKeepsHome }
    ensures lend { LendKeepsHome }
    ensures inputs { LoanHasInputs }
    ensures back { ReturnKeepsHome }
    ensures home { AllAtHome }
    ensures ends { HomeEnds }
    ensures fits { LoanFits }
    ensures fits_home { ReturnFits }
{}

/// The unfinished pieces of a round, a stage and a group are a share that may be lent on the lane of the stage and the group; shares of
/// two stages, or of groups of one that don't clash, may be lent at the same time.
pub fn cut_loans()
    ensures lends { CutLends }
    ensures apart { CutLoansApart }
{}

/// Whole transactions, where earlier ones are finished: their pieces run in order, and that is to run their operations through one after another.
pub fn bulk()
    ensures runs { OfPlan BulkRuns }
    ensures flat { OfPlan BulkIsFlat }
{}

/// Whether all keys that a program names in a block are one variable is a test of the plan; then its pieces have that one key, and where
/// the program doesn't define the variable, it is the argument.
pub fn argument_keys()
    ensures test { VariableKeys }
    ensures pieces { CallKeys }
    ensures key { CallKey }
{}
