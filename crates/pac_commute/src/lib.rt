//! Pieces may change places: what a replay leaves that takes them in another order.
//!
//! A transaction is cut into pieces, one for each block that has operations of it. A replay takes pieces in any order that
//! the precedence of pieces allows, and has to end with what the transactions leave one after another. The argument, law by
//! law:
//!
//! 1. [`work`]: what a piece does depends on its inputs and on the rows of its access alone, and changes nothing but what it
//!    writes. So it may run on copies: what it made of them, put into the state, is the piece applied.
//! 2. [`two_pieces`]: two pieces of which neither touches what the other writes change places.
//! 3. [`inside_one_transaction`]: so the pieces of one transaction, block by block, give what its operations give in their
//!    order.
//! 4. [`exchange_by_needs`]: in a partial replay, which holds some pieces and what each of them needs, a piece that has what
//!    it needs may come last. Its inputs are known before, each piece finds its own at its turn, and no other such piece
//!    disturbs it.
//! 5. [`exchange`]: the same for a piece whose predecessors are all in, since precedence asks for more than needs do.
//! 6. [`machine`]: so each step of a replay keeps its state the partial replay of what is finished, and the loading of more
//!    transactions changes nothing of that. A step may take a piece by any readiness that asks for no less than what the piece
//!    needs; steps by precedence keep the order of precedence too.
//! 7. [`hand_out`]: with nothing out and something unfinished a piece is ready, so a replay never sticks. Pieces that are out
//!    don't conflict, and work that is out stays as it was, whatever others finish.
//! 8. [`end`]: when all pieces are in, the state is that of the whole replay: the tables and notes of the transactions' meaning
//!    one after another.
//!
//! Each law is a function that does nothing, whose clauses are definitions of `specs/`. They hold for every plan and for
//! every list of batches whose numbers run on and whose transactions fit the plan; [`batches_run_on`] says what running on
//! gives. The terms for pieces are defined in `pac_plan`, those for operations in `pac_ops`.
#![tactic(auto)]

ghost use Rattle.pac_commute.specs.Exchange.{End, Exchange, ExchangeByNeeds, InputsAtTurns, InputsKnown, Undisturbed};
ghost use Rattle.pac_commute.specs.HandOut.{Fine, Hands, TwoPieces};
ghost use Rattle.pac_commute.specs.Loads.{LoadsKeep};
ghost use Rattle.pac_commute.specs.Machine.{HaveInputs, MachineEnds, MachineFits, OpensJob, OrderedSteps, OutsApart, OutsUnordered, ReadyMayBeTaken, RunsKeep, StepsKeep, StepsKeepOrder, WorkStays};
ghost use Rattle.pac_commute.specs.PartialFits.{PartialStaysFit};
ghost use Rattle.pac_commute.specs.PlanLaws.{BlocksGiveTxn, BlocksInOrder, EndsAsReplayed, NumbersTied, OfPlan, OfWorlds, WholeReplay};
ghost use Rattle.pac_commute.specs.Works.{Fresh, WithinAccess, WorkIsApply};

/// Where the numbers of batches run on, each transaction stands under its number in the list of all, and its batch is the
/// one that holds it.
pub fn batches_run_on()
    ensures { NumbersTied }
{}

/// What a piece does and notes depends on its inputs and the rows of its access alone. Work on copies of these, put back, is
/// the piece applied. A piece that isn't in has given nothing.
pub fn work()
    ensures within { OfWorlds WithinAccess }
    ensures apply { OfWorlds WorkIsApply }
    ensures fresh { OfPlan Fresh }
{}

/// Two pieces change places where both their transactions and their blocks differ, where they are of one transaction with no
/// edge between their blocks, or where they are of one block, their accesses don't conflict and their inputs are there.
pub fn two_pieces()
    ensures { OfWorlds TwoPieces }
{}

/// The pieces of one transaction in the order of blocks give what its operations give in their order: what the transaction
/// means, where it begins with its arguments.
pub fn inside_one_transaction()
    ensures blocks { OfPlan BlocksInOrder }
    ensures meaning { BlocksGiveTxn }
{}

/// A piece that has what it needs may be applied next. Its inputs are known before, and no other such piece disturbs it. Each
/// piece that was applied found its inputs at its turn.
pub fn exchange_by_needs()
    ensures needs { OfPlan ExchangeByNeeds }
    ensures inputs { OfPlan InputsKnown }
    ensures turns { OfPlan InputsAtTurns }
    ensures undisturbed { OfPlan Undisturbed }
{}

/// A piece whose predecessors have all been applied may be applied next.
pub fn exchange()
    ensures { OfPlan Exchange }
{}

/// A machine with nothing loaded keeps what is said of machines, and so does each step and each list of steps, whatever
/// readiness takes pieces, as long as what they need is finished: its state is the partial replay of what is finished. What is
/// ready by precedence may be taken so; such steps keep the order of precedence too. Loading more leaves what was loaded as it
/// was. Each partial replay that holds what its pieces need keeps rows and variables fitting, and so does the machine, where
/// its opening tables fit.
pub fn machine()
    ensures opens { OpensJob }
    ensures steps { StepsKeep }
    ensures runs { RunsKeep }
    ensures ready { ReadyMayBeTaken }
    ensures ordered { OrderedSteps }
    ensures order { StepsKeepOrder }
    ensures loads { LoadsKeep }
    ensures fits { PartialStaysFit }
    ensures stays_fit { MachineFits }
{}

/// With nothing out and something unfinished a piece is ready. What readiness without barriers asks for, precedence asks for
/// too. Of two pieces that are out neither needs the other, nor precedes it where precedence hands out, and their accesses
/// don't conflict; each has its inputs. As long as a piece is out its work is what it was, whatever steps are made meanwhile.
pub fn hand_out()
    ensures ready { OfWorlds Hands }
    ensures fine { OfWorlds Fine }
    ensures apart { OutsApart }
    ensures unordered { OutsUnordered }
    ensures inputs { HaveInputs }
    ensures undisturbed { WorkStays }
{}

/// When every piece has been applied, the state is that of the whole replay: the tables that the transactions leave one after
/// another, and their first note. So does a machine end whose pieces are all finished.
pub fn end()
    ensures all { OfPlan End }
    ensures whole { WholeReplay }
    ensures replayed { EndsAsReplayed }
    ensures machine { MachineEnds }
{}
