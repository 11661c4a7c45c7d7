// What holds of every plan. Each law is a function that does nothing.
ghost use Rattle.std.specs.Prelude.{◌≡◌};
ghost use Rattle.pac_plan.specs.Analysis.{IsPlan};
ghost use Rattle.pac_plan.specs.Codes.{ArgumentsAreInputs};
ghost use Rattle.pac_plan.specs.NextPairs.{ClosedByNext, NextPairs};
ghost use Rattle.pac_plan.specs.PieceFits.{AdHocPieces, InputsAreThere, PiecesStayFit};
ghost use Rattle.pac_plan.specs.WellFormed.{KeepsOrder};

use crate::Plan;

/// The parts are those of the analysis.
pub fn is_plan(plan: &Plan)
    ensures { IsPlan plan.now }
{
    let _parts = &plan.parts;
}

/// Programs and tables have one plan: the same blocks, with the same numbers, homes and edges.
pub fn one_plan(plan: &Plan, other: &Plan)
    requires programs { plan.now.programs ≡ other.now.programs }
    requires tables { plan.now.tables ≡ other.now.tables }
    ensures { plan.now ≡ other.now }
{
    is_plan(plan);
    is_plan(other);
}

/// A variable has one definer; flow stays in a block or follows an edge, edges lead to higher numbers, and the operations
/// on a table are in its home.
pub fn keeps_order(plan: &Plan)
    ensures { KeepsOrder plan.now }
{
    is_plan(plan);
}

/// A piece of a call whose inputs are right finds a value of its type for each variable that it uses, at every operation
/// whose conditions hold, and keeps rows fitting. Its inputs are there once the whole program has run. A piece of ad hoc
/// records makes their changes.
pub fn pieces_stay_fit()
    ensures inputs { InputsAreThere }
    ensures pieces { PiecesStayFit }
    ensures adhoc { AdHocPieces }
{}

/// Next pairs of accesses conflict, and accesses that conflict are joined by a chain of next pairs.
pub fn next_pairs()
    ensures chain { NextPairs }
    ensures closed { ClosedByNext }
{}

/// A transaction in a block to which no edge leads has its arguments as inputs, over any rows.
pub fn arguments_are_inputs()
    ensures { ArgumentsAreInputs }
{}
