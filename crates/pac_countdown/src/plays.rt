// What a step tells its caller.
ghost use Rattle.std.specs.Prelude.{ℕ, List, []};
ghost use Rattle.pac_countdown.specs.declared.deeds.Agenda.{Agenda};
ghost use Rattle.pac_countdown.specs.Steps.{HasOpened, HasCounted, HasLoaded, after_split, lent_deeds, after_join, spent_deeds};

use crate::deeds::Deeds;
use atomic_table::{Join, Play, Split};
use std::marker::{Brand, PhantomData};

// The agenda and the number of the pass of a call, and the earlier piece of a pair that it counts. Each call picks them.
pub(crate) trait Caller {
    ghost agenda: { Agenda };

    ghost number: { ℕ };

    ghost from: { ℕ };
}

impl Caller for Brand {
    ghost agenda = { record { preds = record { marker = record {}; value = [] }; pieces = 0 } };

    ghost number = { 0 };

    ghost from = { 0 };
}

// The next piece is opened.
pub(crate) struct OpeningPiece<C> {
    call: PhantomData<C>,
}

impl<C: Caller> Play<(), Deeds> for OpeningPiece<C> {
    ghost then = { HasOpened C.agenda C.number };
}

// A pair is counted.
pub(crate) struct CountingPair<C> {
    call: PhantomData<C>,
}

impl<C: Caller> Play<(), Deeds> for CountingPair<C> {
    ghost then = { HasCounted C.agenda C.number C.from };
}

// A word is loaded.
pub(crate) struct LoadingWord<C> {
    call: PhantomData<C>,
}

impl<C: Caller> Play<(), Deeds> for LoadingWord<C> {
    ghost then = { HasLoaded C.agenda C.number };
}

// The pieces that a call lends. Each call picks them.
pub(crate) trait Lending {
    ghost share: { List ℕ };
}

impl Lending for Brand {
    ghost share = { [] };
}

// A pass is split.
pub(crate) struct SplittingPass<C> {
    call: PhantomData<C>,
}

impl<C: Lending> Split<Deeds> for SplittingPass<C> {
    ghost left = { after_split C.share };

    ghost right = { λ _. lent_deeds C.share };
}

// Two passes are joined.
pub(crate) struct JoiningPass;

impl Join<Deeds> for JoiningPass {
    ghost both = { after_join };

    ghost spent = { spent_deeds };
}
