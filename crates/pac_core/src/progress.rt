// How far a replay is: its batches and sets, and the values that are kept.
ghost use Rattle.std.specs.Prelude.{◌≡◌, ◌↔◌, true, IfOk, IfNone, IfSome, IsTrue, OnOk};
ghost use Rattle.pac_commute.specs.Loads.{Job};
ghost use Rattle.pac_sets.specs.Sets.{IsOpenSet};
ghost use Rattle.pac_core.specs.Links.{IsKeptProgress, KeepsProgress, ReadyFrom, replay_so_far};
ghost use Rattle.pac_core.specs.Moves.{HasNoneReady, IsNextAt, IsOpeningProgress, IsOpeningOf, IsReadyAtOffset, StandsOpen};

use crate::loaded::LoadedBatch;
use crate::opening::open_set;
use crate::stage::{OpenSet, SetStage};
use pac_base::NoMemory;
use pac_keys::PlanCode;
use pac_ops::{Note, PieceId};
use pac_plan::Shared;
use pac_sched::Pick;
use pac_sets::Sets;
use std::alloc::Global;

/// What a core holds beside its rows.
#[derive(Drop)]
pub(crate) struct Progress {
    pub alloc: Global,
    /// The plan, with the code of its pieces.
    pub pieces: Shared<PlanCode>,
    /// Batches in the order in which they were loaded.
    pub batches: Vec<LoadedBatch>,
    /// Their sets.
    pub sets: Sets<SetStage>,
    /// The least note of the pieces that are finished.
    pub note: Option<Note>,
    /// The numbers of the first transaction, and of that after the last one.
    pub first: u64,
    pub next: u64,
    /// How many pieces are not finished.
    pub unfinished: u64,
    /// Whether a piece that may be loaded, or is, weighs anything.
    pub has_weight: bool,
    pub is_closed: bool,
    /// No set before this offset has a ready piece. It is that of the set whose piece came next last, or a lesser one: a ready
    /// piece is looked for from there on, and a piece that is out there first.
    pub recent: usize,
}

impl Progress {
    /// Nothing is loaded. Takes memory for what is known of the plan's blocks.
    ///
    /// # Errors
    ///
    /// [`NoMemory`] where that finds no room.
    pub fn new(alloc: Global, pieces: Shared<PlanCode>, first: u64) -> Result<Progress, NoMemory>
        ensures { IfOk result (IsOpeningProgress pieces first) }
    {
        let sets = Sets::new(alloc, pieces.get().plan())?;
        let has_weight = pieces.get().has_weight();
        Ok(Progress {
            alloc,
            pieces,
            batches: Vec::new(alloc),
            sets,
            note: None,
            first,
            next: first,
            unfinished: 0,
            has_weight,
            is_closed: false,
            recent: 0,
        })
    }

    /// The first ready piece, and the offset of its set. It opens the sets up to that one that may be opened and aren't.
    /// `None`: no piece is ready.
    ///
    /// # Errors
    ///
    /// [`NoMemory`] where a set that is opened finds no room. Others may have been opened.
    pub fn next_ready(&mut self) -> Result<Option<(usize, PieceId)>, NoMemory>
        requires { IsKeptProgress self.old }
        ensures keeps { (job : Job) → KeepsProgress job self.old → KeepsProgress job self.new }
        ensures same { (job : Job) → KeepsProgress job self.old → replay_so_far job self.new ≡ replay_so_far job self.old }
        ensures sees { (job : Job) → KeepsProgress job self.old → ReadyFrom job self.old self.old.recent → ReadyFrom job self.new self.new.recent }
        ensures next { (job : Job) → KeepsProgress job self.old → ReadyFrom job self.old self.old.recent → IfOk result (IsNextAt job self.new) }
    {
        match self.ready_again() {
            Some(piece) => Ok(Some((self.recent, piece))),
            None => self.look_for_ready(),
        }
    }

    // The same, from the set on before which none is ready.
    fn look_for_ready(&mut self) -> Result<Option<(usize, PieceId)>, NoMemory>
        requires { IsKeptProgress self.old }
        ensures keeps { (job : Job) → KeepsProgress job self.old → KeepsProgress job self.new }
        ensures same { (job : Job) → KeepsProgress job self.old → replay_so_far job self.new ≡ replay_so_far job self.old }
        ensures sees { (job : Job) → KeepsProgress job self.old → ReadyFrom job self.old self.old.recent → ReadyFrom job self.new self.new.recent }
        ensures next { (job : Job) → KeepsProgress job self.old → ReadyFrom job self.old self.old.recent → IfOk result (IsNextAt job self.new) }
    {
        let count = self.sets.len();
        let mut from = self.recent;
        while let Some(at) = self.sets.first_open(from) {
            self.open(at)?;
            if let Some(piece) = self.ready_in(at) {
                self.recent = at;
                return Ok(Some((at, piece)));
            }
            from = at + 1;
        }
        Ok(None)
    }

    // The first ready piece of the set from which one was taken last, if that is open still.
    fn ready_again(&self) -> Option<PieceId>
        ensures { IfSome result (IsReadyAtOffset self.now self.now.recent) }
    {
        if self.recent >= self.sets.len() {
            return None;
        }
        if !self.is_open(self.recent) {
            return None;
        }
        self.ready_in(self.recent)
    }

    // Opens the pieces of a set, unless they are.
    fn open(&mut self, at: usize) -> Result<(), NoMemory>
        requires keeps { IsKeptProgress self.old }
        requires open { IsOpenSet self.old.sets.edges self.old.sets.sets at }
        ensures keeps { (job : Job) → KeepsProgress job self.old → KeepsProgress job self.new }
        ensures same { (job : Job) → KeepsProgress job self.old → replay_so_far job self.new ≡ replay_so_far job self.old }
        ensures open { OnOk result (StandsOpen self.new at) }
        ensures recent { self.new.recent ≡ self.old.recent }
    {
        match self.opening_of(at)? {
            Some(opening) => {
                self.sets.keep(at, SetStage::Open(opening));
                Ok(())
            }
            None => Ok(()),
        }
    }

    // The pieces of a set once they are opened. `None`: they are.
    fn opening_of(&self, at: usize) -> Result<Option<OpenSet>, NoMemory>
        requires keeps { IsKeptProgress self.now }
        requires open { IsOpenSet self.now.sets.edges self.now.sets.sets at }
        ensures waiting { IfOk result (λ opening. IfSome opening (IsOpeningOf self.now at)) }
        ensures opened { IfOk result (λ opening. IfNone opening (StandsOpen self.now at)) }
    {
        let (set, kept) = self.sets.get(at);
        let Some(stage) = kept else { unreachable!() };
        match stage {
            SetStage::Waiting(txns) => {
                let loaded = &self.batches[set.batch as usize];
                let opening = open_set(
                    self.alloc,
                    &self.pieces,
                    loaded,
                    set.block,
                    txns.as_slice(),
                )?;
                Ok(Some(opening))
            }
            SetStage::Open(_) => Ok(None),
        }
    }

    // The first ready piece of an open set.
    fn ready_in(&self, at: usize) -> Option<PieceId>
        requires { StandsOpen self.now at }
        ensures found { IfSome result (IsReadyAtOffset self.now at) }
        ensures none { IfNone result (HasNoneReady self.now at) }
    {
        let (_, kept) = self.sets.get(at);
        let Some(stage) = kept else { unreachable!() };
        let SetStage::Open(open) = stage else {
            unreachable!()
        };
        match open.sched.peek() {
            Pick::Piece(piece) => Some(piece),
            Pick::NotReady | Pick::Done => None,
        }
    }

    /// Whether no more batches come and each piece is finished. Takes no memory.
    pub fn is_done(&self) -> bool
        ensures { IsTrue result ↔ ((self.now.is_closed ≡ true) × (self.now.unfinished ≡ 0)) }
    {
        self.is_closed && self.unfinished == 0
    }
}
