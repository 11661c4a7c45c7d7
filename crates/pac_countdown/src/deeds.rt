// What a countdown is asked for, and what its passes have done, as contracts see it.
use pac_plan::Preds;
use std::collections::LinkedList;
use std::snapshot::Snapshot;

/// What a pass is to its countdown: the opener's, one that was split from it, or one that was joined to it and has nothing left.
pub enum PassKind {
    Opener,
    Lent,
    Spent,
}

/// What a pass has done: the pieces that it opened, the pairs that it counted, the pieces that it was handed, and how many passes
/// it split off and joined. Only contracts have such values; the program makes none.
pub struct Deeds {
    pub kind: PassKind,
    pub opened: LinkedList<u32>,
    pub counted: LinkedList<(u32, u32)>,
    pub handed: LinkedList<u32>,
    pub splits: u32,
    pub joins: u32,
}

/// What is handed out: this many pieces, with these pairs. Only contracts see the pairs; no copy of them is kept.
#[derive(Drop)]
pub struct Agenda {
    pub preds: Snapshot<Preds>,
    pub pieces: u32,
}
