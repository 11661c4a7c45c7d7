// What a thread holds of a countdown.
use crate::deeds::Deeds;
use atomic_table::Seat;
use std::marker::Model;

/// What a thread holds of a countdown: the right to take its steps. Its lists take no bytes.
///
/// Contracts see which countdown it is of, its number among the passes of that one, and its [`Deeds`].
#[derive(Drop)]
pub struct Pass {
    pub(crate) seat: Seat<(), Deeds>,
    pub(crate) openings: u32,
    pub(crate) splits: u32,
    pub(crate) joins: u64,
}

impl Model for Pass {
    ghost use Rattle.std.specs.Prelude.{◌≡◌, [], length};
    ghost use Rattle.pac_countdown.specs.Seen.{PassSeen, pass_code};

    ghost Value = { PassSeen };

    ghost coded = { pass_code };

    ghost view = { λ pass. record { countdown = pass.seat.table_id; number = pass.seat.id; deeds = pass.seat.me.0 } };

    ghost invariant = { λ pass. (pass.seat.me.1 ≡ []) × (pass.openings ≡ length pass.seat.me.0.opened)
        × (pass.splits ≡ pass.seat.me.0.splits) × (pass.joins ≡ pass.seat.me.0.joins) };
}

/// The pieces that were handed out, each once. Contracts see their list, which takes no bytes.
#[derive(Drop)]
pub struct Handed {
    pub(crate) seat: Seat<(), Deeds>,
}

impl Model for Handed {
    ghost use Rattle.std.specs.Prelude.{◌≤◌, List, ℕ};
    ghost use Rattle.std.specs.Coded.{coded_ℕ, coded_list};
    ghost use Rattle.pac_countdown.specs.Lists.{times_in};

    ghost Value = { List ℕ };

    ghost coded = { coded_list coded_ℕ };

    ghost view = { λ handed. handed.seat.me.0.handed };

    ghost invariant = { λ handed. (p : ℕ) → times_in p handed.seat.me.0.handed ≤ 1 };
}
