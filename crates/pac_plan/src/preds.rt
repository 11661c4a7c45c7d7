// Which items of a list have to wait for which.
ghost use Rattle.std.specs.Prelude.{◌≡◌};
ghost use Rattle.pac_plan.specs.Pairs.{AreEarlierLater};

use std::marker::Model;

/// Pairs of positions in a list, an earlier one and a later one that has to wait for it. Contracts see the list of pairs.
#[derive(Drop)]
pub struct Preds {
    pairs: Vec<(u32, u32)>,
}

impl Model for Preds {
    ghost use Rattle.std.specs.Prelude.{List, ℕ};
    ghost use Rattle.std.specs.Coded.{coded×, coded_ℕ, coded_list};
    ghost use Rattle.pac_plan.specs.Pairs.{AreEarlierLater};

    ghost Value = { List (ℕ × ℕ) };

    ghost coded = { coded_list (coded× coded_ℕ coded_ℕ) };

    ghost view = { λ preds. preds.pairs.items };

    ghost invariant = { λ preds. AreEarlierLater preds.pairs.items };
}

impl Preds {
    /// The pairs, each of an earlier and a later position. Takes no memory.
    pub fn new(pairs: Vec<(u32, u32)>) -> Preds
        requires { AreEarlierLater pairs.items }
        ensures { result ≡ pairs.items }
    {
        Preds { pairs }
    }

    /// The pairs.
    pub fn pairs(&self) -> &[(u32, u32)]
        ensures value { result.now ≡ self.now }
        ensures order { AreEarlierLater self.now }
    {
        &self.pairs
    }
}
