// Few bytes in an array.
ghost use Rattle.std.specs.Prelude.{◌≡◌, ◌≤◌, ◌↔◌, nat_eq, IsSome, IfSome, Some, length};
ghost use Rattle.std.specs.Cmp.{partial_equiv_from_equiv};
ghost use Rattle.std.specs.Cmp.Lexicographic.{pointwise, slice_cmp, nat_list_eq_equiv, nat_list_cmp_total, texts_ties, texts_po};
ghost use Rattle.std.specs.Cmp.Rules.{hashing};
ghost use Rattle.std.specs.Ordering.{nat_cmp};
ghost use Rattle.std.proofs.Common.{rules, refl};

use std::cmp::Ordering;
use std::hash::{Hash, Hasher};
use std::marker::Model;

/// At most `N` bytes, which stand in the value itself. They are ordered byte by byte, a proper prefix first.
#[derive(Clone, Copy, Debug)]
pub(crate) struct Padded<const N: usize> {
    room: [u8; N],
    len: usize,
}

impl<const N: usize> Model for Padded<N> {
    ghost use Rattle.std.specs.Prelude.{ℕ, List, length, take};
    ghost use Rattle.pac_value.specs.Padded.{IsPadded, padded};
    ghost use Rattle.pac_value.specs.PaddedLemmas.{padded-take, length-prefix};

    ghost Value = { List ℕ };

    ghost view = { λ p. take p.len p.room };

    ghost invariant = { λ p. IsPadded N p.room p.len };

    ghost inverse = { λ bytes. record { room = padded N bytes; len = length bytes } };

    ghost inverse_ok = { λ p is i. record {
      room = padded-take N p.room p.len is i;
      len = length-prefix N p.room p.len is i;
    } };
}

impl<const N: usize> Padded<N> {
    /// These bytes. `None`: there are more than `N`.
    pub fn from_bytes(bytes: &[u8]) -> Option<Padded<N>>
        ensures fits { IsSome result ↔ (length bytes.now ≤ N) }
        ensures value { IfSome result (λ padded. padded ≡ bytes.now) }
    {
        if bytes.len() > N {
            return None;
        }
        let mut room = [0; N];
        room[..bytes.len()].copy_from_slice(bytes);
        Some(Padded {
            room,
            len: bytes.len(),
        })
    }

    /// The bytes, in order.
    pub fn bytes(&self) -> &[u8]
        ensures bytes { result.now ≡ self.now }
        ensures short { length self.now ≤ N }
    {
        &self.room[..self.len]
    }
}

impl<const N: usize> PartialEq for Padded<N> {
    ghost eq = { pointwise nat_eq };

    ghost laws = { partial_equiv_from_equiv nat_list_eq_equiv };

    fn eq(&self, other: &Padded<N>) -> bool {
        self.bytes() == other.bytes()
    }
}

impl<const N: usize> Eq for Padded<N> {
    ghost laws = { nat_list_eq_equiv };
}

impl<const N: usize> PartialOrd for Padded<N> {
    ghost partial_cmp = { λ a b. Some (slice_cmp nat_cmp a b) };

    ghost laws = { texts_po };

    fn partial_cmp(&self, other: &Padded<N>) -> Option<Ordering> {
        Some(self.cmp(other))
    }
}

impl<const N: usize> Ord for Padded<N> {
    ghost cmp = { slice_cmp nat_cmp };

    ghost total = { nat_list_cmp_total };

    ghost matches_partial_cmp = { λ a b. refl };

    ghost matches_eq = { texts_ties };

    fn cmp(&self, other: &Padded<N>) -> Ordering {
        self.bytes().cmp(other.bytes())
    }
}

impl<const N: usize> Hash for Padded<N> {
    ghost use Rattle.std.specs.Prelude.{[], ◌∷◌};

    ghost hash_input = { λ padded. padded ∷ [] };

    ghost respects_eq = { Prim.search (hashing, rules) };

    // All bytes at once, which takes fewer calls than one by one.
    fn hash<H: Hasher>(&self, state: &mut H) {
        state.write(self.bytes());
    }
}
