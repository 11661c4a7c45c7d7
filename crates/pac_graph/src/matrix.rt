// A square matrix of bits.
ghost use Rattle.std.specs.Prelude.{◌≡◌, ◌⊎◌, ◌↔◌, ℕ, ◌+◌, ◌*◌, ◌/◌, ◌<◌, ◌≤◌, vec_len, IfOk, MatchOption};
ghost use Rattle.std.specs.Int.{bit_at};

use pac_base::NoMemory;
use std::alloc::Global;

// A row of words for each node, so wide that it has a bit for each. Bit b of the row of a is that of the pair (a, b).
#[derive(Drop)]
pub(crate) struct Matrix {
    nodes: usize,
    width: usize,
    words: Vec<u64>,
    ghost few: { nodes ≤ 4160 },
    ghost wide: { nodes ≤ 64 * width },
    ghost narrow: { width ≤ 65 },
    ghost rows: { vec_len words ≡ nodes * width },
}

impl Matrix {
    ghost use Rattle.pac_graph.specs.Matrix.{HasBit};

    // With no bit set.
    pub(crate) fn new(alloc: Global, nodes: usize) -> Result<Matrix, NoMemory>
        requires { nodes ≤ 4160 }
        ensures nodes { IfOk result (λ matrix. matrix.nodes ≡ nodes) }
        ensures empty { IfOk result (λ matrix. (a b : ℕ) → HasBit matrix a b → ⊥) }
    {
        let width = nodes.div_ceil(64);
        let words = vec![in alloc; 0; nodes * width]?;
        Ok(Matrix {
            nodes,
            width,
            words,
        })
    }

    pub(crate) fn nodes(&self) -> usize
        ensures nodes { result ≡ self.now.nodes }
        ensures few { self.now.nodes ≤ 4160 }
    {
        self.nodes
    }

    // The index of the word that has a bit.
    fn word_of(&self, from: usize, to: usize) -> usize
        requires from { from < self.now.nodes }
        requires to { to < self.now.nodes }
        ensures offset { result ≡ from * self.now.width + to / 64 }
        ensures within { result < vec_len self.now.words }
    {
        from * self.width + to / 64
    }

    // Sets a bit, if it isn't set.
    pub(crate) fn set(&mut self, from: usize, to: usize)
        requires from { from < self.old.nodes }
        requires to { to < self.old.nodes }
        ensures nodes { self.new.nodes ≡ self.old.nodes }
        ensures bits { (a b : ℕ) → HasBit self.new a b ↔ (HasBit self.old a b ⊎ ((a ≡ from) × (b ≡ to))) }
    {
        let word = self.word_of(from, to);
        self.words[word] |= 1 << (to % 64);
    }

    // The first bit of a row that is set, from `at` on. A word that has none is passed at once.
    pub(crate) fn next(&self, from: usize, at: usize) -> Option<usize>
        requires { from < self.now.nodes }
        ensures { MatchOption result ((b : ℕ) → at ≤ b → HasBit self.now from b → ⊥) (λ to. (at ≤ to) × (to < self.now.nodes) × HasBit self.now from to × ((b : ℕ) → at ≤ b → b < to → HasBit self.now from b → ⊥)) }
    {
        let mut to = at;
        while to < self.nodes {
            let word = 64 * (to / 64);
            if let Some(offset) = lowest_from(self.words[self.word_of(from, to)], to % 64) {
                let first = word + offset;
                return if first < self.nodes {
                    Some(first)
                } else {
                    None
                };
            }
            to = word + 64;
        }
        None
    }
}

// The lowest bit of a word that is set, from a position on. Where bits are dense it is mostly that position itself.
fn lowest_from(word: u64, offset: usize) -> Option<usize>
    requires { offset < 64 }
    ensures { MatchOption result ((j : ℕ) → offset ≤ j → bit_at word j ≡ 0) (λ k. (offset ≤ k) × (k < 64) × (bit_at word k ≡ 1) × ((j : ℕ) → offset ≤ j → j < k → bit_at word j ≡ 0)) }
{
    let rest = word >> offset;
    if rest & 1 == 1 {
        return Some(offset);
    }
    if rest == 0 {
        return None;
    }
    Some(offset + rest.trailing_zeros() as usize)
}
