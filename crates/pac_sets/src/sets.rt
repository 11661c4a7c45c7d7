// Piece-sets in order, and which of them may be opened.
ghost use Rattle.std.specs.Prelude.{◌≡◌, ◌↔◌, ◌<◌, ◌≤◌, ◌+◌, IsTrue, true, IfOk, IfErr, IfSome, IfNone, ℕ, OnOk, OnErr, T, false, length, slice_get, slice_set, Some, None, position, [], ◌++◌, take};
ghost use Rattle.std.specs.List.{list_all};
ghost use Rattle.std.specs.FinMap.{is_sorted};
ghost use Rattle.pac_value.specs.Sorted.{IsOffsetOf, IsGapFor};
ghost use Rattle.pac_sets.specs.SetOrder.{set_cmp};
ghost use Rattle.pac_sets.specs.Sets.{AddsSource, AreAllSources, AreFronts, AreLeft, AreSets, IsSetAt, IsFirstBelow, IsFirstOpen, IsFront, IsOpenIn, IsOpenSet, IsUnfinished, IsKeptAt, Kept, are_done, front_or, is_earlier, is_done, is_unfinished_in, with_kept_at};

use crate::set_id::SetId;
use pac_base::{Listed, NoMemory, copy_of, listed};
use pac_plan::Plan;
use std::alloc::Global;
use std::marker::Model;
use std::mem;

/// A set, and what is kept of it: nothing once it is finished.
pub type Kept<P> = (SetId, Option<P>);

// Where a set stands, or else where it would.
fn search<P>(sets: &[Kept<P>], set: SetId) -> Result<usize, usize>
    requires { T (is_sorted set_cmp sets.now) }
    ensures found { IfOk result (IsOffsetOf sets.now set) }
    ensures absent { IfErr result (IsGapFor set_cmp sets.now set) }
{
    sets.binary_search_by(|other| other.0.order(&set))
}

// Whether a set is finished, or isn't there.
fn is_done<P>(sets: &[Kept<P>], set: SetId) -> bool
    requires { T (is_sorted set_cmp sets.now) }
    ensures { result ≡ is_done set sets.now }
{
    match search(sets, set) {
        Ok(at) => sets[at].1.is_none(),
        Err(_) => true,
    }
}

// Whether a batch's sets in these blocks are finished.
fn are_done<P>(sets: &[Kept<P>], batch: u64, blocks: &[u16]) -> bool
    requires { T (is_sorted set_cmp sets.now) }
    ensures { result ≡ are_done batch blocks.now sets.now }
{
    blocks.iter().all(|block| {
        is_done(
            sets,
            SetId {
                batch,
                block: *block,
            },
        )
    })
}

// Whether a set of the block is unfinished.
fn is_unfinished_in<P>(set: &Kept<P>, block: u16) -> bool
    ensures { result ≡ is_unfinished_in block set.now }
{
    set.0.block == block && set.1.is_some()
}

// The first unfinished set of a block, where none stands before an offset. It looks at the sets from there on.
fn front_from<P>(sets: &[Kept<P>], block: u16, from: usize) -> Option<usize>
    requires { (k : ℕ) (set : Kept P) → k < from → slice_get sets.now k ≡ Some set → is_unfinished_in block set ≡ false }
    ensures { result ≡ position (is_unfinished_in block) sets.now }
{
    for at in from..sets.len() {
        if is_unfinished_in(&sets[at], block) {
            return Some(at);
        }
    }
    None
}

/// The piece-sets of what is loaded, in their order, with what is kept of each until it is finished; and which of them may be
/// opened: those that wait for no unfinished one.
#[derive(Drop)]
pub struct Sets<P> {
    edges: Listed<(u16, u16)>,
    sources: Vec<Vec<u16>>,
    fronts: Vec<Option<usize>>,
    sets: Vec<Kept<P>>,
}

impl<P> Model for Sets<P> {
    ghost use Rattle.std.specs.Prelude.{List, ℕ, Option, length, refl};
    ghost use Rattle.std.specs.Coded.{code_by, codes, coded_ℕ, coded_list, coded×};
    ghost use Rattle.pac_sets.specs.declared.set_id.SetId.{SetId as ASetId};
    ghost use Rattle.pac_sets.specs.contracts.set_id.SetId as set_type;
    ghost use Rattle.pac_sets.specs.Sets.{AddsSource, AreAllSources, AreFronts, AreSets, Setting, Kept};

    ghost Value = { Setting P };

    ghost coded = { code_by (List (ℕ × ℕ) × ℕ × List (ASetId × Option P))
        (Prim.hlevel (codes, set_type.the_row.coded, P.code))
        (λ s. (s.edges, s.blocks, s.sets))
        (λ p. record { edges = p.0; blocks = p.1; sets = p.2 })
        (λ s. refl) };

    ghost view = { λ s. record { edges = s.edges; blocks = length s.fronts.items; sets = s.sets.items } };

    ghost invariant = { λ s. AreSets (length s.fronts.items) s.sets.items × AreAllSources s.edges (length s.fronts.items) s.sources.items × AreFronts (length s.fronts.items) s.fronts.items s.sets.items };
}

impl<P: Drop> Sets<P> {
    /// No sets, over the blocks of a plan. It takes time that grows with the number of edges.
    ///
    /// # Errors
    ///
    /// [`NoMemory`] where what is kept of the blocks finds no room.
    pub fn new(alloc: Global, plan: &Plan) -> Result<Sets<P>, NoMemory>
        ensures { IfOk result (λ sets. sets ≡ record { edges = plan.now.edges; blocks = plan.now.blocks; sets = [] }) }
    {
        let edges = plan.edges();
        let blocks = usize::from(plan.blocks());
        Ok(Sets {
            edges: listed(copy_of(alloc, edges)?),
            sources: sources_of(alloc, edges, blocks)?,
            fronts: vec![in alloc; None; blocks]?,
            sets: Vec::new(alloc),
        })
    }
}

impl<P> Sets<P> {
    // Whether the first unfinished set of its block waits for nothing more.
    fn is_passed(&self, at: usize) -> bool
        requires { IsFront self.now.sets at }
        ensures { IsTrue result ↔ IsOpenSet self.now.edges self.now.sets at }
    {
        let set = self.sets[at].0;
        let sources = &self.sources[usize::from(set.block)];
        are_done(&self.sets, set.batch, sources)
    }

    /// The first open set from an offset on. It looks at the first unfinished set of each block, and of those that wait, at the
    /// sets of the blocks that lead to theirs.
    pub fn first_open(&self, from: usize) -> Option<usize>
        ensures { IsFirstOpen self.now.edges self.now.sets from result }
    {
        let mut first = None;
        for block in 0..self.fronts.len() {
            first = self.earlier_open(from, block, first);
        }
        first
    }

    /// How many blocks there are.
    pub fn blocks(&self) -> usize
        ensures { result ≡ self.now.blocks }
    {
        self.fronts.len()
    }

    /// The open set of a block: it has one at most. It looks at the first unfinished set of the block, and at the sets of the
    /// blocks that lead to it.
    pub fn open_in(&self, block: usize) -> Option<usize>
        requires { block < self.now.blocks }
        ensures open { IfSome result (IsOpenIn self.now.edges self.now.sets block) }
        ensures none { IfNone result ((at : ℕ) → IsOpenIn self.now.edges self.now.sets block at → ⊥) }
    {
        match self.fronts[block] {
            Some(at) => { if self.is_passed(at) { Some(at) } else { None } }
            None => None,
        }
    }

    /// Where a set stands. `None`: it isn't there. A binary search.
    pub fn find(&self, set: SetId) -> Option<usize>
        ensures found { IfSome result (IsSetAt self.now.sets set) }
        ensures absent { IfNone result ((at : ℕ) → IsSetAt self.now.sets set at → ⊥) }
    {
        match search(&self.sets, set) {
            Ok(at) => Some(at),
            Err(_) => None,
        }
    }

    /// A set, and what is kept of it.
    pub fn get(&self, at: usize) -> &Kept<P>
        requires { at < length self.now.sets }
        ensures { slice_get self.now.sets at ≡ Some result.now }
    {
        &self.sets[at]
    }

    /// How many sets there are.
    pub fn len(&self) -> usize
        ensures { result ≡ length self.now.sets }
    {
        self.sets.len()
    }

    // Of the first open set of some blocks and that of one block more, the first.
    fn earlier_open(&self, from: usize, block: usize, first: Option<usize>) -> Option<usize>
        requires inside { block < self.now.blocks }
        requires first { IsFirstBelow block self.now.edges self.now.sets from first }
        ensures { IsFirstBelow (block + 1) self.now.edges self.now.sets from result }
    {
        match self.fronts[block] {
            Some(at) => {
                if self.is_earlier_open(from, first, at) {
                    Some(at)
                } else {
                    first
                }
            }
            None => first,
        }
    }

    // Whether the first unfinished set of its block is open and stands between the offset and the first so far.
    fn is_earlier_open(&self, from: usize, first: Option<usize>, at: usize) -> bool
        requires { IsFront self.now.sets at }
        ensures passes { IsTrue result → (from ≤ at) × (is_earlier at first ≡ true) × IsOpenSet self.now.edges self.now.sets at }
        ensures fails { from ≤ at → is_earlier at first ≡ true → IsOpenSet self.now.edges self.now.sets at → IsTrue result }
    {
        from <= at && is_earlier(at, first) && self.is_passed(at)
    }
}

impl<P: Drop> Sets<P> {
    /// More sets after the others, all of them or none.
    ///
    /// # Errors
    ///
    /// [`NoMemory`] where they find no room. Then nothing is changed.
    pub fn add_all(&mut self, mut more: Vec<Kept<P>>) -> Result<(), NoMemory>
        requires later { T (is_sorted set_cmp (self.old.sets ++ more.items)) }
        requires each { AreLeft self.old.blocks 0 more.items }
        ensures ok { OnOk result (self.new ≡ record self.old { sets = self.old.sets ++ more.items }) }
        ensures err { OnErr result (self.new ≡ self.old) }
    {
        let from = self.sets.len();
        self.sets.append(&mut more)?;
        note_fronts(&mut self.fronts, &self.sets, from);
        Ok(())
    }

    /// Something else is kept of an unfinished set.
    pub fn keep(&mut self, at: usize, kept: P)
        requires { IsUnfinished self.old.sets at }
        ensures { self.new ≡ record self.old { sets = with_kept_at self.old.sets at (Some kept) } }
    {
        set_kept(&mut self.sets, at, Some(kept));
    }

    /// Something else is kept of an unfinished set. What was kept comes back.
    pub fn exchange(&mut self, at: usize, kept: P) -> P
        requires { IsUnfinished self.old.sets at }
        ensures old { IsKeptAt self.old.sets at result }
        ensures new { self.new ≡ record self.old { sets = with_kept_at self.old.sets at (Some kept) } }
    {
        exchange_kept(&mut self.sets, at, kept)
    }

    /// The set is finished: nothing is kept of it any more. It looks for the next unfinished set of the block from there on.
    pub fn finish(&mut self, at: usize)
        requires { IsOpenSet self.old.edges self.old.sets at }
        ensures { self.new ≡ record self.old { sets = with_kept_at self.old.sets at None } }
    {
        let block = self.sets[at].0.block;
        set_kept(&mut self.sets, at, None);
        self.fronts[usize::from(block)] = front_from(&self.sets, block, at);
    }
}

// From now on this is kept of a set.
fn set_kept<P: Drop>(sets: &mut Vec<Kept<P>>, at: usize, kept: Option<P>)
    requires { at < length sets.old.items }
    ensures { sets.new.items ≡ with_kept_at sets.old.items at kept }
{
    sets[at].1 = kept;
}

// From now on this is kept of an unfinished set. What was kept comes back.
fn exchange_kept<P: Drop>(sets: &mut Vec<Kept<P>>, at: usize, kept: P) -> P
    requires { IsUnfinished sets.old.items at }
    ensures old { IsKeptAt sets.old.items at result }
    ensures new { sets.new.items ≡ with_kept_at sets.old.items at (Some kept) }
{
    match mem::replace(&mut sets[at].1, Some(kept)) {
        Some(old) => old,
        None => unreachable!(),
    }
}

// The first unfinished set of each block, once those before an offset were seen.
fn note_fronts<P>(fronts: &mut Vec<Option<usize>>, sets: &[Kept<P>], from: usize)
    requires within { from ≤ length sets.now }
    requires each { AreLeft (length fronts.old.items) from sets.now }
    requires seen { AreFronts (length fronts.old.items) fronts.old.items (take from sets.now) }
    ensures len { length fronts.new.items ≡ length fronts.old.items }
    ensures seen { AreFronts (length fronts.old.items) fronts.new.items sets.now }
{
    for at in from..sets.len() {
        let block = usize::from(sets[at].0.block);
        fronts[block] = front_or(fronts[block], at);
    }
}

// The first unfinished set, where there was one or not before this one came last.
fn front_or(front: Option<usize>, last: usize) -> Option<usize>
    ensures { result ≡ front_or front last }
{
    match front {
        Some(front) => Some(front),
        None => Some(last),
    }
}

// The blocks that lead to each block.
fn sources_of(alloc: Global, edges: &[(u16, u16)], blocks: usize) -> Result<Vec<Vec<u16>>, NoMemory>
    ensures { IfOk result (λ sources. AreAllSources edges.now blocks sources.items) }
{
    let mut sources = Vec::with_capacity(alloc, blocks)?;
    for _ in 0..blocks {
        sources.push(Vec::new(alloc))?;
    }
    for edge in edges {
        add_source(&mut sources, *edge)?;
    }
    Ok(sources)
}

// The block from which an edge leads is one more of those that lead to the other.
fn add_source(sources: &mut Vec<Vec<u16>>, edge: (u16, u16)) -> Result<(), NoMemory>
    ensures { OnOk result (AddsSource edge sources.old.items sources.new.items) }
{
    let to = usize::from(edge.1);
    if to < sources.len() {
        sources[to].push(edge.0)?;
    }
    Ok(())
}

// Whether an offset comes before another, if there is one.
fn is_earlier(at: usize, other: Option<usize>) -> bool
    ensures { result ≡ is_earlier at other }
{
    match other {
        Some(other) => at < other,
        None => true,
    }
}
