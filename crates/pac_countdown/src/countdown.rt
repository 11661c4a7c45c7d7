// The hand-out over atomic words.
ghost use Rattle.std.specs.Prelude.{◌≡◌, ◌==◌, ◌+◌, ◌<◌, ◌≤◌, ◌^◌, ℕ, [], length, IfOk, All, slice_index, vec_len};
ghost use Rattle.pac_countdown.specs.Lists.{times_in, pair_times, pairs_to};
ghost use Rattle.pac_countdown.specs.Counted.{IsCounted, agenda_pairs, starting, RuleSays};
ghost use Rattle.pac_countdown.specs.Steps.{AreBelow, first_deeds, after_open, after_count, after_split, lent_deeds, after_join, TakesOne, FindsWord, KeepsBySplit, KeepsByJoin, HasLooked, IsAll};
ghost use Rattle.pac_countdown.specs.declared.deeds.PassKind.TheVariants.{Opener, Lent};

use crate::deeds::{Agenda, Deeds};
use crate::pass::{Handed, Pass};
use crate::plays::{
    Caller, CountingPair, JoiningPass, Lending, LoadingWord, OpeningPiece, SplittingPass,
};
use atomic_table::{Table, TableRule};
use pac_base::NoMemory;
use pac_plan::Preds;
use std::alloc::Global;
use std::marker::{Brand, Model};
use std::snapshot::Snapshot;

/// The rule of all countdowns, which holds between any two steps of any threads: `specs/Counted.antt`.
pub struct CountedRule;

impl TableRule<(), Deeds, Agenda> for CountedRule {
    ghost holds = { IsCounted };

    ghost first = { λ _. first_deeds };
}

/// The hand-out of the pieces of a set, by words that count down. It has 8 bytes a piece.
///
/// Contracts see what tells it from any other countdown, and its [`Agenda`].
#[derive(Drop)]
pub struct Countdown {
    pub(crate) table: Table<(), Deeds, Agenda, CountedRule, Global>,
}

impl Model for Countdown {
    ghost use Rattle.std.specs.Prelude.{◌≡◌, ◌<◌, ◌≤◌, ℕ};
    ghost use Rattle.pac_countdown.specs.Lists.{pair_times};
    ghost use Rattle.pac_countdown.specs.Counted.{agenda_pairs};
    ghost use Rattle.pac_countdown.specs.Steps.{AreBelow};
    ghost use Rattle.pac_countdown.specs.Seen.{CountdownSeen, countdown_code};

    ghost Value = { CountdownSeen };

    ghost coded = { countdown_code };

    ghost view = { λ countdown. record { id = countdown.table.shared.table_id; agenda = countdown.table.shared.key } };

    ghost invariant = { λ countdown. (countdown.table.shared.table_id.words ≡ countdown.table.shared.key.pieces)
        × (0 < countdown.table.shared.key.pieces) × (countdown.table.shared.key.pieces ≤ 1024)
        × ((q : ℕ × ℕ) → pair_times q (agenda_pairs countdown.table.shared.key) ≤ 1)
        × AreBelow countdown.table.shared.key.pieces (agenda_pairs countdown.table.shared.key) };
}

// The word of each piece at first.
fn starting_words(alloc: Global, pairs: &[(u32, u32)], pieces: u32) -> Result<Vec<u64>, NoMemory>
    requires within { All (λ pair. pair.1 < pieces) pairs.now }
    requires few { length pairs.now < 2 ^ 62 }
    ensures len { IfOk result (λ words. vec_len words ≡ pieces) }
    ensures words { IfOk result (λ words. (p : ℕ) → p < pieces → slice_index words.items p ≡ starting pairs.now p) }
{
    let mut words = vec![in alloc; 1u64; pieces as usize]?;
    for pair in pairs {
        words[pair.1 as usize] += 1;
    }
    Ok(words)
}

impl Countdown {
    /// A countdown of these pieces with these pairs, and the opener's pass. No pair may stand twice.
    ///
    /// # Errors
    ///
    /// [`NoMemory`] where an allocation is refused.
    pub fn new(alloc: Global, preds: &Preds, pieces: u32) -> Result<(Countdown, Pass), NoMemory>
        requires pieces { (0 < pieces) × (pieces ≤ 1024) }
        requires within { All (λ pair. pair.1 < pieces) preds.now }
        requires once { (q : ℕ × ℕ) → pair_times q preds.now ≤ 1 }
        ensures pairs { IfOk result (λ made. agenda_pairs made.0.agenda ≡ preds.now) }
        ensures pieces { IfOk result (λ made. made.0.agenda.pieces ≡ pieces) }
        ensures pass { IfOk result (λ made. made.1.countdown ≡ made.0.id) }
        ensures first { IfOk result (λ made. made.1.deeds ≡ first_deeds) }
    {
        let words = starting_words(alloc, preds.pairs(), pieces)?;
        let agenda = Agenda {
            preds: Snapshot::of(preds),
            pieces,
        };
        let (table, seat) = Table::of_words(alloc, &words, &agenda)?;
        let pass = Pass {
            seat,
            openings: 0,
            splits: 0,
            joins: 0,
        };
        Ok((Countdown { table }, pass))
    }

    fn open_as<C: Caller>(&self, pass: &mut Pass) -> bool
        requires call { (C.agenda ≡ self.now.agenda) × (C.number ≡ pass.old.number) }
        requires of { pass.old.countdown ≡ self.now.id }
        requires opener { pass.old.deeds.kind ≡ Opener }
        requires more { length pass.old.deeds.opened < self.now.agenda.pieces }
        ensures of { (pass.new.countdown ≡ self.now.id) × (pass.new.number ≡ pass.old.number) }
        ensures did { pass.new.deeds ≡ after_open pass.old.deeds (length pass.old.deeds.opened) result }
        ensures step { (n : ℕ) × (result ≡ (n == 0)) × TakesOne self.now.agenda pass.old.number (length pass.old.deeds.opened) pass.old.deeds n pass.new.deeds }
    {
        let piece = pass.openings;
        let found = self
            .table
            .shared
            .fetch_sub::<OpeningPiece<C>>(&mut pass.seat, piece as usize, 1);
        pass.openings += 1;
        found == 1
    }

    /// Opens the next piece, ascending, and answers whether that left 0: then the pass is handed the piece. Takes no memory.
    pub fn open_next(&self, pass: &mut Pass) -> bool
        requires of { pass.old.countdown ≡ self.now.id }
        requires opener { pass.old.deeds.kind ≡ Opener }
        requires more { length pass.old.deeds.opened < self.now.agenda.pieces }
        ensures of { (pass.new.countdown ≡ self.now.id) × (pass.new.number ≡ pass.old.number) }
        ensures did { pass.new.deeds ≡ after_open pass.old.deeds (length pass.old.deeds.opened) result }
        ensures step { (n : ℕ) × (result ≡ (n == 0)) × TakesOne self.now.agenda pass.old.number (length pass.old.deeds.opened) pass.old.deeds n pass.new.deeds }
    {
        self.open_as::<Brand>(pass)
    }

    fn count_as<C: Caller>(&self, pass: &mut Pass, from: u32, to: u32) -> bool
        requires call { (C.agenda ≡ self.now.agenda) × (C.number ≡ pass.old.number) × (C.from ≡ from) }
        requires of { pass.old.countdown ≡ self.now.id }
        requires pair { 0 < pair_times (from, to) (agenda_pairs self.now.agenda) }
        requires handed { 0 < times_in from pass.old.deeds.handed }
        requires new { pair_times (from, to) pass.old.deeds.counted ≡ 0 }
        ensures of { (pass.new.countdown ≡ self.now.id) × (pass.new.number ≡ pass.old.number) }
        ensures fresh { times_in to pass.old.deeds.handed ≡ 0 }
        ensures did { pass.new.deeds ≡ after_count pass.old.deeds from to result }
        ensures step { (n : ℕ) × (result ≡ (n == 0)) × TakesOne self.now.agenda pass.old.number to pass.old.deeds n pass.new.deeds }
    {
        let found = self
            .table
            .shared
            .fetch_sub::<CountingPair<C>>(&mut pass.seat, to as usize, 1);
        found == 1
    }

    /// Counts a pair of a piece that the pass was handed, and answers whether that left 0: then the pass is handed the later piece.
    /// Takes no memory.
    pub fn count(&self, pass: &mut Pass, from: u32, to: u32) -> bool
        requires of { pass.old.countdown ≡ self.now.id }
        requires pair { 0 < pair_times (from, to) (agenda_pairs self.now.agenda) }
        requires handed { 0 < times_in from pass.old.deeds.handed }
        requires new { pair_times (from, to) pass.old.deeds.counted ≡ 0 }
        ensures of { (pass.new.countdown ≡ self.now.id) × (pass.new.number ≡ pass.old.number) }
        ensures fresh { times_in to pass.old.deeds.handed ≡ 0 }
        ensures did { pass.new.deeds ≡ after_count pass.old.deeds from to result }
        ensures step { (n : ℕ) × (result ≡ (n == 0)) × TakesOne self.now.agenda pass.old.number to pass.old.deeds n pass.new.deeds }
    {
        self.count_as::<Brand>(pass, from, to)
    }

    fn look_as<C: Caller>(&self, pass: &mut Pass, piece: u32) -> u64
        requires call { (C.agenda ≡ self.now.agenda) × (C.number ≡ pass.old.number) }
        requires of { pass.old.countdown ≡ self.now.id }
        requires piece { piece < self.now.agenda.pieces }
        ensures same { pass.new ≡ pass.old }
        ensures looked { HasLooked (agenda_pairs self.now.agenda) piece pass.old.deeds result }
        ensures step { FindsWord self.now.agenda pass.old.number piece pass.old.deeds result }
    {
        self.table
            .shared
            .load::<LoadingWord<C>>(&mut pass.seat, piece as usize)
    }

    // Loads a word, and learns what the rule says of the pass.
    fn look(&self, pass: &mut Pass, piece: u32) -> u64
        requires of { pass.old.countdown ≡ self.now.id }
        requires piece { piece < self.now.agenda.pieces }
        ensures same { pass.new ≡ pass.old }
        ensures looked { HasLooked (agenda_pairs self.now.agenda) piece pass.old.deeds result }
        ensures step { FindsWord self.now.agenda pass.old.number piece pass.old.deeds result }
    {
        self.look_as::<Brand>(pass, piece)
    }

    // Loads the first word, to learn what the rule says of the pass.
    pub(crate) fn learn(&self, pass: &mut Pass)
        requires of { pass.old.countdown ≡ self.now.id }
        ensures same { pass.new ≡ pass.old }
        ensures looked { (n : ℕ) × HasLooked (agenda_pairs self.now.agenda) 0 pass.old.deeds n }
    {
        let _ = &self.table.shared;
        self.look(pass, 0);
    }

    // Each pair is an earlier piece and a later one.
    pub(crate) fn pairs_are_below(&self)
        ensures { AreBelow self.now.agenda.pieces (agenda_pairs self.now.agenda) }
    {
        let _ = &self.table.shared;
    }

    // No pair stands twice.
    pub(crate) fn pairs_differ(&self)
        ensures { (q : ℕ × ℕ) → pair_times q (agenda_pairs self.now.agenda) ≤ 1 }
    {
        let _ = &self.table.shared;
    }

    /// How many openings and counts of a piece are left, as this step finds it. Takes no memory.
    pub fn left(&self, pass: &mut Pass, piece: u32) -> u64
        requires of { pass.old.countdown ≡ self.now.id }
        requires piece { piece < self.now.agenda.pieces }
        ensures same { pass.new ≡ pass.old }
        ensures handed { 0 < times_in piece pass.old.deeds.handed → result ≡ 0 }
        ensures most { result + times_in piece pass.old.deeds.opened + pairs_to piece pass.old.deeds.counted ≤ starting (agenda_pairs self.now.agenda) piece }
        ensures step { FindsWord self.now.agenda pass.old.number piece pass.old.deeds result }
    {
        self.look(pass, piece)
    }

    fn split_as<C: Lending>(&self, pass: &mut Pass, share: &[u32]) -> Pass
        requires call { C.share ≡ share.now }
        requires of { pass.old.countdown ≡ self.now.id }
        requires opener { pass.old.deeds.kind ≡ Opener }
        requires splits { pass.old.deeds.splits < 4294967295 }
        requires differ { (p : ℕ) → times_in p share.now ≤ 1 }
        requires handed { (p : ℕ) → 0 < times_in p share.now → 0 < times_in p pass.old.deeds.handed }
        requires uncounted { (p t : ℕ) → 0 < times_in p share.now → pair_times (p, t) pass.old.deeds.counted ≡ 0 }
        ensures of { (pass.new.countdown ≡ self.now.id) × (pass.new.number ≡ pass.old.number) }
        ensures of_new { result.countdown ≡ self.now.id }
        ensures did { pass.new.deeds ≡ after_split share.now pass.old.deeds }
        ensures made { result.deeds ≡ lent_deeds share.now }
        ensures step { KeepsBySplit self.now.agenda pass.old.number pass.old.deeds pass.new.deeds result.deeds }
    {
        let seat = self
            .table
            .shared
            .split_seat::<SplittingPass<C>>(&mut pass.seat);
        pass.splits += 1;
        Pass {
            seat,
            openings: 0,
            splits: 0,
            joins: 0,
        }
    }

    /// Lends to a new pass a share of the pieces that the opener's pass was handed, of which it counted no pair. Takes no memory.
    pub fn split(&self, pass: &mut Pass, share: &[u32]) -> Pass
        requires of { pass.old.countdown ≡ self.now.id }
        requires opener { pass.old.deeds.kind ≡ Opener }
        requires splits { pass.old.deeds.splits < 4294967295 }
        requires differ { (p : ℕ) → times_in p share.now ≤ 1 }
        requires handed { (p : ℕ) → 0 < times_in p share.now → 0 < times_in p pass.old.deeds.handed }
        requires uncounted { (p t : ℕ) → 0 < times_in p share.now → pair_times (p, t) pass.old.deeds.counted ≡ 0 }
        ensures of { (pass.new.countdown ≡ self.now.id) × (pass.new.number ≡ pass.old.number) }
        ensures of_new { result.countdown ≡ self.now.id }
        ensures did { pass.new.deeds ≡ after_split share.now pass.old.deeds }
        ensures made { result.deeds ≡ lent_deeds share.now }
        ensures step { KeepsBySplit self.now.agenda pass.old.number pass.old.deeds pass.new.deeds result.deeds }
    {
        self.split_as::<Brand>(pass, share)
    }

    /// Joins to the opener's pass one that was split from it. The lists are put together. Takes no memory.
    pub fn join(&self, pass: &mut Pass, other: Pass)
        requires of { pass.old.countdown ≡ self.now.id }
        requires of_other { other.countdown ≡ self.now.id }
        requires opener { pass.old.deeds.kind ≡ Opener }
        requires lent { other.deeds.kind ≡ Lent }
        ensures of { (pass.new.countdown ≡ self.now.id) × (pass.new.number ≡ pass.old.number) }
        ensures did { pass.new.deeds ≡ after_join pass.old.deeds other.deeds }
        ensures step { KeepsByJoin self.now.agenda pass.old.number pass.old.deeds other.number other.deeds pass.new.deeds }
    {
        self.learn(pass);
        self.table
            .shared
            .join_seat::<JoiningPass>(&mut pass.seat, other.seat);
        pass.joins += 1;
    }

    /// What the rule says at any moment: each piece goes to one pass, and only after each pair to it was counted by a pass that was
    /// handed the earlier piece. It does nothing.
    #[tactic(auto, using(crate::proofs::Ends::rule_says))]
    pub fn rule_says(&self)
        ensures { RuleSays self.now.agenda }
    {}

    /// Whether as many passes were joined as were split. Takes no memory.
    pub fn is_whole(&self, pass: &Pass) -> bool
        ensures { result ≡ (pass.now.deeds.splits == pass.now.deeds.joins) }
    {
        u64::from(pass.splits) == pass.joins
    }

    /// Ends the countdown, if each pass that was split is joined. Takes no memory.
    pub fn end(self, pass: Pass) -> Handed
        requires of { pass.countdown ≡ self.id }
        requires opener { pass.deeds.kind ≡ Opener }
        requires whole { pass.deeds.splits ≡ pass.deeds.joins }
        ensures handed { result ≡ pass.deeds.handed }
        ensures all { IsAll (agenda_pairs self.agenda) pass.deeds }
    {
        let mut pass = pass;
        self.learn(&mut pass);
        let Pass {
            seat,
            openings: _,
            splits: _,
            joins: _,
        } = pass;
        Handed { seat }
    }
}
