// What holds of the grammar. Each law is a function without code.
ghost use Rattle.std.specs.Prelude.{◌≡◌, ◌≤◌, ◌++◌, ℕ, List, Option, length};
ghost use Rattle.pac_tokens.specs.Tokens.{IsLexed};
ghost use Rattle.pac_tokens.specs.declared.fault.Fault.{Fault as AFault};
ghost use Rattle.pac_tokens.specs.declared.token.Spanned.{Spanned as ASpanned};
ghost use Rattle.pac_syntax.specs.Faults.{FaultAt, IsFirstFault};
ghost use Rattle.pac_syntax.specs.Reading.{Reads, end_of};
ghost use Rattle.pac_syntax.specs.WithoutLoops.{IsLooplessTree, ReadsWithoutLoops};
ghost use Rattle.pac_syntax.specs.declared.tree.Tree.{Tree as ATree};

/// Each text that was a catalogue before there were loops is one still, with the same tree. These are the texts whose trees
/// have no loop.
pub fn texts_without_loops_stay()
    ensures stay { (text : List ℕ) (tree : ATree) → ReadsWithoutLoops text tree → Reads text tree }
    ensures plain { (text : List ℕ) (tree : ATree) → ReadsWithoutLoops text tree → IsLooplessTree tree }
    ensures only { (text : List ℕ) (tree : ATree) → Reads text tree → IsLooplessTree tree → ReadsWithoutLoops text tree }
{}

/// Of all faults of a text's tokens the first one has the least offset, though that of a loop stands before the token that
/// settles it.
pub fn the_first_fault_has_the_least_offset()
    ensures { (text : List ℕ) (tokens : List ASpanned) (lexical : Option AFault) (first : AFault) → IsLexed text tokens lexical → IsFirstFault (end_of (length text) lexical) tokens first → (p rest : List ASpanned) (other : AFault) → tokens ≡ p ++ rest → FaultAt (end_of (length text) lexical) p rest other → first.at ≤ other.at }
{}
