// What holds of every log. Each law is a function without code.
ghost use Rattle.std.specs.Prelude.{◌≡◌, ◌≤◌, ◌++◌, ℕ, List, length};
ghost use Rattle.pac_ops.specs.declared.transaction.Txn.{Txn as ATxn};
ghost use Rattle.pac_types.specs.Typing.{CatalogueState};
ghost use Rattle.pac_log.specs.declared.damage.LinkFault.{LinkFault as AFault};
ghost use Rattle.pac_log.specs.declared.header.Header.{Header as AHeader};
ghost use Rattle.pac_log.specs.Logs.{HasGate, HoldsLog, number_after};
ghost use Rattle.pac_log.specs.Reading.{IsDamaged};

/// An image is that of one log: of one header and its text's catalogue, with one list of batches, or with these before one
/// first damage.
pub fn one_log()
    ensures batches { (image : List ℕ) (s t : AHeader) (c d : CatalogueState) (a b : List (List ATxn)) → HoldsLog s c a image → HoldsLog t d b image → (s ≡ t) × (c ≡ d) × (a ≡ b) }
    ensures whole { (image : List ℕ) (s t : AHeader) (c d : CatalogueState) (a b : List (List ATxn)) (fault : AFault) → HoldsLog s c a image → ¬ IsDamaged t d b fault image }
    ensures damage { (image : List ℕ) (s t : AHeader) (c d : CatalogueState) (a b : List (List ATxn)) (fault other : AFault) → IsDamaged s c a fault image → IsDamaged t d b other image → (a ≡ b) × (fault ≡ other) }
{}

/// A gate of a log has one number of transactions before it: those before the log, and the first of the log's. Its offset and its number
/// stay where batches are added.
pub fn one_gate()
    ensures number { (header : AHeader) (batches : List (List ATxn)) (place m n : ℕ) → HasGate header batches place m → HasGate header batches place n → m ≡ n }
    ensures few { (header : AHeader) (batches : List (List ATxn)) (place n : ℕ) → HasGate header batches place n → n ≤ number_after header batches }
    ensures stays { (header : AHeader) (batches more : List (List ATxn)) (place n : ℕ) → HasGate header batches place n → HasGate header (batches ++ more) place n }
{}
