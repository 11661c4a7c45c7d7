// What holds of the next pairs of every list of accesses. Each law is a function that does nothing.
ghost use Rattle.pac_batch.specs.NextLists.{OneList, PairsSuffice};

/// Accesses have one list of next pairs.
pub fn one_list()
    ensures { OneList }
{}

/// Next pairs conflict. And a set of accesses that has, with the later access of a next pair, always the earlier one, has so with
/// any two accesses that conflict: waiting for next pairs is waiting for all conflicts.
pub fn pairs_suffice()
    ensures { PairsSuffice }
{}
