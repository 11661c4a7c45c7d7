// The text of the bank's catalogue: the stress test runs over it, and so do tests of the replay.
ghost use Rattle.std.specs.Prelude.{◌≡◌};
ghost use Rattle.pac_script.specs.BankText.{bank_text};

/// The text of the bank's catalogue, in canonical form. It has the tables `Family`, `Current`, `Saving` and `Stats`, each of one
/// int by an int, and the procedures `Transfer` and `Deposit`.
pub const BANK: &[u8] = b"table Family(key int, spouse int);
table Current(key int, value int);
table Saving(key int, value int);
table Stats(key int, count int);
proc Transfer(src int, amount int) {
  read dst = Family[src].spouse default 0;
  if dst != 0 {
    read a = Current[src].value default 0;
    put Current[src] = (a - amount);
    read b = Current[dst].value default 0;
    put Current[dst] = (b + amount);
    read s = Saving[src].value default 0;
    put Saving[src] = (s + 1);
  }
}
proc Deposit(name int, amount int, nation int) {
  read v = Current[name].value default 0;
  put Current[name] = (v + amount);
  if v + amount > 10000 {
    read s = Saving[name].value default 0;
    put Saving[name] = (s + v / 50);
  }
  read n = Stats[nation].count default 0;
  put Stats[nation] = (n + 1);
}
";

/// The same, as the definitions have it. That it is read, and as which catalogue, is proved in `pac_stress`.
pub fn bank_text() -> &'static [u8]
    ensures { result.now ≡ bank_text }
{
    BANK
}
