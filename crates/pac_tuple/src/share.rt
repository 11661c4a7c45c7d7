// Shares of the cells.
ghost use Rattle.std.specs.Prelude.{◌≡◌, ◌<◌, nat_eq};
ghost use Rattle.pac_tuple.specs.Shares.{bytes_mixed, key_number, share_number};

use pac_value::Key;

// Numbers of keys are below this.
const NUMBERS: u64 = 4_294_967_296;

/// One of so many shares of the cells.
#[derive(Clone, Copy, Debug, PartialEq, Eq)]
pub(crate) struct CellShare {
    pub(crate) count: u64,
    pub(crate) number: u64,
}

impl CellShare {
    /// Whether a cell is in this share.
    pub(crate) fn has(&self, cell: &(u16, Key)) -> bool
        requires { 0 < self.now.count }
        ensures { result ≡ nat_eq (share_number self.now.count cell.now) self.now.number }
    {
        share_of(self.count, cell) == self.number
    }
}

// The number of the share in which a cell is, of that many.
fn share_of(count: u64, cell: &(u16, Key)) -> u64
    requires { 0 < count }
    ensures { result ≡ share_number count cell.now }
{
    let number = (number_of(&cell.1) + u64::from(cell.0)) % NUMBERS;
    number * 2_654_435_761 % NUMBERS / 65_536 % count
}

// The number of a key.
fn number_of(key: &Key) -> u64
    ensures value { result ≡ key_number key.now }
    ensures few { result < NUMBERS }
{
    match key {
        Key::Int(number) => number.cast_unsigned() % NUMBERS,
        Key::Text(text) => mix(text.bytes()),
    }
}

// The number of a text: its bytes are mixed in, one after another.
fn mix(bytes: &[u8]) -> u64
    ensures value { result ≡ bytes_mixed 0 bytes.now }
    ensures few { result < NUMBERS }
{
    let mut number = 0;
    for byte in bytes {
        number = (number * 31 + u64::from(*byte)) % NUMBERS;
    }
    number
}
