// Lists of numbers.
use pac_base::Listed;

/// Numbers of operations, slices, blocks or tables.
pub type Numbers = Listed<u16>;

/// Pairs of such numbers.
pub type Pairs = Listed<(u16, u16)>;
