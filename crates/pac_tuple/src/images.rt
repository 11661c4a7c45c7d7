// After-images.
use pac_base::{Listed, Rule, Ruled};
use pac_ops::Change;

/// The most after-images of a transaction.
pub const MAX_IMAGES: usize = 256;

/// The after-images of a transaction: for each cell that it wrote a put of the row that it left there, or a delete where it
/// left none. There are at most [`MAX_IMAGES`], each at a cell of its own, ascending by table and key.
pub type TxnImages = Ruled<TxnImagesRule>;

/// What the changes of [`TxnImages`] keep.
pub struct TxnImagesRule;

impl Rule for TxnImagesRule {
    type Item = Change;

    ghost use Rattle.pac_tuple.specs.Images.{AreTxnImages};

    ghost holds = { AreTxnImages };
}

/// The after-images of transactions, a list for each of them.
pub type Images = Listed<TxnImages>;
