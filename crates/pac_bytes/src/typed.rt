// Values of a type that is wanted.
ghost use Rattle.std.specs.Prelude.{◌≡◌, ◌≤◌, length, IfOk};
ghost use Rattle.pac_bytes.specs.Reading.{from};
ghost use Rattle.pac_bytes.specs.Readers.{Answers, Finds, FindsSpelled};
ghost use Rattle.pac_bytes.specs.Values.{value_bytes};
ghost use Rattle.pac_bytes.specs.Typed.{next_typed, HasType};

use crate::{TypedFault, type_at, value_at};
use pac_value::{Ty, Value};

// The value at an offset, which has to be of this type, as reading gives it.
#[tactic(auto, unfolding(crate::specs::Typed::next_typed))]
fn read_typed(bytes: &[u8], at: usize, ty: Ty) -> Result<(Value, usize), TypedFault>
    ensures exact { Answers bytes.now result (next_typed ty (from bytes.now at)) }
    ensures inside { IfOk result (λ found. found.1 ≤ length bytes.now) }
{
    if type_at(bytes, at)? != ty {
        return Err(TypedFault::Wrong { at });
    }
    Ok(value_at(bytes, at)?)
}

/// The value at an offset, which has to be of this type, and the offset after it. The type is compared right after the tag.
///
/// # Errors
///
/// The first fault from the left:
///
/// - [`TypedFault::Short`] and [`TypedFault::Tag`] as for [`value_at`].
/// - [`TypedFault::Wrong`] at the tag of a value of another type, whatever is left after it, and where [`value_at`]
///   reports `Bad`.
pub fn typed_at(bytes: &[u8], at: usize, ty: Ty) -> Result<(Value, usize), TypedFault>
    // It is what reading gives, or the first fault.
    ensures exact { Answers bytes.now result (next_typed ty (from bytes.now at)) }
    // What is found is written so, and has the type.
    ensures found { Finds (HasType ty) value_bytes bytes.now at result }
    // What has the type and is written so is found, whatever follows.
    ensures again { FindsSpelled (HasType ty) value_bytes bytes.now at result }
    // The offset after it is no further than the end.
    ensures inside { IfOk result (λ found. found.1 ≤ length bytes.now) }
{
    read_typed(bytes, at, ty)
}
