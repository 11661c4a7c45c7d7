// Words and numbers of lines.
ghost use Rattle.std.specs.Prelude.{◌++◌, codes, OnOk};
ghost use Rattle.std.specs.Fmt.{decimal};
ghost use Rattle.pac_value.specs.Growth.{Grew};

use pac_base::NoMemory;
use pac_value::push_count;

// Appends a space and a number.
pub(crate) fn push_number(out: &mut Vec<u8>, number: u64) -> Result<(), NoMemory>
    ensures { OnOk result (Grew out.old.items out.new.items (codes " " ++ decimal number)) }
{
    out.extend_from_slice(b" ")?;
    push_count(out, number)
}

// Appends a space and a word.
pub(crate) fn push_word(out: &mut Vec<u8>, word: &[u8]) -> Result<(), NoMemory>
    ensures { OnOk result (Grew out.old.items out.new.items (codes " " ++ word.now)) }
{
    out.extend_from_slice(b" ")?;
    out.extend_from_slice(word)?;
    Ok(())
}
