// The texts of groups, one a group, to which members are added as they are found; and the edges between groups.
ghost use Rattle.std.specs.Prelude.{◌++◌, codes, IfOk, OnOk};
ghost use Rattle.std.specs.Fmt.{decimal};
ghost use Rattle.pac_value.specs.Growth.{Grew};
ghost use Rattle.pac_report.specs.Explain.{edge_line};
ghost use Rattle.pac_report.specs.GroupTexts.{Hold, no_text};

use pac_base::NoMemory;
use pac_value::push_count;
use std::alloc::Global;

// That many texts, with nothing in them.
pub(crate) fn empty_texts(alloc: Global, count: usize) -> Result<Vec<Vec<u8>>, NoMemory>
    ensures { IfOk result (λ texts. Hold texts.items no_text count) }
{
    let mut texts = Vec::with_capacity(alloc, count)?;
    for _ in 0..count {
        texts.push(Vec::new(alloc))?;
    }
    Ok(texts)
}

// Two groups, after the words of their line.
pub(crate) fn push_ends(out: &mut Vec<u8>, edge: (u16, u16)) -> Result<(), NoMemory>
    ensures { OnOk result (Grew out.old.items out.new.items (codes " " ++ decimal edge.0 ++ codes " " ++ decimal edge.1 ++ codes "\n")) }
{
    out.extend_from_slice(b" ")?;
    push_count(out, u64::from(edge.0))?;
    out.extend_from_slice(b" ")?;
    push_count(out, u64::from(edge.1))?;
    out.extend_from_slice(b"\n")?;
    Ok(())
}
