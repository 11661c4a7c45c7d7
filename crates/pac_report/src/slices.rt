// The slices of one procedure.
ghost use Rattle.std.specs.Prelude.{◌≡◌, ℕ, ◌++◌, codes, IfOk, OnOk};
ghost use Rattle.std.specs.Fmt.{decimal};
ghost use Rattle.pac_graph.specs.Classes.{class_count};
ghost use Rattle.pac_value.specs.Growth.{Grew};
ghost use Rattle.pac_report.specs.Explain.{edge_line, slice_member, slice_members, slices_text};
ghost use Rattle.pac_report.specs.GroupTexts.{Hold};

use crate::groups::{empty_texts, push_ends};
use pac_base::NoMemory;
use pac_slice::LocalGraph;
use pac_value::{Name, push_count};
use std::alloc::Global;

// A line for each slice, and then one for each edge.
pub(crate) fn push_slices(
    alloc: Global,
    out: &mut Vec<u8>,
    name: Name,
    graph: &LocalGraph,
) -> Result<(), NoMemory>
    ensures { OnOk result (Grew out.old.items out.new.items (slices_text name graph.now)) }
{
    let texts = slice_texts(alloc, graph.slice_of.as_slice())?;
    for slice in 0..texts.len() {
        push_slice(out, name, slice, &texts[slice])?;
    }
    for edge in graph.edges.as_slice() {
        push_link(out, name, *edge)?;
    }
    Ok(())
}

fn push_slice(out: &mut Vec<u8>, name: Name, slice: usize, text: &[u8]) -> Result<(), NoMemory>
    ensures { OnOk result (Grew out.old.items out.new.items (codes "slice " ++ name ++ codes " " ++ decimal slice ++ codes ":" ++ text.now ++ codes "\n")) }
{
    out.extend_from_slice(b"slice ")?;
    out.extend_from_slice(name.bytes())?;
    out.extend_from_slice(b" ")?;
    push_count(out, slice as u64)?;
    out.extend_from_slice(b":")?;
    out.extend_from_slice(text)?;
    out.extend_from_slice(b"\n")?;
    Ok(())
}

fn push_link(out: &mut Vec<u8>, name: Name, edge: (u16, u16)) -> Result<(), NoMemory>
    ensures { OnOk result (Grew out.old.items out.new.items (edge_line (codes "link " ++ name) edge)) }
{
    out.extend_from_slice(b"link ")?;
    out.extend_from_slice(name.bytes())?;
    push_ends(out, edge)
}

// The operations of each slice.
fn slice_texts(alloc: Global, slice_of: &[u16]) -> Result<Vec<Vec<u8>>, NoMemory>
    ensures { IfOk result (λ texts. Hold texts.items (slice_members slice_of.now) (class_count slice_of.now)) }
{
    let mut texts = empty_texts(alloc, slice_count(slice_of))?;
    for op in 0..slice_of.len() {
        push_member(&mut texts[usize::from(slice_of[op])], op)?;
    }
    Ok(texts)
}

fn push_member(text: &mut Vec<u8>, op: usize) -> Result<(), NoMemory>
    ensures { OnOk result (Grew text.old.items text.new.items (slice_member op)) }
{
    text.extend_from_slice(b" ")?;
    push_count(text, op as u64)
}

// How many slices there are: one more than the highest.
fn slice_count(slice_of: &[u16]) -> usize
    ensures { result ≡ class_count slice_of.now }
{
    let mut count = 0;
    for slice in slice_of {
        count = count.max(usize::from(*slice) + 1);
    }
    count
}
