// Scripts: a catalogue, and transactions of it in batches.
ghost use Rattle.std.specs.Prelude.{◌≡◌, ℕ, List, Option, IfOk, IsOk, IsErrOf, Some, None, Result, Ok, Err};
ghost use Rattle.pac_base.specs.Refusals.{Reports};
ghost use Rattle.pac_base.specs.declared.refusal.Refusal.TheVariants as error;
ghost use Rattle.pac_request.specs.Answers.{AnswersBy};
ghost use Rattle.pac_script.specs.Lines.{lines};
ghost use Rattle.pac_script.specs.BatchFits.{BatchesFit, BatchesHaveNumbers};
ghost use Rattle.pac_script.specs.Script.{HasBatches, PartsSay, ScriptSays, lines_after};
ghost use Rattle.pac_request.specs.ScriptLines.{ScriptLineSays};
ghost use Rattle.pac_script.specs.declared.script.Script.{Script as AScript};
ghost use Rattle.pac_script.specs.declared.script_fault.ScriptFault.{ScriptFault as AFault};
ghost use Rattle.pac_script.specs.ScriptReading.{IsLineFault, IsLinesFault};

use crate::batcher::Batcher;
use crate::lines::{find_mark, first_line};
use crate::script_fault::{ScriptError, ScriptFault};
use pac_base::{Refusal, listed};
use pac_flat::accepted;
use pac_ops::{Batch, Batches};
use pac_request::{Request, read_script_line};
use pac_types::Catalogue;
use std::alloc::Global;

/// A catalogue, and the batches of its transactions, which are numbered from 1 on.
#[derive(Drop)]
pub struct Script {
    pub catalogue: Catalogue,
    pub batches: Batches,
}

// What the line with this number asks.
fn read_numbered(
    alloc: Global,
    catalogue: &Catalogue,
    number: usize,
    line: &[u8],
) -> Result<Option<Request>, ScriptError>
    ensures ok { IfOk result (λ said. ScriptLineSays catalogue.now line.now (Ok said)) }
    ensures fault { (fault : AFault) → IsErrOf result (error.Fault fault) → IsLineFault catalogue.now line.now number fault }
{
    match read_script_line(alloc, catalogue, line) {
        Ok(said) => Ok(said),
        Err(Refusal::Fault(fault)) => Err(Refusal::Fault(ScriptFault::Line {
            line: number,
            fault,
        })),
        Err(Refusal::NoMemory) => Err(Refusal::NoMemory),
    }
}

// The batches of the lines of a text.
fn read_lines(alloc: Global, catalogue: &Catalogue, text: &[u8]) -> Result<Vec<Batch>, ScriptError>
    ensures ok { IfOk result (λ batches. HasBatches catalogue.now (lines text.now) batches.items) }
    ensures fault { (fault : AFault) → IsErrOf result (error.Fault fault) → IsLinesFault catalogue.now (lines text.now) fault }
{
    let mut batcher = Batcher::new(alloc);
    let mut number = 1;
    let mut rest = text;
    loop {
        let (line, after) = first_line(rest);
        let said = read_numbered(alloc, catalogue, number, line)?;
        batcher.take(alloc, said)?;
        match after {
            None => return Ok(batcher.end(alloc)?),
            Some(next) => {
                rest = next;
                number += 1;
            }
        }
    }
}

// The same of the lines after the mark's line feed, where there is one.
fn read_after(alloc: Global, catalogue: &Catalogue, text: &[u8]) -> Result<Vec<Batch>, ScriptError>
    ensures ok { IfOk result (λ batches. HasBatches catalogue.now (lines_after text.now) batches.items) }
    ensures fault { (fault : AFault) → IsErrOf result (error.Fault fault) → IsLinesFault catalogue.now (lines_after text.now) fault }
{
    match text {
        [] => Ok(Vec::new(alloc)),
        [_, lines @ ..] => read_lines(alloc, catalogue, lines),
    }
}

// The script of a catalogue, and of the text after the mark.
fn with_batches(alloc: Global, catalogue: Catalogue, after: &[u8]) -> Result<Script, ScriptError>
    ensures ok { IfOk result (λ script. (script.catalogue ≡ catalogue) × HasBatches catalogue (lines_after after.now) script.batches) }
    ensures fault { (fault : AFault) → IsErrOf result (error.Fault fault) → IsLinesFault catalogue (lines_after after.now) fault }
{
    let batches = listed(read_after(alloc, &catalogue, after)?);
    Ok(Script { catalogue, batches })
}

// The script of the catalogue's text, and of the text after the mark.
fn read_parts(alloc: Global, prefix: &[u8], after: &[u8]) -> Result<Script, ScriptError>
    ensures { AnswersBy (PartsSay prefix.now after.now) result }
{
    match accepted(alloc, prefix) {
        Ok(catalogue) => with_batches(alloc, catalogue, after),
        Err(Refusal::Fault(fault)) => Err(Refusal::Fault(ScriptFault::Unaccepted(fault))),
        Err(Refusal::NoMemory) => Err(Refusal::NoMemory),
    }
}

// What a text is read as, without the law that it is one thing.
fn read_text(alloc: Global, text: &[u8]) -> Result<Script, ScriptError>
    ensures { AnswersBy (ScriptSays text.now) result }
{
    match find_mark(text) {
        None => read_parts(alloc, text, &[]),
        Some(at) => read_parts(alloc, &text[..at], &text[at + 3..]),
    }
}

/// The script that a text is. Near linear in the text: a line is read, and forgotten but for its transaction.
///
/// # Errors
///
/// The first fault, or `NoMemory`: [`ScriptFault::Unaccepted`] where the text before the first line that is `---`, or all of
/// it, isn't [accepted] as a catalogue; and else [`ScriptFault::Line`], the first line after that is refused, as
/// [`read_script_line`] refuses it.
pub fn read_script(alloc: Global, text: &[u8]) -> Result<Script, ScriptError>
    // What is answered is what the text is read as.
    ensures says { AnswersBy (ScriptSays text.now) result }
    // What the text is read as is answered, and nothing else.
    ensures only { (answer : Result AScript AFault) → ScriptSays text.now answer → Reports (λ said. said) result answer }
    // The transactions fit the catalogue, and have numbers of 64 bits.
    ensures fits { IfOk result (λ script. BatchesFit script.catalogue script.batches) }
    ensures numbers { IfOk result (λ script. BatchesHaveNumbers script.batches) }
{
    read_text(alloc, text)
}
