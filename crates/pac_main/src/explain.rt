// The command `explain`.
ghost use Rattle.std.specs.Prelude.{◌≡◌, ◌≢◌, ◌↔◌, ◌∷◌, [], Bool, IfOk, IfErr, IfSome, OnOk, OnErr, ◌+◌};
ghost use Rattle.pac_outside.specs.Content.{GaveAtMost};
ghost use Rattle.pac_syntax.specs.declared.limits.TheConstants.{MAX_CATALOGUE};
ghost use Rattle.pac_main.specs.Causes.{ExplainStops, GivesNoExplanation};
ghost use Rattle.pac_main.specs.Commands.{AsksExplain, IsExplain};
ghost use Rattle.pac_main.specs.Explained.{ExplainEnds, IsExplanationOf, IsTheExplanation};
ghost use Rattle.pac_main.specs.Stop.{status_of, line_of};
ghost use Rattle.pac_main.specs.Streams.{IsOneOf, IsTaken, IsReported, observed};
ghost use Rattle.pac_main.specs.declared.stop.Stop.{Stop as AStop};

use crate::explanation::explain;
use crate::input::InputError;
use crate::reporting::{ArgumentsError, refuse_arguments, report};
use crate::stop::Stop;
use pac_arguments::{Command, parse_args};
use pac_base::NoMemory;
use pac_outside::{Sink, Source, read_up_to, write_all};
use pac_syntax::MAX_CATALOGUE;
use std::alloc::Global;

// What is written of the catalogue that the source holds.
fn read_explanation<I: Source>(
    alloc: Global,
    with_text: bool,
    input: &mut I,
) -> Result<Vec<u8>, InputError>
    ensures ok { IfOk result (λ written. IfSome (I.left input.old) (λ text. IsTheExplanation with_text text written.items)) }
    ensures stops { IfErr result (GivesNoExplanation (observed I.left I.faults input.old input.new)) }
    ensures taken { GaveAtMost (MAX_CATALOGUE + 1) (I.left input.old) (I.left input.new) }
{
    let text = read_up_to(alloc, input, MAX_CATALOGUE)?;
    Ok(explain(alloc, with_text, &text)?)
}

// Reads the catalogue's text, and writes what explains it.
fn write_explanation<I: Source, O: Sink>(
    alloc: Global,
    with_text: bool,
    input: &mut I,
    output: &mut O,
) -> Result<(), Stop>
    ensures done { OnOk result (IsExplanationOf with_text (I.left input.old) (IsTaken (observed O.held O.faults output.old output.new))) }
    ensures stops { IfErr result (ExplainStops with_text (observed I.left I.faults input.old input.new) (observed O.held O.faults output.old output.new)) }
    ensures kept { IfErr result (λ stop. stop ≢ Stop.OutputFault → output.new ≡ output.old) }
    ensures taken { GaveAtMost (MAX_CATALOGUE + 1) (I.left input.old) (I.left input.new) }
{
    let text = read_explanation(alloc, with_text, input)?;
    Ok(write_all(output, &text)?)
}

/// Does what the arguments `explain` or `explain --text` say, and answers the program's exit status: reads a catalogue's text
/// from the input, to its end or to 65,537 bytes, and writes the slices of its procedures and the blocks of its plan, with
/// `--text` after the canonical text.
///
/// | status | comes | the error sink takes |
/// |---|---|---|
/// | 0 | else: the output took the text | nothing |
/// | 1 | exactly where the arguments are neither `explain` nor `explain --text`, unless there was no memory to read them | the usage |
/// | 2 | only where the catalogue is refused: its first fault, or the first procedure at which operations are too many | `catalogue AT KIND` or `operations PROC COUNT` |
/// | 6 | only where the input's count of faults rose | `input fault` |
/// | 7 | only where the output's count of faults rose; the output took a prefix of the text | `output fault` |
/// | 9 | where an allocation was refused | `no memory` |
///
/// A failing error sink changes no status.
pub fn explain_command<I: Source, O: Sink, E: Sink>(
    alloc: Global,
    arguments: &[String],
    input: &mut I,
    output: &mut O,
    errors: &mut E,
) -> u8
    ensures status { IsOneOf result (0 ∷ 1 ∷ 2 ∷ 6 ∷ 7 ∷ 9 ∷ []) }
    ensures usage { result ≢ 9 → (result ≡ 1) ↔ ¬ AsksExplain arguments.now }
    ensures ends { (with_text : Bool) → IsExplain arguments.now with_text → ExplainEnds with_text result
        (observed I.left I.faults input.old input.new) (observed O.held O.faults output.old output.new) (observed E.held E.faults errors.old errors.new) }
    ensures kept { result ≢ 0 → result ≢ 7 → output.new ≡ output.old }
    ensures quiet { result ≡ 0 → errors.new ≡ errors.old }
    ensures reported { result ≢ 0 → (stop : AStop) × (result ≡ status_of stop) × IsReported (observed E.held E.faults errors.old errors.new) (line_of stop) }
    ensures taken { GaveAtMost (MAX_CATALOGUE + 1) (I.left input.old) (I.left input.new) }
    ensures unread { ¬ AsksExplain arguments.now → input.new ≡ input.old }
{
    match parse_args(alloc, arguments) {
        Ok(Some(Command::Explain { text })) => explain_input(alloc, text, input, output, errors),
        Ok(_) => refuse_arguments(ArgumentsError::Usage, errors),
        Err(NoMemory) => refuse_arguments(ArgumentsError::NoMemory, errors),
    }
}

/// Writes what explains the catalogue whose text the input holds, after its canonical text where that is wanted, and says
/// why where that stops before its end.
pub(crate) fn explain_input<I: Source, O: Sink, E: Sink>(
    alloc: Global,
    with_text: bool,
    input: &mut I,
    output: &mut O,
    errors: &mut E,
) -> u8
    ensures ends { ExplainEnds with_text result
        (observed I.left I.faults input.old input.new) (observed O.held O.faults output.old output.new) (observed E.held E.faults errors.old errors.new) }
    ensures kept { result ≢ 0 → result ≢ 7 → output.new ≡ output.old }
    ensures quiet { result ≡ 0 → errors.new ≡ errors.old }
    ensures reported { result ≢ 0 → (stop : AStop) × (result ≡ status_of stop) × IsReported (observed E.held E.faults errors.old errors.new) (line_of stop) }
    ensures taken { GaveAtMost (MAX_CATALOGUE + 1) (I.left input.old) (I.left input.new) }
{
    match write_explanation(alloc, with_text, input, output) {
        Ok(()) => 0,
        Err(stop) => report(alloc, stop, errors).status(),
    }
}
