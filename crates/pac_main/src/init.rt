// The command `init`.
ghost use Rattle.std.specs.Prelude.{◌≡◌, ◌≢◌, ◌↔◌, ◌∷◌, [], IfOk, IfErr, OnOk, IsErrOf, ◌+◌};
ghost use Rattle.pac_outside.specs.Content.{GaveAtMost};
ghost use Rattle.pac_outside.specs.Devices.{each};
ghost use Rattle.pac_syntax.specs.declared.limits.TheConstants.{MAX_CATALOGUE};
ghost use Rattle.pac_types.specs.Typing.{CatalogueState};
ghost use Rattle.pac_types.specs.Accepted.{IsAccepted};
ghost use Rattle.pac_main.specs.Causes.{GivesNoText, InitStops};
ghost use Rattle.pac_main.specs.Commands.{IsInit};
ghost use Rattle.pac_main.specs.Init.{InitEnds, IsStoreOf, IsStoreText};
ghost use Rattle.pac_main.specs.Stop.{status_of, line_of};
ghost use Rattle.pac_main.specs.Streams.{IsOneOf, IsReported, observed, observed_devices};
ghost use Rattle.pac_main.specs.declared.stop.Stop.{Stop as AStop};

use crate::input::InputError;
use crate::reporting::{ArgumentsError, refuse_arguments, report};
use crate::stop::Stop;
use pac_arguments::{Command, parse_args};
use pac_base::NoMemory;
use pac_flat::accepted;
use pac_outside::{Devices, Disk, Sink, Source, read_up_to};
use pac_store::make_store;
use pac_syntax::MAX_CATALOGUE;
use std::alloc::Global;

// The text that the source holds, of which a store can be made.
fn read_text<I: Source>(alloc: Global, input: &mut I) -> Result<Vec<u8>, InputError>
    ensures ok { IfOk result (λ text. IsStoreText text.items (I.left input.old)) }
    ensures accepted { IfOk result (λ text. (catalogue : CatalogueState) × IsAccepted text.items catalogue) }
    ensures stops { IfErr result (GivesNoText (observed I.left I.faults input.old input.new)) }
    ensures taken { GaveAtMost (MAX_CATALOGUE + 1) (I.left input.old) (I.left input.new) }
{
    let text = read_up_to(alloc, input, MAX_CATALOGUE)?;
    accepted(alloc, &text)?;
    Ok(text)
}

// Makes the store of the text that the source holds.
fn init<I: Source, D: Disk>(
    alloc: Global,
    input: &mut I,
    devices: &mut Devices<D>,
) -> Result<(), Stop>
    ensures done { OnOk result (IsStoreOf (I.left input.old) (observed_devices D.known D.faults devices.old devices.new)) }
    ensures quiet { OnOk result (each D.faults devices.new ≡ each D.faults devices.old) }
    ensures stops { IfErr result (InitStops (observed I.left I.faults input.old input.new) (observed_devices D.known D.faults devices.old devices.new)) }
    ensures taken { GaveAtMost (MAX_CATALOGUE + 1) (I.left input.old) (I.left input.new) }
{
    let text = read_text(alloc, input)?;
    Ok(make_store(alloc, &text, devices)?)
}

/// Does what the argument `init` says, and answers the program's exit status: reads a catalogue's text from the input, to its
/// end or to 65,537 bytes, and makes its store on the devices, which must be empty. With status 0 a crash leaves of the log
/// the header with the text and a closed gate, and of each slot a closed gate; the second log device isn't written.
///
/// | status | comes | the error sink takes |
/// |---|---|---|
/// | 0 | else: the store is there | nothing |
/// | 1 | exactly where the arguments are not `init`, unless there was no memory to read them | the usage |
/// | 2 | only where the catalogue is refused: its first fault, or the first procedure at which operations are too many | `catalogue AT KIND` or `operations PROC COUNT` |
/// | 3 | only where a device has a byte: the first of the two log devices, slot a and slot b | `not empty DEVICE LENGTH` |
/// | 6 | only where the input's count of faults rose | `input fault` |
/// | 8 | only where a device's count of faults rose; nothing is promised of the devices then | `disk fault` |
/// | 9 | where an allocation was refused | `no memory` |
///
/// With any status but 0 and 8 nothing was written to a device. A failing error sink changes no status.
pub fn init_command<I: Source, E: Sink, D: Disk>(
    alloc: Global,
    arguments: &[String],
    input: &mut I,
    errors: &mut E,
    devices: &mut Devices<D>,
) -> u8
    ensures status { IsOneOf result (0 ∷ 1 ∷ 2 ∷ 3 ∷ 6 ∷ 8 ∷ 9 ∷ []) }
    ensures usage { result ≢ 9 → (result ≡ 1) ↔ ¬ IsInit arguments.now }
    ensures ends { IsInit arguments.now → InitEnds result
        (observed I.left I.faults input.old input.new) (observed E.held E.faults errors.old errors.new) (observed_devices D.known D.faults devices.old devices.new) }
    ensures quiet { result ≡ 0 → errors.new ≡ errors.old }
    ensures reported { result ≢ 0 → (stop : AStop) × (result ≡ status_of stop) × IsReported (observed E.held E.faults errors.old errors.new) (line_of stop) }
    ensures taken { GaveAtMost (MAX_CATALOGUE + 1) (I.left input.old) (I.left input.new) }
    ensures unread { ¬ IsInit arguments.now → input.new ≡ input.old }
    ensures unused { ¬ IsInit arguments.now → devices.new ≡ devices.old }
{
    match parse_args(alloc, arguments) {
        Ok(Some(Command::Init)) => init_input(alloc, input, errors, devices),
        Ok(_) => refuse_arguments(ArgumentsError::Usage, errors),
        Err(NoMemory) => refuse_arguments(ArgumentsError::NoMemory, errors),
    }
}

/// Makes the store of the text that the input holds, and reports why where that stops before its end.
pub(crate) fn init_input<I: Source, E: Sink, D: Disk>(
    alloc: Global,
    input: &mut I,
    errors: &mut E,
    devices: &mut Devices<D>,
) -> u8
    ensures ends { InitEnds result
        (observed I.left I.faults input.old input.new) (observed E.held E.faults errors.old errors.new) (observed_devices D.known D.faults devices.old devices.new) }
    ensures quiet { result ≡ 0 → errors.new ≡ errors.old }
    ensures reported { result ≢ 0 → (stop : AStop) × (result ≡ status_of stop) × IsReported (observed E.held E.faults errors.old errors.new) (line_of stop) }
    ensures taken { GaveAtMost (MAX_CATALOGUE + 1) (I.left input.old) (I.left input.new) }
{
    match init(alloc, input, devices) {
        Ok(()) => 0,
        Err(stop) => report(alloc, stop, errors).status(),
    }
}
