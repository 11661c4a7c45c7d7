// Logs of after-images: a catalogue, and lists of its tables.
ghost use Rattle.std.specs.Prelude.{◌≡◌, ◌≤◌, ◌+◌, IfOk, IfSome, IsErrOf, Ok, Err, length};
ghost use Rattle.pac_base.specs.declared.refusal.Refusal.TheVariants as error;
ghost use Rattle.pac_request.specs.Answers.{AnswersBy};
ghost use Rattle.pac_script.specs.Script.{text_before};
ghost use Rattle.pac_tuple.specs.declared.fault.ImageFault.{ImageFault as AnImageFault};
ghost use Rattle.pac_tuple.specs.Laying.{AreLaidWithin};
ghost use Rattle.pac_main.specs.Causes.{IsListFault};
ghost use Rattle.pac_main.specs.Lay.{IsFirstListFault, IsLogReadAs, LogAnswer, LogPartsSay, bytes_behind};
ghost use Rattle.pac_main.specs.Record.{AreListsOf, lists_bytes};
ghost use Rattle.pac_main.specs.declared.image_log.LogFault.{LogFault as AFault};
ghost use Rattle.pac_run.specs.declared.limits.TheConstants.{MAX_INPUT};

use pac_base::{Listed, Refusal};
use pac_flat::{AcceptFault, accepted};
use pac_script::find_mark;
use pac_tuple::{ImageError, ImageFault, Images, read_images};
use pac_types::Catalogue;
use std::alloc::Global;

/// A log of after-images: a catalogue, and lists of its tables.
#[derive(Drop)]
pub(crate) struct ImageLog {
    pub catalogue: Catalogue,
    pub images: Images,
}

/// Why a text is no log.
#[derive(Clone, Copy, Debug, PartialEq, Eq)]
pub(crate) enum LogFault {
    /// What stands before its line `---` isn't accepted as a catalogue.
    Unaccepted(AcceptFault),
    /// What stands behind that line are no lists: their first fault.
    Image(ImageFault),
}

/// Why a text is no log, or running out of memory.
pub(crate) type ImageLogError = Refusal<LogFault>;

// The text before the line `---`, which begins there, and the bytes behind that line's line feed; or all of the text.
fn parts(text: &[u8], mark: Option<usize>) -> (&[u8], &[u8])
    requires { IfSome mark (λ at. at + 3 ≤ length text.now) }
    ensures prefix { result.0.now ≡ text_before text.now mark }
    ensures bytes { result.1.now ≡ bytes_behind text.now mark }
{
    match mark {
        None => (text, &[]),
        Some(at) if at + 3 < text.len() => (&text[..at], &text[at + 4..]),
        Some(at) => (&text[..at], &[]),
    }
}

// The lists that the bytes are.
fn read_lists(alloc: Global, catalogue: &Catalogue, bytes: &[u8]) -> Result<Images, ImageError>
    ensures are { IfOk result (AreListsOf catalogue.now.tables) }
    ensures bytes { IfOk result (λ images. bytes.now ≡ lists_bytes images) }
    ensures within { IfOk result (AreLaidWithin (length catalogue.now.tables)) }
    ensures fault { (fault : AnImageFault) → IsErrOf result (error.Fault fault) → IsFirstListFault catalogue.now.tables bytes.now fault }
{
    let _tables = catalogue.tables();
    let mut images: Images = Listed::new(alloc);
    let mut at = 0;
    while at < bytes.len() {
        at = read_images(alloc, catalogue, bytes, at, &mut images)?;
    }
    Ok(images)
}

// The log of a catalogue, and of the bytes behind it.
fn with_lists(alloc: Global, catalogue: Catalogue, bytes: &[u8]) -> Result<ImageLog, ImageLogError>
    ensures same { IfOk result (λ log. log.catalogue ≡ catalogue) }
    ensures are { IfOk result (λ log. AreListsOf catalogue.tables log.images) }
    ensures bytes { IfOk result (λ log. bytes.now ≡ lists_bytes log.images) }
    ensures within { IfOk result (λ log. AreLaidWithin (length log.catalogue.tables) log.images) }
    ensures fault { (fault : AFault) → IsErrOf result (error.Fault fault) → IsListFault catalogue.tables bytes.now fault }
{
    match read_lists(alloc, &catalogue, bytes) {
        Ok(images) => Ok(ImageLog { catalogue, images }),
        Err(Refusal::Fault(fault)) => Err(Refusal::Fault(LogFault::Image(fault))),
        Err(Refusal::NoMemory) => Err(Refusal::NoMemory),
    }
}

// The log of the catalogue's text, and of the bytes behind it. Nothing else is said of them.
fn read_parts(alloc: Global, prefix: &[u8], bytes: &[u8]) -> Result<ImageLog, ImageLogError>
    ensures says { AnswersBy (LogPartsSay prefix.now bytes.now) result }
    ensures only { AnswersBy (λ answer. (other : LogAnswer) → LogPartsSay prefix.now bytes.now other → other ≡ answer) result }
    ensures within { IfOk result (λ log. AreLaidWithin (length log.catalogue.tables) log.images) }
{
    match accepted(alloc, prefix) {
        Ok(catalogue) => {
            let _tables = catalogue.tables();
            with_lists(alloc, catalogue, bytes)
        }
        Err(Refusal::Fault(fault)) => Err(Refusal::Fault(LogFault::Unaccepted(fault))),
        Err(Refusal::NoMemory) => Err(Refusal::NoMemory),
    }
}

/// The log that a text is. Linear in the text.
///
/// # Errors
///
/// The first fault, or `NoMemory`: [`LogFault::Unaccepted`] where the text before the first line that is `---`, or all of it,
/// isn't [accepted] as a catalogue; and else [`LogFault::Image`], the first fault of the bytes behind that line, as
/// [`read_images`] refuses them.
pub(crate) fn read_log(alloc: Global, text: &[u8]) -> Result<ImageLog, ImageLogError>
    requires short { length text.now ≤ MAX_INPUT }
    ensures ok { IfOk result (λ log. IsLogReadAs text.now (Ok log)) }
    ensures fault { (fault : AFault) → IsErrOf result (error.Fault fault) → IsLogReadAs text.now (Err fault) }
    ensures within { IfOk result (λ log. AreLaidWithin (length log.catalogue.tables) log.images) }
{
    let (prefix, bytes) = parts(text, find_mark(text));
    read_parts(alloc, prefix, bytes)
}
